//! The player: what is played, from where, and the jobs that its decoder is given.
#![tactic(auto)]

mod fault;
mod laws;
mod player;
mod state;

pub use fault::PlayerFault;
pub use laws::{
    deletions_go_on, ends_stop_for_a_cause, feeds_as_asked, feeds_once, next_goes_on, numbers_rise,
    peek_foretells, play_begins, played_stay_queued, previous_consumes_nothing,
    rounds_play_each_once,
};
pub use player::Player;
pub use state::{Fade, FadePart, Job, Live, Playback};

//! What is kept of a player while the daemon is not there: its queue, its current song, its modes and its
//! outputs, as a text of protocol lines.
#![tactic(auto)]

mod answers;
mod kept;
mod laws;
mod partitions;
mod players;
mod storing;
mod telling;
mod text;

pub use answers::{is_output_on, kept_of};
pub use kept::{Kept, KeptEntry, KeptOptions, KeptOutput, KeptPlayback, KeptSong};
pub use laws::{gives_back, partitions_give_back};
pub use partitions::{KeptPartition, names_of, partitions_of, plays_in_one, switched_on};
pub use players::player_text;
pub use storing::{StateFile, Storing};
pub use telling::{Hearer, is_of_state, tell_lines};
pub use text::state_text;

//! What a client may ask of the player has not changed where it was told of nothing, said once more and proved
//! of the definitions.
#![tactic(auto)]

mod laws;

pub use laws::{
    answers_are_told_of, events_are_client_steps, lines_are_told_of, messages_are_told_of,
};

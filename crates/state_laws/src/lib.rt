//! What the player of one thread makes of the lines of a state, proved of the definitions.
#![tactic(auto)]

mod laws;

pub use laws::{
    partitions_come_back, players_come_back, settings_are_set_up, states_come_back,
    texts_come_back, told_partitions_come_back, told_texts_come_back,
};

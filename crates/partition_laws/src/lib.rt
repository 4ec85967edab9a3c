//! What the clients of one partition hear of the others, said once more and proved of the definitions.
#![tactic(auto)]

mod laws;

pub use laws::{
    daemons_stay_legal, equal_views_hear_the_same, feeds_no_newcomer, feeds_owe_nothing,
    moves_rise, others_may_be_left_out, reports_tell_moves,
};

//! What commands of the queue, of options and of outputs leave, said once more and proved of the definitions.
#![tactic(auto)]

mod laws;

pub use laws::{edits_keep_the_others, outputs_are_shown, what_is_set_is_shown};

//! One client's session: its bytes are read and split into lines, what the lines ask for is asked of the
//! player, and the answers are written.
#![tactic(auto)]

mod asker;
mod asking;
mod conversation;
mod end;
mod gatherer;
mod laws;
mod owed;
mod session;
mod unsent;

pub use asker::Asker;
pub use end::{End, Goes, SessionFault};
pub use laws::{
    any_cut_of_bytes, any_cut_of_lines, lines_ask_for, outputs_join, outputs_join_over, turns_join,
};
pub use session::Session;

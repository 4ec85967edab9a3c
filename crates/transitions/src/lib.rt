//! What an event is to do and to answer, found out before anything changes; what a shelf is asked and
//! answers.
#![tactic(auto)]

mod asked;
mod early_report;
mod refusals;
mod reply;
mod response;
mod shelf_calls;
mod transition;

pub use asked::{Asked, ListPlace};
pub use early_report::EarlyReport;
pub use refusals::{Refusals, shelf_refuses};
pub use reply::{Move, Next, Reply};
pub use response::{
    Response, disconnects, refuses, refuses_line, shows, shut_down, succeeds, succeeds_and, tells,
};
pub use shelf_calls::{Entries, Names, Read, ShelfWrite, StoreReply};
pub use transition::{Telling, Transition};

//! The lines of a script: whose a line is, and what a step asks for.
#![tactic(auto)]

mod cut;
mod limit;
mod line;
mod step;
mod tag;

pub use limit::{EVERYDAY, LimitName, MAX_CUT, MAX_HISTORY, MAX_ID, MAX_QUEUE, MAX_VERSION};
pub use line::ScriptLine;
pub use step::{JobStep, MAX_CLIENT, MAX_URI, Step};
pub use tag::MAX_TEXT;

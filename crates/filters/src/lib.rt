//! Filter expressions over songs: what a text says, and of which songs it holds (MPD protocol reference,
//! Filters).
#![tactic(auto)]

mod expression;
mod matching;
mod pairs;
mod reading;
mod stack;
mod state;
mod words;

pub use expression::{Field, Filter, Test};
pub use matching::{Case, after_prefix};
pub use pairs::Pair;
pub use reading::{FilterFault, one_answer, parsed_is_the_answer};
pub use state::MAX_DEPTH;
pub use words::Vocabulary;

//! An output whose path may stand still: a ring between the two, what passes through it, and when the output
//! is let go on, switched off, and switched on again.
#![tactic(auto)]

mod asking;
mod path_writer;
mod progress;
mod shared_tally;
mod tally;
mod timer;
mod watch;
mod writer;

pub use asking::Switch;
pub use path_writer::{PathWriterArguments, PathWriterEnd, Reopening, copy_to_path};
pub use progress::{MOST_BYTES, MOST_WAITING, PathProgress};
pub use shared_tally::SharedTally;
pub use tally::Tally;
pub use timer::StallTimer;
pub use watch::{Mode, Off, Step, Watch, decide};
pub use writer::{PatientWriter, path_channel};

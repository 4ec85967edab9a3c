//! Runs the worked script sessions, then those that the program makes itself since they are too long to be
//! written down or their devices fail, and then lives one day of the whole daemon.
//!
//! All are one program, since nearly all that each is linked with is linked with the other, and a program is
//! linked thrice in the gate: by its check and by two compilers.
#![tactic(auto)]

mod broken;
mod client;
mod comparing;
mod day;
mod files;
mod long_session;
mod row;
mod rows;
mod runs;
mod sessions;

use std::io;
use std::process::ExitCode;

fn main(rt: HostRuntime) -> io::Result<ExitCode> {
    rows::run_all(&rt)?;
    sessions::run_all(&rt)?;
    day::live(rt, rt)
}

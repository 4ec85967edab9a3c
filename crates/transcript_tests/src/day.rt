//! One day of the whole daemon. It is started as the program starts it, over a file of settings and a folder
//! of WAVE files, and plays into a file; a client on a thread of its own says lines, prints them and what it
//! hears, and ends the daemon. Then it is printed what the daemon's files hold.
//!
//! The songs have frames of 16 bits and two channels, 8,000 a second. `music/morning.wav` has the five
//! 1 -1, 2 -2, 300 -300, 32767 -32768 and -5 7; `music/old/evening.wav` the two 11 12 and 13 14, and
//! `later/noon.wav` the three 1000 -1000, 0 256 and -1 -256.

use crate::client::visits;
use crate::files::{SETTINGS, print_files, write_settings};
use serving::{Launch, Purpose, serve_by_file};
use std::fmt::Display;
use std::net::Net;
use std::process::ExitCode;
use std::sync::Wait;
use std::thread::Threads;
use std::time::Clock;
use std::{io, thread};

const LAUNCH: Launch = Launch {
    version: "test",
    purpose: Purpose::Serve,
};

/// Lives the day. Both handles are the program's, as of [`serve_by_file`]. Status 0 where all went well, 1
/// after a line on standard error for each that did not.
pub fn live<R: Threads + Wait + Clock + Net + Copy + Send + Sync + 'static>(
    rt: R,
    host: HostRuntime,
) -> io::Result<ExitCode> {
    let address = write_settings(&host)?;
    let client = thread::spawn(&rt, move || visits(&host, address))?;
    let served = went_well(&host, "daemon", serve_by_file(rt, host, SETTINGS, LAUNCH));
    let visited = went_well(&host, "client", client.join(&rt));
    end(&host, served && visited)
}

/// Whether somebody's day went well; else why not is told on standard error.
fn went_well<F: Display + Drop>(rt: &HostRuntime, who: &str, ended: Result<(), F>) -> bool {
    match ended {
        Ok(()) => true,
        Err(fault) => {
            let _printed = eprintln!(rt; "{who}: {fault}");
            false
        }
    }
}

/// Prints what is left of a day that went well.
fn end(rt: &HostRuntime, went_well: bool) -> io::Result<ExitCode> {
    if !went_well {
        return Ok(ExitCode::FAILURE);
    }
    print_files(rt)?;
    Ok(ExitCode::SUCCESS)
}

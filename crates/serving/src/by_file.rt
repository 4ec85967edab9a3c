//! A daemon as a file of settings says.
ghost use Rattle.settings.specs.Values.{AreWithin};
ghost use Rattle.std.specs.Prelude.{IfOk};

use crate::fault::DaemonFault;
use crate::on_file::serve_on_file;
use crate::serving::{Launch, serve};
use settings::{Settings, settings};
use shelf::MemShelf;
use std::fs;
use std::io::ErrorKind;
use std::net::Net;
use std::sync::Wait;
use std::thread::Threads;
use std::time::Clock;

/// Serves as a file of settings says, until a client ends the daemon, or only checks what it says. Both
/// handles are the program's, as of [`serve`].
///
/// # Errors
///
/// As [`serve`]; and where the settings or the shelf's file are refused.
pub fn serve_by_file<R: Threads + Wait + Clock + Net + Copy + Send + Sync + 'static>(
    rt: R,
    host: HostRuntime,
    file: &str,
    launch: Launch,
) -> Result<(), DaemonFault> {
    let settings = read_settings(&host, file)?;
    match &settings.shelf {
        Some(path) => serve_on_file(rt, host, &settings, path.as_str(), launch),
        None => serve(
            rt,
            host,
            &settings,
            &mut MemShelf::new(host.alloc()),
            launch,
        ),
    }
}

fn read_settings(rt: &HostRuntime, file: &str) -> Result<Settings, DaemonFault>
    ensures { IfOk result AreWithin }
{
    match fs::read_to_string(rt, file) {
        Ok(text) => Ok(settings(rt.alloc(), text.as_str())?),
        Err(fault) if fault.kind() == ErrorKind::OutOfMemory => Err(DaemonFault::NoMemory),
        Err(_) => Err(DaemonFault::CannotRead(String::from_str(rt.alloc(), file)?)),
    }
}

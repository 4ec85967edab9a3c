//! What a check of the settings tells.
use crate::fault::DaemonFault;
use settings::Settings;
use std::io;

/// Prints what the settings name, and what the scan found: a line for the music, the address, the shelf, the
/// state and each output.
pub(crate) fn print_found(
    rt: &HostRuntime,
    settings: &Settings,
    report: &str,
) -> Result<(), DaemonFault> {
    match print_lines(rt, settings, report) {
        Ok(()) => Ok(()),
        Err(_) => Err(DaemonFault::WriteFault),
    }
}

fn print_lines(rt: &HostRuntime, settings: &Settings, report: &str) -> io::Result<()> {
    println!(rt; "music: {}: {report}", settings.music)?;
    println!(rt; "listen: {}", settings.listen)?;
    if let Some(path) = &settings.shelf {
        println!(rt; "shelf: {path}")?;
    }
    if let Some(path) = &settings.state {
        println!(rt; "state: {path}")?;
    }
    for output in &settings.outputs {
        println!(rt; "output: {}: {}", output.name, output.path)?;
    }
    Ok(())
}

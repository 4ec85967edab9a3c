//! Runs of scripts that are read from a device in memory and written to one.
use counted_devices::{FailAt, FailurePoint};
use daemon_script::{ScriptFault, run_script};
use std::alloc::{AllocError, Global};

/// Runs a script, and gives how that ended and the device that was written to.
pub(crate) fn run_between(
    alloc: Global,
    mut reader: FailAt,
    mut writer: FailAt,
) -> (Result<(), ScriptFault>, FailAt) {
    let ended = run_script(alloc, &mut reader, &mut writer);
    (ended, writer)
}

fn end_of(ended: Result<(), ScriptFault>) -> &'static str {
    match ended {
        Ok(()) => "ok",
        Err(ScriptFault::ReadFault) => "read fault",
        Err(ScriptFault::WriteFault) => "write fault",
        Err(ScriptFault::NoMemory) => "no memory",
    }
}

/// How a run of a script ends, and what it prints before that: `ok`, `read fault`, `write fault` or `no
/// memory`, a newline, and what was written, or that this is no text.
pub(crate) fn run(
    alloc: Global,
    input: &str,
    read: FailurePoint,
    write: FailurePoint,
) -> Result<String, AllocError> {
    let input = Vec::from_slice(alloc, input.as_bytes())?;
    let reader = FailAt::new(input, read);
    let writer = FailAt::new(Vec::new(alloc), write);
    let (ended, written) = run_between(alloc, reader, writer);
    let text = str::from_utf8(written.bytes()).unwrap_or("no text");
    format!(in alloc; "{}\n{text}", end_of(ended))
}

/// The same of a reader and a writer that do not fail.
pub(crate) fn run_whole(alloc: Global, input: &str) -> Result<String, AllocError> {
    run(alloc, input, FailurePoint::Never, FailurePoint::Never)
}

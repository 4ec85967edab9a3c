//! Sessions whose reader or writer fails.

use crate::runs::run;
use counted_devices::FailurePoint;
use std::alloc::{AllocError, Global};

/// A session whose last line has no end.
const SESSION: &str = "! song a.wav 8000\n1 add a.wav\n1 delete 0\n1 sta";

/// What is observed where the writer takes ten bytes.
pub(crate) fn writer_fails(alloc: Global) -> Result<String, AllocError> {
    run(alloc, SESSION, FailurePoint::Never, FailurePoint::Byte(10))
}

/// What is observed where the reader fails at once, at the end and between, with a bar after each.
pub(crate) fn reader_fails(alloc: Global) -> Result<String, AllocError> {
    let at_once = cut_off(alloc, FailurePoint::Call(1))?;
    let at_end = cut_off(alloc, FailurePoint::Call(2))?;
    let between = cut_off(alloc, FailurePoint::Byte(32))?;
    format!(in alloc; "{at_once}|{at_end}|{between}|")
}

fn cut_off(alloc: Global, read: FailurePoint) -> Result<String, AllocError> {
    run(alloc, SESSION, read, FailurePoint::Never)
}

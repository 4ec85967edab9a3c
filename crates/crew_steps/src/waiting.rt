//! Waiting for a while.
use std::sync::Wait;
use std::thread;
use std::time::{Clock, Duration};

/// Waits for so many milliseconds.
pub fn pause<R: Wait + Clock>(rt: &R, millis: u64) {
    thread::sleep(rt, Duration::from_millis(millis));
}

//! The thread that wakes the loop over the sockets where a notice waits.
use crate::sockets::{ServeFault, Server};
use house::{House, Ledgers};
use mio::Waker;
use std::alloc::{AllocError, Global};
use std::sync::{Arc, Wait};
use std::thread;
use std::thread::{JoinHandle, Threads};
use std::time::{Clock, Duration};

/// How long, in milliseconds, the thread waits at most; a notice wakes it, and the end of the daemon.
const LONGEST_WAIT: u64 = 60_000;

/// How long, in milliseconds, the loop has to hand out the notices that it was woken for, before it is woken
/// again.
const HAND_OUT: u64 = 5;

/// Wakes the loop where a notice waits, until the daemon has ended.
fn wake<L: Ledgers, R: Wait + Clock>(rt: &R, house: &House<L>, waker: &Waker) {
    for _ in rt.forever() {
        let waits = house.await_notice(rt, Duration::from_millis(LONGEST_WAIT));
        if house.has_ended(rt) {
            return;
        }
        if waits {
            // Where the system refuses it, it is asked again while the notice waits.
            let _woken = waker.wake();
            thread::sleep(rt, Duration::from_millis(HAND_OUT));
        }
    }
}

/// Starts a thread that wakes a server as soon as a notice waits in the house, and that ends with the daemon:
/// it is joined after the close.
///
/// # Errors
///
/// Where there is no memory, no thread or no descriptor; the server then looks for notices by itself.
pub fn start_waker<
    L: Ledgers + Send + Sync + 'static,
    R: Threads + Wait + Clock + Copy + Send + 'static,
>(rt: R, house: &Arc<House<L>, Global>, server: &mut Server) -> Result<JoinHandle<()>, ServeFault> {
    let house = Arc::try_clone(house)?;
    let waker = server.waker()?;
    match start_thread(rt, house, waker) {
        Ok(handle) => Ok(handle),
        Err(_) => {
            server.look_itself();
            Err(ServeFault::NoMemory)
        }
    }
}

fn start_thread<
    L: Ledgers + Send + Sync + 'static,
    R: Threads + Wait + Clock + Copy + Send + 'static,
>(rt: R, house: Arc<House<L>, Global>, waker: Waker) -> Result<JoinHandle<()>, AllocError> {
    let handle = thread::spawn(&rt, move || wake(&rt, &*house, &waker))?;
    Ok(handle)
}

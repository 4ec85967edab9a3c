//! Runs the sessions that are no rows, and prints whether they told what is expected: how a run ended, a
//! newline, and what it printed.

use crate::broken::{reader_fails, writer_fails};
use crate::long_session::{largest_list, long_session};
use daemon_script::runs_are_traced;
use std::alloc::AllocError;
use std::io;

/// Where the reader fails at once, at the end, and in the third line.
const CUT_OFF: &str = "read fault
|read fault
1 OK MPD 0.23.0
1 OK
1 OK
|read fault
1 OK MPD 0.23.0
1 OK
|";

/// Of the largest list the line is refused that meets a full queue, and nothing stays of it.
const LARGEST_LIST: &str = "ok\n1 OK MPD 0.23.0\n1 ACK [51@16384] {add} playlist is full\n1 OK\n";

/// Runs each of them.
pub fn run_all(rt: &HostRuntime) -> io::Result<()> {
    runs_are_traced();
    let alloc = rt.alloc();
    println!(rt;
        "a long session: {}\nthe largest list: {}\na writer that fails: {}\na reader that fails: {}",
        whether_expected(long_session(alloc), "long: true, as wanted: true"),
        whether_expected(largest_list(alloc), LARGEST_LIST),
        whether_expected(writer_fails(alloc), "write fault\n1 OK MPD 0"),
        whether_expected(reader_fails(alloc), CUT_OFF)
    )
}

fn whether_expected(observed: Result<String, AllocError>, expected: &str) -> &'static str {
    match observed {
        Ok(observed) if observed.as_str() == expected => "as wanted",
        _ => "DIFFERS",
    }
}

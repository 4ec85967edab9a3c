//! Entries that are moved, and entries that get a priority.
//!
//! Songs are put into the queue at once, so its version is 2. Each other edit tells one line: what is answered,
//! the version and the parity, each entry's id and priority, and the positions of slots new since the version
//! before it.
use crate::queues::{GREATEST, Row, check_rows};
use song_queue::moves_keep_entries;
use std::test::Fail;

/// Entries are moved.
const MOVES: &str = "insert 0 5
whole move 0 2 1
whole move 4 5 0
whole move 1 3 1
whole move 2 2 99
whole move 1 3 4
whole move 1 3 3
whole move 3 2 0
whole move 0 6 0
whole move 0 5 1
whole move 0 5 0
whole move 6 6 0";

const MOVES_TELL: &str = "ok 2 5 flips
ok 3 false: 3/0 1/0 2/0 4/0 5/0 new: 0 1 2
ok 4 true: 5/0 3/0 1/0 2/0 4/0 new: 0 1 2 3 4
ok 4 true: 5/0 3/0 1/0 2/0 4/0 new:
ok 4 true: 5/0 3/0 1/0 2/0 4/0 new:
bad index 4 true: 5/0 3/0 1/0 2/0 4/0 new:
ok 5 false: 5/0 2/0 4/0 3/0 1/0 new: 1 2 3 4
bad index 5 false: 5/0 2/0 4/0 3/0 1/0 new:
bad index 5 false: 5/0 2/0 4/0 3/0 1/0 new:
bad index 5 false: 5/0 2/0 4/0 3/0 1/0 new:
ok 5 false: 5/0 2/0 4/0 3/0 1/0 new:
bad index 5 false: 5/0 2/0 4/0 3/0 1/0 new:
";

/// Entries get a priority.
const PRIORITIES: &str = "insert 0 4
whole prio 7 1:3 2:4 0:0
whole prio 7 1:2 3:4
whole prio 7 0:2
whole prio 9 0:1 4:5
whole prio 9 0:1 3:2
whole prio 9
whole prio 9 4:4 2:2
whole prio 255 0:4";

const PRIORITIES_TELL: &str = "ok 2 4 flips
ok 3 false: 1/0 2/7 3/7 4/7 new: 1 2 3
ok 3 false: 1/0 2/7 3/7 4/7 new:
ok 4 true: 1/7 2/7 3/7 4/7 new: 0
bad index 4 true: 1/7 2/7 3/7 4/7 new:
bad index 4 true: 1/7 2/7 3/7 4/7 new:
ok 4 true: 1/7 2/7 3/7 4/7 new:
ok 4 true: 1/7 2/7 3/7 4/7 new:
ok 5 false: 1/255 2/255 3/255 4/255 new: 0 1 2 3
";

/// Versions begin anew.
/// Where versions begin anew each slot is marked, until it changes.
const ANEW: &str = "insert 0 4
whole move 3 4 2
whole prio 5 0:1
show whole 2
whole prio 5 1:2
whole move 0 1 1
show whole 2";

const ANEW_TELLS: &str = "ok 2 4 flips
ok 1 false: 1/0 2/0 4/0 3/0 new: 0 1 2 3
ok 2 true: 1/5 2/0 4/0 3/0 new: 0 1 2 3
shown 2 true: 1/5 2/0 4/0 3/0 new: 1 2 3
ok 1 false: 1/5 2/5 4/0 3/0 new: 0 1 2 3
ok 2 true: 2/5 1/5 4/0 3/0 new: 0 1 2 3
shown 2 true: 2/5 1/5 4/0 3/0 new: 2 3
";

/// A full queue.
const FULL: &str = "insert 0 16384
whole move 1 16384 0
whole move 0 8192 8191
whole move 0 8192 8193
whole prio 1 0:8192 1:16383
whole prio 2 0:16385";

const FULL_TELLS: &str = "ok 2 16384 flips
ok 3 false: 2/0 3/0 8193/0 8194/0 1/0 new: 16384 places from 0 to 16383
ok 4 true: 8194/0 8195/0 2/0 3/0 1/0 new: 16383 places from 0 to 16382
bad index 4 true: 8194/0 8195/0 2/0 3/0 1/0 new:
ok 5 false: 8194/1 8195/1 2/1 3/1 1/0 new: 16383 places from 0 to 16382
bad index 5 false: 8194/1 8195/1 2/1 3/1 1/0 new:
";

const ROWS: &[Row<'_>] = &[
    ((16_384, 99, 2_147_483_647), 0, MOVES, MOVES_TELL),
    ((16_384, 99, 2_147_483_647), 0, PRIORITIES, PRIORITIES_TELL),
    ((16_384, 2, 2_147_483_647), 0, ANEW, ANEW_TELLS),
    (GREATEST, 0, FULL, FULL_TELLS),
];

#[test]
fn each_row_is_observed(rt: HostRuntime) -> Result<(), Fail> {
    moves_keep_entries();
    check_rows(rt.alloc(), ROWS)
}

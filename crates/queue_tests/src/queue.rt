//! Worked rows of the queue.
//!
//! Each edit tells one line: what is answered, the version, the length, and whether the parity was flipped.
use crate::queues::{GREATEST, Row, check_rows};
use song_queue::{
    edits_follow_past, ids_are_distinct, ids_never_return, parity_tells_changes, pasts_keep_queues,
    patches_give_present, states_follow_pasts,
};
use std::test::Fail;

/// A deletion restamps the slots after it.
const DELETION: &str = "remove 2 3
show new 6
show new 7
show new 99
show ids
show place 3
show id 4";

const DELETION_TELLS: &str = "ok 7 4 flips
 2 3

 0 1 2 3
 1@0 2@1 4@2 5@3
nowhere
 0@nowhere
";

/// Versions begin anew.
const ANEW: &str = "remove 4 4
show new 1
remove 3 4
show new 2
remove 1 2
show new 3";

const ANEW_TELLS: &str = "ok 1 4 stays
 0 1 2 3
ok 2 3 flips
 0 1 2
ok 3 2 flips
 0
";

/// A range past the end is refused: to cut it is for the caller.
const RANGES: &str = "remove 3 3
remove 2 4
remove 4 4
remove 2 1";

const RANGES_TELL: &str = "ok 4 3 stays
bad index 4 3 stays
bad index 4 3 stays
bad index 4 3 stays
";

/// An empty insertion changes nothing.
const NO_SONGS: &str = "insert 0 0
insert 1 0
insert 2 0
insert 3 0
insert 4 0";

const NO_SONGS_TELL: &str = "ok 4 3 stays
ok 4 3 stays
ok 4 3 stays
ok 4 3 stays
bad index 4 3 stays
";

/// Refusals in their order.
const REFUSALS: &str = "insert 1 4
insert 0 4
insert 0 2
remove 0 2
insert 0 2
insert 0 1
show ids";

const REFUSALS_TELL: &str = "bad index 1 0 stays
full 1 0 stays
ok 2 2 flips
ok 3 0 flips
no more ids 3 0 stays
ok 4 1 flips
 3@0
";

/// Songs are put in the middle.
const MIDDLE: &str = "insert 1 2
show ids
show new 4";

const MIDDLE_TELLS: &str = "ok 5 5 flips
 1@0 4@1 5@2 2@3 3@4
 1 2 3 4
";

/// A swap back is shown.
const SWAPS: &str = "swap 0 1
swap 0 1
swap 0 0
swap 0 5
swap 2 0
show new 3
show new 99
show ids";

const SWAPS_TELL: &str = "ok 4 2 flips
ok 5 2 flips
ok 5 2 stays
bad index 5 2 stays
bad index 5 2 stays
 0 1
 0 1
 1@0 2@1
";

/// A block has 256 slots: both edits go over the border of two.
const BORDER: &str = "insert 0 600
remove 255 257
show new 2
swap 0 597
show new 3
show place 600
show place 256";

/// What the steps over a border tell: the removal changed positions 255 to 597, and the swap two.
const BORDER_TELLS: &str = "ok 2 600 flips
ok 3 598 flips
 343 places from 255 to 597
ok 4 598 flips
 0 597
0
nowhere
";

/// A full queue.
const FULL: &str = "insert 0 16384
show place 16384
show new 1
insert 16384 1
remove 0 16383
show ids
insert 1 16383
show place 32767";

const FULL_TELLS: &str = "ok 2 16384 flips
16383
 16384 places from 0 to 16383
full 2 16384 stays
ok 3 1 flips
 16384@0
ok 4 16384 flips
16383
";

const ROWS: &[Row<'_>] = &[
    (GREATEST, 5, DELETION, DELETION_TELLS),
    ((16_384, 4, 2_147_483_647), 4, ANEW, ANEW_TELLS),
    (
        (16_384, 1, 2_147_483_647),
        2,
        "insert 2 1\nshow new 1",
        "ok 1 3 flips\n 0 1 2\n",
    ),
    (GREATEST, 3, RANGES, RANGES_TELL),
    (GREATEST, 3, NO_SONGS, NO_SONGS_TELL),
    (GREATEST, 3, MIDDLE, MIDDLE_TELLS),
    ((16_384, 99, 2_147_483_647), 2, SWAPS, SWAPS_TELL),
    (GREATEST, 0, FULL, FULL_TELLS),
    ((2, 9, 3), 0, REFUSALS, REFUSALS_TELL),
    (
        (1_000, 2_147_483_647, 2_147_483_647),
        0,
        BORDER,
        BORDER_TELLS,
    ),
];

#[test]
fn each_row_is_observed(rt: HostRuntime) -> Result<(), Fail> {
    edits_follow_past();
    ids_are_distinct();
    ids_never_return();
    parity_tells_changes();
    pasts_keep_queues();
    patches_give_present();
    states_follow_pasts();
    check_rows(rt.alloc(), ROWS)
}

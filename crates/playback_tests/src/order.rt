//! Worked rows of the order of play. The ids that random orders give are those of `rand_pcg` in Rust, seeded
//! with 0.
use crate::course::observed;
use std::test::Fail;
use test_texts::wants;

/// A random order has each song once.
const RANDOM: &str = "add 1
add 1
add 1
add 1
add 1
random
open
peek 4
next 4
peek 2
next 2
peek 1
previous 1
peek 2
next 2
next 1
peek 5
next 5
peek 3
next 3";

const RANDOM_TELLS: &str = "open
4
peek 4
2
next 4
2, current none, single off, consume off, 5 left
peek 2
1
next 2
1, current none, single off, consume off, 5 left
peek 1
5
previous 1
2
peek 2
1
next 2
1, current none, single off, consume off, 5 left
next 1
5, current none, single off, consume off, 5 left
peek 5
3
next 5
3, current none, single off, consume off, 5 left
peek 3
none
next 3
none, current none, single off, consume off, 5 left
";

/// Two songs in random order.
const TWO: &str = "add 1
add 1
random-at 1
peek 1
next 1
peek 2
previous 2
previous 1
delete-current 0 1
peek 2
add 1
prio 1 0
peek 2
next 2
next 3
open";

const TWO_TELL: &str = "peek 1
2
next 1
2, current none, single off, consume off, 2 left
peek 2
none
previous 2
1
previous 1
1
delete-current 0 1
2
peek 2
none
peek 2
3
next 2
3, current none, single off, consume off, 2 left
next 3
none, current none, single off, consume off, 2 left
open
2
";

/// A deletion renews a round.
const RENEWED: &str = "add 2
random
modes 1 1 0 0
start 1
start 2
delete-current 1 2
modes 0 1 0 0
add 1
start 3
delete-current 1 2";

const RENEWED_TELL: &str = "delete-current 1 2
1
delete-current 1 2
none
";

/// The next song in each mode.
const IN_EACH_MODE: &str = "add 2
peek 2
modes 1 0 0 0
peek 2
modes 1 0 1 0
peek 2
modes 1 0 1 1
peek 2
modes 1 0 2 0
peek 2
modes 1 0 0 1
delete 0 1
peek 2
before 2
prio 1 7
in-order
end 2";

const IN_EACH_MODE_TELLS: &str = "peek 2
none
peek 2
1
peek 2
2
peek 2
none
peek 2
none
peek 2
none
before 2
2
prio 1 7
refused
end 2
none, current none, single off, consume on, 0 left
";

/// The greatest priority comes first, and is consumed.
const BY_PRIORITY: &str = "add 3
prio 5 0
prio 9 1
random
modes 0 1 0 1
open
next 2
next 1
next 3
add 16384
add 1
delete 2 1";

const BY_PRIORITY_TELLS: &str = "open
2
next 2
1, current none, single off, consume on, 2 left
next 1
3, current none, single off, consume on, 1 left
next 3
none, current none, single off, consume on, 0 left
add 1
full
delete 2 1
bad index
";

/// `single` and `consume` at an end.
const AT_AN_END: &str = "add 3
modes 1 0 1 0
end 2
modes 1 0 2 0
end 2
modes 1 0 1 2
end 2
modes 0 0 2 0
next 1";

const AT_AN_END_TELLS: &str = "end 2
2, current 2, single on, consume off, 3 left
end 2
none, current 2, single off, consume off, 3 left
end 2
none, current none, single on, consume off, 2 left
next 1
3, current none, single oneshot, consume off, 2 left
";

/// Shuffles of a range.
const SHUFFLES: &str = "add 5
shuffle 5 5
shuffle 3 4
shuffle 2 3
shuffle 5 6
shuffle 1 4
ids";

const SHUFFLES_TELL: &str = "shuffle 5 6
bad index
ids
 1 4 2 3 5
";

/// A copy of a queue.
const COPY: &str = "add 3
prio 5 1
keep
queue 2
add 2
queue 2
back
queue 2
add 1
queue 2
back
queue 2";

const COPY_TELLS: &str = "queue 2
version 3, parity false, changed 1, ids 1 2 3
queue 2
version 4, parity true, changed 1 3 4, ids 1 2 3 4 5
queue 2
version 3, parity false, changed 1, ids 1 2 3
queue 2
version 4, parity true, changed 1 3, ids 1 2 3 4
queue 2
version 4, parity true, changed 1 3 4, ids 1 2 3 4 5
";

/// The order of `RANDOM`, whose second half is asked of an image when its source has lost all songs.
const IMAGE: &str = "add 5
random
open
next 4
next 2
keep
shuffle 0 5
next 1
in-order
delete 0 5
peek 1
back
shuffle 0 5
ids
peek 1
previous 1
next 2
next 1
next 5
next 3";

const IMAGE_TELLS: &str = "open
4
next 4
2, current none, single off, consume off, 5 left
next 2
1, current none, single off, consume off, 5 left
next 1
5, current none, single off, consume off, 5 left
peek 1
none
ids
 2 4 5 1 3
peek 1
5
previous 1
2
next 2
1, current none, single off, consume off, 5 left
next 1
5, current none, single off, consume off, 5 left
next 5
3, current none, single off, consume off, 5 left
next 3
none, current none, single off, consume off, 5 left
";

/// An image of a full round.
const FULL_IMAGE: &str = "add 16384
random
open
next 1149
keep
delete 0 16384
open
back
next 15850
add 1";

const FULL_IMAGE_TELLS: &str = "open
1149
next 1149
15850, current none, single off, consume off, 16384 left
open
none
next 15850
15448, current none, single off, consume off, 16384 left
add 1
full
";

/// So many as the queue takes are tried by the benchmark, since each `next` there goes over them all.
const EACH_OF_A_THOUSAND_ONCE: &str = "add 1000
random
count 1000";

/// Steps, and what they tell.
const ROWS: &[(&str, &str)] = &[
    (RANDOM, RANDOM_TELLS),
    (TWO, TWO_TELL),
    (RENEWED, RENEWED_TELL),
    (IN_EACH_MODE, IN_EACH_MODE_TELLS),
    (BY_PRIORITY, BY_PRIORITY_TELLS),
    (AT_AN_END, AT_AN_END_TELLS),
    (SHUFFLES, SHUFFLES_TELL),
    ("add 5\nshuffle 0 5\nids", "ids\n 4 1 2 3 5\n"),
    (COPY, COPY_TELLS),
    (IMAGE, IMAGE_TELLS),
    (FULL_IMAGE, FULL_IMAGE_TELLS),
    (EACH_OF_A_THOUSAND_ONCE, "count 1000\n1000\n"),
];

#[test]
fn orders_of_play(rt: HostRuntime) -> Result<(), Fail> {
    for (steps, tells) in ROWS.iter() {
        wants(observed(rt.alloc(), steps), tells)?;
    }
    Ok(())
}

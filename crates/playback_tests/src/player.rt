//! Worked rows of the player. The first two words of the generator rise, so the first song comes first in
//! random order.
use crate::seat::observed;
use std::test::Fail;
use test_texts::wants;

const MANY: u32 = 4294967295;

/// A job is accepted once.
const JOBS: &str = "add b
play
want
have 1 1024
have 1 1024
show
seek 0 13024
want
have 1 5
have 2 1025
want 1 0
want 0 1
pause 1
want
show";

const JOBS_TELL: &str = "job 1 1 0 1024
feed 1
stale
play 1 at 1024, 1 starts, 1 cuts, next 0, 1 entries, no error
job 2 1 13024 1024
stale
stale
none
none
none
pause 1 at 13024, 1 starts, 2 cuts, next 0, 1 entries, no error
";

/// `single` repeats, or stops once.
const SINGLE: &str = "add s
add t
repeat 1
single 1
play 0
want
have 1 4
show
want
single 2
have 2 4
show";

const SINGLE_TELLS: &str = "job 1 1 0 4
feed 1
play 1 at 0, 2 starts, 1 cuts, next 1, 2 entries, no error
job 2 1 0 4
feed 1
stop 1 at 4, 2 starts, 1 cuts, next 2, 2 entries, no error
";

/// A failure stops with a text.
const FAILURE: &str = "add a
add b
play 0
previous
show
repeat 1
previous
show
want
failed 1 0
show
clearerror
show";

const FAILURE_TELLS: &str = "play 1 at 0, 2 starts, 2 cuts, next 2, 2 entries, no error
play 2 at 0, 3 starts, 3 cuts, next 1, 2 entries, no error
job 1 2 0 1024
stop 2 at 0, 3 starts, 4 cuts, next 1, 2 entries, Failed to decode b.wav
stop 2 at 0, 3 starts, 4 cuts, next 1, 2 entries, no error
";

/// The greatest number of cuts.
const LIMIT: &str = "add a
play
play 0
stop
show
want
want";

const LIMIT_TELLS: &str = "limit
limit
play 1 at 0, 1 starts, 1 cuts, next 0, 1 entries, no error
job 1 1 0 1024
limit
";

/// Deletions of the current song.
const DELETIONS: &str = "add a
add b
add c
play 1
delete 1 2
show
pause 1
delete 1 2
show
play
toggle
toggle
stop
show
stop
delete 0 1
delete 0 1
show";

const DELETIONS_TELL: &str = "play 3 at 0, 2 starts, 2 cuts, next 0, 2 entries, no error
stop 0 at 0, 2 starts, 3 cuts, next 0, 1 entries, no error
stop 1 at 0, 3 starts, 5 cuts, next 0, 1 entries, no error
bad index
stop 0 at 0, 3 starts, 5 cuts, next 0, 0 entries, no error
";

const FADES: &str = "crossfade 1
add c
add a
play 0
seek 0 15200
want
have 1 800
want
seek 0 23600
want
stop
delete 0 1
add s
play 1
repeat 1
want
have 4 4
want
stop
play 1
want
failed 5 1
failed 6 1
want";

const FADES_TELL: &str = "job 1 1 15200 800
feed 2
job 2 1 16000 1024 fade 2 0 8000
job 3 1 23600 400 fade 2 0 400
job 4 3 0 4 fade 2 0 4
feed 5
job 5 2 4 1024
job 6 3 0 4 fade 2 0 4
job 7 3 0 4
";

/// `consume` once, and in each order.
const ORDERS: &str = "random 1
add a
add b
consume 1
play
next
show
next
show
consume 2
random 0
add s
add t
play 0
want
have 1 4
show
next
show";

const ORDERS_TELL: &str = "play 2 at 0, 2 starts, 2 cuts, next 0, 1 entries, no error
stop 0 at 0, 2 starts, 3 cuts, next 0, 0 entries, no error
job 1 3 0 4
feed 4
play 4 at 0, 4 starts, 4 cuts, next 0, 1 entries, no error
stop 0 at 0, 4 starts, 5 cuts, next 0, 1 entries, no error
";

/// An image of a player that failed stays.
const FAILED_IMAGE: &str = "add a
add b
play 1
want
failed 1 0
show
keep
clearerror
play 0
want
delete 0 2
show
back
show
play 0
want
have 2 1024
show";

const FAILED_IMAGE_TELLS: &str = "job 1 2 0 1024
stop 2 at 0, 1 starts, 2 cuts, next 0, 2 entries, Failed to decode b.wav
job 2 1 0 1024
stop 0 at 0, 2 starts, 4 cuts, next 0, 0 entries, no error
stop 2 at 0, 1 starts, 2 cuts, next 0, 2 entries, Failed to decode b.wav
job 2 1 0 1024
feed 3
play 1 at 1024, 2 starts, 3 cuts, next 2, 2 entries, no error
";

/// An image of a player within a fade stays.
const FADING_IMAGE: &str = "crossfade 1
add c
add a
play 0
seek 0 15200
want
have 1 800
want
keep
stop
have 2 1024
back
have 2 1024
want";

const FADING_IMAGE_TELLS: &str = "job 1 1 15200 800
feed 2
job 2 1 16000 1024 fade 2 0 8000
stale
feed 2
job 3 1 17024 1024 fade 2 1024 8000
";

/// The greatest number of cuts, steps, and what they tell.
const ROWS: &[(u32, &str, &str)] = &[
    (MANY, JOBS, JOBS_TELL),
    (MANY, SINGLE, SINGLE_TELLS),
    (MANY, FAILURE, FAILURE_TELLS),
    (1, LIMIT, LIMIT_TELLS),
    (MANY, DELETIONS, DELETIONS_TELL),
    (MANY, FADES, FADES_TELL),
    (MANY, ORDERS, ORDERS_TELL),
    (MANY, FAILED_IMAGE, FAILED_IMAGE_TELLS),
    (MANY, FADING_IMAGE, FADING_IMAGE_TELLS),
];

#[test]
fn players(rt: HostRuntime) -> Result<(), Fail> {
    for (max_cut, steps, tells) in ROWS.iter() {
        wants(observed(rt.alloc(), *max_cut, steps), tells)?;
    }
    Ok(())
}

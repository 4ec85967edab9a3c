//! Two threads add songs to one queue.
ghost use Rattle.std.specs.Prelude.{◌≡◌, ◌+◌, ◌<◌, IfOk};

use crate::rooms::{alone, seat_of};
use house::{House, Ledgers, Seat};
use partition::PartitionFault;
use std::alloc::Global;
use std::sync::Wait;
use std::thread;
use std::thread::Threads;
use std::time::Clock;
use test_houses::{adds_a_song, comes};
use test_texts::Recorder;

/// A client comes, and adds a song a hundred times.
fn adds<L: Ledgers>(
    rt: &impl Wait,
    alloc: Global,
    house: &House<L>,
    seat: Seat<L>,
    client: u32,
) -> Result<Seat<L>, PartitionFault>
    requires { seat.number < 4 }
    ensures { IfOk result (λ s. (s.number ≡ seat.number) × (s.made ≡ seat.made + 101)) }
{
    let mut seat = seat;
    comes(rt, house, &mut seat, client)?;
    for _i in 0..100u32 {
        adds_a_song(rt, alloc, house, &mut seat, client)?;
    }
    Ok(seat)
}

/// Both clients add their songs, each in a thread of its own.
fn add_at_once<L: Ledgers + Send + Sync, R: Threads + Wait + Sync>(
    rt: &R,
    alloc: Global,
    house: &House<L>,
    one: Seat<L>,
    two: Seat<L>,
) -> (
    Result<Seat<L>, PartitionFault>,
    Result<Seat<L>, PartitionFault>,
)
    requires one { (one.made ≡ 0) × (one.number < 4) }
    requires two { (two.made ≡ 0) × (two.number < 4) }
    ensures { IfOk result.0 (λ s. s.made ≡ 101) × IfOk result.1 (λ s. s.made ≡ 101) }
{
    thread::join(
        rt,
        move || -> Result<Seat<L>, PartitionFault>
            requires { (one.made ≡ 0) × (one.number < 4) }
            ensures { IfOk result (λ s. s.made ≡ 101) }
        { adds(rt, alloc, house, one, 1) },
        move || -> Result<Seat<L>, PartitionFault>
            requires { (two.made ≡ 0) × (two.number < 4) }
            ensures { IfOk result (λ s. s.made ≡ 101) }
        { adds(rt, alloc, house, two, 2) },
    )
}

/// How many events each of the two made.
fn both_add<L: Ledgers + Send + Sync, R: Threads + Wait + Sync>(
    rt: &R,
    alloc: Global,
    house: &House<L>,
) -> Result<(u64, u64), PartitionFault>
    ensures { IfOk result (λ made. (made.0 ≡ 101) × (made.1 ≡ 101)) }
{
    let one = seat_of(rt, house)?;
    let two = seat_of(rt, house)?;
    let (one, two) = add_at_once(rt, alloc, house, one, two);
    Ok((one?.made(), two?.made()))
}

/// Adds the events of two callers' seats, what a third client hears of the status, and whether a fourth seat is
/// given and a fifth.
pub(crate) fn race<L: Ledgers + Send + Sync, R: Threads + Wait + Clock + Sync>(
    rt: &R,
    alloc: Global,
    house: &House<L>,
    recorder: &mut Recorder,
) {
    match both_add(rt, alloc, house) {
        Ok((first, second)) => recorder.add(format_args!("events made: {first} and {second}\n")),
        Err(_) => recorder.fail(),
    }
    alone(rt, alloc, house, "comes 3\n3 status", recorder);
    let fourth = house.seat(rt).is_ok();
    let fifth = house.seat(rt).is_ok();
    recorder.add(format_args!("a fourth seat: {fourth}, a fifth: {fifth}\n"));
}

/// What is observed of them.
pub(crate) const TELLS: &str = "events made: 101 and 101
OK MPD 0.23.0
heard
volume: 100
repeat: 0
random: 0
single: 0
consume: 0
partition: default
playlist: 201
playlistlength: 200
state: stop
OK
a fourth seat: true, a fifth: false
";

//! Two outputs run at once: each one's first asking waits for the other's.
use crate::rooms::{Blind, DaySetup, Host, one_day, shared};
use crate::tunes::{Tone, saw_alone};
use crate::wire::{add_right, wires_of};
use crew_steps::Gate;
use std::alloc::{AllocError, Global};
use std::sync::Arc;
use std::sync::atomic::{AtomicU32, Ordering};
use std::test::Fail;
use std::thread;
use test_texts::wants;

/// Lets an output go on once the other has asked too. An output gives up after a million looks.
#[derive(Drop)]
struct Meeting {
    hall: AtomicU32,
    attic: AtomicU32,
    missed: AtomicU32,
}

impl Gate for Meeting {
    fn ask(&self, output: usize) -> bool {
        let (mine, other) = if output == 0 {
            (&self.hall, &self.attic)
        } else {
            (&self.attic, &self.hall)
        };
        mine.store(1, Ordering::SeqCst);
        for _ in 0..1_000_000u32 {
            if other.load(Ordering::SeqCst) == 1 {
                return true;
            }
            thread::yield_now();
        }
        self.missed.store(1, Ordering::SeqCst);
        true
    }
}

fn observed<R: Host>(rt: R, alloc: Global) -> Result<String, AllocError> {
    let (writers, mut wires) = wires_of(alloc, &[20_000, 20_000])?;
    let meeting = Meeting {
        hall: AtomicU32::new(0),
        attic: AtomicU32::new(0),
        missed: AtomicU32::new(0),
    };
    let gate = shared(alloc, meeting)?;
    let setup = DaySetup {
        tunes: saw_alone(alloc, 3_000)?,
        writers,
        gate: Arc::try_clone(&gate)?,
        scanner: Blind,
    };
    let script = "add a.wav\nplay\n~ hall 3000\n~ attic 3000";
    let mut observed = one_day(rt, alloc, setup, script, &mut wires).observed();
    add_right(&mut wires, &[Tone::Saw, Tone::Saw], &mut observed);
    let has_missed = gate.missed.load(Ordering::SeqCst) != 0;
    observed.add(format_args!("missed: {has_missed}\n"));
    observed.into_text()
}

#[test]
fn outputs_run_at_once(rt: HostRuntime) -> Result<(), Fail> {
    wants(
        observed(rt, rt.alloc()),
        "OK
OK
hall 3000: true
attic 3000: true
files opened: 1
decoded 3000, written 3000, discarded 0, left 0, torn 0
decoded 3000, written 3000, discarded 0, left 0, torn 0
right frames in the hall 3000, in the attic 3000
missed: false
",
    )
}

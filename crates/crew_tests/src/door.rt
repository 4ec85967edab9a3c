//! An output whose writer stands before a door.
use crate::rooms::{Day, Host, Watch, day_through, is_raised, shared};
use crate::tunes::Tune;
use crate::wire::{Wire, Wires, wires_of};
use counted_devices::Counting;
use std::alloc::{AllocError, Global};
use std::io;
use std::io::Write;
use std::sync::Arc;
use std::sync::atomic::{AtomicU32, Ordering};
use std::time::Clock;

/// A door that a writer stands before until the test opens it.
#[derive(Drop)]
struct Door {
    stands: AtomicU32,
    open: AtomicU32,
    gave_up: AtomicU32,
}

/// A wire that may be behind a door: then its writes go on once the door is open, or after so many
/// milliseconds.
#[derive(Drop)]
struct Behind<R: Clock + Drop> {
    rt: R,
    door: Option<Arc<Door, Global>>,
    patience: u32,
    wire: Counting<Wire>,
}

impl<R: Clock + Drop> Write for Behind<R> {
    fn write(&mut self, buf: &[u8]) -> io::Result<usize> {
        if let Some(door) = &self.door {
            door.stands.store(1, Ordering::SeqCst);
            if !is_raised(&self.rt, &door.open, self.patience) {
                door.gave_up.store(1, Ordering::SeqCst);
            }
        }
        self.wire.write(buf)
    }

    fn flush(&mut self) -> io::Result<()> {
        Ok(())
    }
}

/// The test's ends of the wires, and the door.
#[derive(Drop)]
pub(crate) struct Rooms {
    pub(crate) wires: Wires,
    door: Arc<Door, Global>,
}

impl<R: Clock> Watch<R> for Rooms {
    fn does(&mut self, rt: &R, step: &str) -> bool {
        match step {
            "an output stands in its write" => is_raised(rt, &self.door.stands, 10_000),
            "the door opens" => {
                self.door.open.store(1, Ordering::SeqCst);
                self.door.gave_up.load(Ordering::SeqCst) == 0
            }
            _ => self.wires.does(rt, step),
        }
    }
}

/// An output for each value of `behind_door`, which says whether it is behind a door that is closed. The writers there
/// go on after so many milliseconds.
fn writers_of<R: Clock + Copy + Drop>(
    rt: R,
    alloc: Global,
    behind_door: &[bool],
    patience: u32,
) -> Result<(Vec<Counting<Behind<R>>>, Rooms), AllocError> {
    let rooms = [100_000; 6];
    let (wired, wires) = wires_of(alloc, &rooms[..behind_door.len().min(6)])?;
    let door = shared(
        alloc,
        Door {
            stands: AtomicU32::new(0),
            open: AtomicU32::new(0),
            gave_up: AtomicU32::new(0),
        },
    )?;
    let mut writers = Vec::new(alloc);
    for wire in wired {
        let theirs = if behind_door.get(writers.len()) == Some(&true) {
            Some(Arc::try_clone(&door)?)
        } else {
            None
        };
        writers.push(Counting::new(Behind {
            rt,
            door: theirs,
            patience,
            wire,
        }))?;
    }
    Ok((writers, Rooms { wires, door }))
}

/// Songs are played, as a script says, into an output for each value of `behind_door`, which says whether it is behind
/// a door.
pub(crate) fn behind_a_door<R: Host>(
    rt: R,
    alloc: Global,
    tunes: Result<Vec<Tune>, AllocError>,
    behind_door: &[bool],
    patience: u32,
    script: &str,
) -> Result<(Day, Rooms), AllocError> {
    let ends = writers_of(rt, alloc, behind_door, patience);
    day_through(rt, alloc, tunes, ends, script)
}

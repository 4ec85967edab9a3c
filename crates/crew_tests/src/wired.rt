//! Days of songs that are played into two wires.
use crate::rooms::{Day, Host, day_through};
use crate::tunes::{Tone, Tune};
use crate::wire::{Wires, add_right, wires_of};
use std::alloc::{AllocError, Global};

/// Songs are played into two wires, of which that of the hall has room for so many bytes, as a script says.
pub(crate) fn wired_day<R: Host>(
    rt: R,
    alloc: Global,
    tunes: Result<Vec<Tune>, AllocError>,
    room: usize,
    script: &str,
) -> Result<(Day, Wires), AllocError> {
    let ends = wires_of(alloc, &[room, 100_000]);
    day_through(rt, alloc, tunes, ends, script)
}

/// What came of a day, and how many frames that came to each output are those of a formula.
pub(crate) fn observed_with_lines(
    day: Day,
    wires: &mut Wires,
    tone: Tone,
) -> Result<String, AllocError> {
    observed_apart(day, wires, tone, tone)
}

/// The same of one formula in the hall, and of another in the attic.
pub(crate) fn observed_apart(
    day: Day,
    wires: &mut Wires,
    to_hall: Tone,
    to_attic: Tone,
) -> Result<String, AllocError> {
    let mut observed = day.observed();
    add_right(wires, &[to_hall, to_attic], &mut observed);
    observed.into_text()
}

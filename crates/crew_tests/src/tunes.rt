//! Songs whose frames are those of formulas.
use counted_devices::{FailAt, FailurePoint};
use crew_steps::{SongFault, SongSource};
use mpd_text::Song;
use player_state::Library;
use std::alloc::{AllocError, Global};
use std::sync::Arc;
use std::sync::atomic::{AtomicU32, Ordering};
use test_songs::song;

/// The left and the right sample of a frame, by its offset.
#[derive(Clone, Copy)]
pub(crate) enum Tone {
    Saw,
    Steps,
    /// 4,000 frames of the saw alone, 8,000 that fade into the steps, and 2,000 of the steps alone, all at
    /// half the volume.
    Faded,
    /// 12,000 frames of the saw, and then the steps from their first frame.
    SawThenSteps,
    /// 1,024 frames of the saw, and then the steps from their first frame.
    HandThenSteps,
    Ramp,
    /// 1,024 frames of the steps, and then the ramp from its frame 10,240 on.
    StepsThenRamp,
    /// 1,024 frames of the ramp, and then the saw from its frame 10,240 on.
    RampThenSaw,
}

impl Tone {
    pub(crate) fn frame(self, i: i32) -> (i32, i32) {
        match self {
            Tone::Saw => saw(i),
            Tone::Steps => steps(i),
            Tone::Faded => faded(i),
            Tone::SawThenSteps if i < 12_000 => saw(i),
            Tone::HandThenSteps if i < 1_024 => saw(i),
            Tone::SawThenSteps => steps(i.wrapping_sub(12_000)),
            Tone::HandThenSteps => steps(i.wrapping_sub(1_024)),
            Tone::Ramp => ramp(i),
            Tone::StepsThenRamp if i < 1_024 => steps(i),
            Tone::RampThenSaw if i < 1_024 => ramp(i),
            Tone::StepsThenRamp => ramp(i.wrapping_add(9_216)),
            Tone::RampThenSaw => saw(i.wrapping_add(9_216)),
        }
    }
}

fn saw(i: i32) -> (i32, i32) {
    (1_000 + i % 100, 7 - i % 3_000)
}

fn steps(i: i32) -> (i32, i32) {
    (i % 50 - 2_000, 333)
}

fn ramp(i: i32) -> (i32, i32) {
    (i % 30_000, -5)
}

/// A frame of two songs of which the second begins with frame 4,000 of the first: frame k of 8,000 of a fade
/// is (a * (8000 - k) + b * k) / 8000, and half of that is heard, each cut toward zero.
fn faded(i: i32) -> (i32, i32) {
    let k = i.wrapping_sub(4_000);
    let (a, b) = (saw(i), steps(k));
    if k < 0 {
        return (a.0 / 2, a.1 / 2);
    }
    if k >= 8_000 {
        return (b.0 / 2, b.1 / 2);
    }
    (part_of_fade(a.0, b.0, k) / 2, part_of_fade(a.1, b.1, k) / 2)
}

fn part_of_fade(a: i32, b: i32, k: i32) -> i32 {
    let of_a = a.wrapping_mul(8_000i32.wrapping_sub(k));
    of_a.wrapping_add(b.wrapping_mul(k)) / 8_000
}

/// A song: how many frames the library has of it, and its file, which is empty where there is none. For one of a
/// single byte there is no memory.
#[derive(Drop)]
pub(crate) struct Tune {
    uri: &'static str,
    frames: u64,
    file: Vec<u8>,
}

/// A song whose file has so many frames, of which the library knows so many.
pub(crate) fn tune_of(
    alloc: Global,
    uri: &'static str,
    frames: u64,
    in_file: i32,
    tone: Tone,
) -> Result<Tune, AllocError> {
    Ok(Tune {
        uri,
        frames,
        file: wave_file(alloc, in_file, tone)?,
    })
}

/// A song whose file is not there.
pub(crate) fn lost_tune(alloc: Global, uri: &'static str, frames: u64) -> Tune {
    Tune {
        uri,
        frames,
        file: Vec::new(alloc),
    }
}

/// A song whose file is there, but for which there is never memory.
pub(crate) fn scarce_tune(
    alloc: Global,
    uri: &'static str,
    frames: u64,
) -> Result<Tune, AllocError> {
    let mut file = Vec::new(alloc);
    file.push(0)?;
    Ok(Tune { uri, frames, file })
}

/// One song, and a second where one is given.
pub(crate) fn listed(
    alloc: Global,
    first: Tune,
    second: Option<Tune>,
) -> Result<Vec<Tune>, AllocError> {
    let mut tunes = Vec::new(alloc);
    tunes.reserve(2)?;
    tunes.push_reserved(first);
    if let Some(second) = second {
        tunes.push_reserved(second);
    }
    Ok(tunes)
}

/// One song, whose file has so many frames of the saw.
pub(crate) fn saw_alone(alloc: Global, frames: i32) -> Result<Vec<Tune>, AllocError> {
    let long = u64::from(frames.unsigned_abs());
    listed(
        alloc,
        tune_of(alloc, "a.wav", long, frames, Tone::Saw)?,
        None,
    )
}

/// Two songs, of which the first has so many frames of the saw, and the second so many of the steps.
pub(crate) fn saw_and_steps(alloc: Global, saw: i32, steps: i32) -> Result<Vec<Tune>, AllocError> {
    let (long, short) = (saw.unsigned_abs(), steps.unsigned_abs());
    let first = tune_of(alloc, "a.wav", u64::from(long), saw, Tone::Saw)?;
    let second = tune_of(alloc, "b.wav", u64::from(short), steps, Tone::Steps)?;
    listed(alloc, first, Some(second))
}

/// Adds a number of two bytes, the low one first.
fn push_two(bytes: &mut Vec<u8>, number: i32) -> Result<(), AllocError> {
    bytes.extend_from_slice(&[(number & 255) as u8, ((number >> 8) & 255) as u8])
}

/// A WAVE file of 16 bits and two channels at 8,000 frames a second.
fn wave_file(alloc: Global, count: i32, tone: Tone) -> Result<Vec<u8>, AllocError> {
    let mut bytes = Vec::new(alloc);
    bytes.extend_from_slice(b"RIFF\x00\x00\x00\x00WAVEfmt \x10\x00\x00\x00\x01\x00\x02\x00")?;
    bytes.extend_from_slice(b"\x40\x1f\x00\x00\x00\x7d\x00\x00\x04\x00\x10\x00data")?;
    let size = count.wrapping_mul(4);
    push_two(&mut bytes, size & 0xffff)?;
    push_two(&mut bytes, size >> 16)?;
    for i in 0..count {
        let (left, right) = tone.frame(i);
        push_two(&mut bytes, left)?;
        push_two(&mut bytes, right)?;
    }
    Ok(bytes)
}

/// The files of songs, in memory, with how many were opened.
#[derive(Drop)]
pub(crate) struct Files {
    pub(crate) tunes: Vec<Tune>,
    pub(crate) opened: Arc<AtomicU32, Global>,
}

impl SongSource<FailAt> for Files {
    fn open(&mut self, alloc: Global, uri: &str) -> Result<FailAt, SongFault> {
        let Some(tune) = self.tunes.iter().find(|tune| tune.uri == uri) else {
            return Err(SongFault::Unopened);
        };
        if tune.file.is_empty() {
            return Err(SongFault::Unopened);
        }
        if tune.file.len() == 1 {
            return Err(SongFault::NoMemory);
        }
        let mut copy = Vec::new(alloc);
        match copy.extend_from_slice(&tune.file) {
            Ok(()) => {
                self.opened.fetch_add(1, Ordering::SeqCst);
                Ok(FailAt::new(copy, FailurePoint::Never))
            }
            Err(_) => Err(SongFault::NoMemory),
        }
    }
}

/// These songs as a library has them.
fn songs(alloc: Global, tunes: &[Tune]) -> Result<Vec<Song>, AllocError> {
    let mut songs = Vec::new(alloc);
    for tune in tunes {
        songs.push(song(alloc, tune.uri, &[], tune.frames)?)?;
    }
    Ok(songs)
}

/// A library of these songs, at 8,000 frames a second.
pub(crate) fn library(alloc: Global, tunes: &[Tune]) -> Result<Library, AllocError> {
    test_players::library(alloc, songs(alloc, tunes)?)
}

//! What all tests of this crate use.
//!
//! A test gives texts, of which each line is a step, and wants a text for each. So it knows nothing of what it
//! calls, and is cheap to prove. What a test needs and cannot make counts as want of memory.
use mpd_text::{Sequence, Song};
use play_order::{Consume, Single};
use song_db::SharedSong;
use std::alloc::{AllocError, Global};
use std::mem;
use test_songs::song;
use test_texts::Recorder;

/// The song of a letter, without tags: `a`, `b` and `c` are of one, two and three seconds, others of four
/// frames.
fn lettered(alloc: Global, letter: &str) -> Result<Song, AllocError> {
    let frames = match letter {
        "a" => 8000,
        "b" => 16000,
        "c" => 24000,
        _ => 4,
    };
    let uri = format!(in alloc; "{letter}.wav")?;
    song(alloc, uri.as_str(), &[], frames)
}

/// So many times the song of a letter.
pub fn songs(
    alloc: Global,
    letter: &str,
    count: usize,
) -> Result<Sequence<SharedSong>, AllocError> {
    let mut songs = Sequence::new(alloc);
    for _ in 0..count {
        songs.push(SharedSong::new(alloc, lettered(alloc, letter)?)?)?;
    }
    Ok(songs)
}

/// The mode of a number, where 2 is oneshot.
pub fn single_of(number: u32) -> Single {
    match number {
        0 => Single::Off,
        1 => Single::On,
        _ => Single::Oneshot,
    }
}

/// The same of `consume`.
pub fn consume_of(number: u32) -> Consume {
    match number {
        0 => Consume::Off,
        1 => Consume::On,
        _ => Consume::Oneshot,
    }
}

/// What steps lead.
pub trait Led: Sized + Drop {
    /// Its image, and copies of all that it does not hold alone.
    fn image(&self) -> Result<Self, AllocError>;

    /// Takes a step, and adds what it tells.
    fn step(&mut self, observed: &mut Recorder, alloc: Global, line: &str);
}

/// Takes a step, which may be `keep`, that takes an image, or `back`, at which one and its image are swapped.
fn step_of_two<L: Led>(
    observed: &mut Recorder,
    led: &mut L,
    kept: &mut L,
    alloc: Global,
    line: &str,
) {
    match line {
        "keep" => match led.image() {
            Ok(image) => *kept = image,
            Err(_) => observed.fail(),
        },
        "back" => mem::swap(led, kept),
        _ => led.step(observed, alloc, line),
    }
}

/// What the steps tell that lead one of two, which are alike.
pub fn observed_of_two<L: Led>(
    alloc: Global,
    led: L,
    kept: L,
    steps: &str,
) -> Result<String, AllocError> {
    let (mut led, mut kept) = (led, kept);
    let mut observed = Recorder::new(alloc);
    for line in steps.lines() {
        step_of_two(&mut observed, &mut led, &mut kept, alloc, line);
    }
    observed.into_text()
}

//! A disk of so many songs, and a file whose reads fail.
use crate::disk::WAVE;
use crate::helpers::size_of;
use counted_devices::{CallCounts, FailAt, Failing, FailurePoint};
use library_scan::{Content, Disk, Entry, Kind, Unwatched, content_of, scan_disk};
use mpd_text::Text;
use song_db::Rate;
use std::alloc::{AllocError, Global};
use std::test::Fail;
use test_texts::{Recorder, wants};

/// One folder of so many songs, each of one frame.
#[derive(Drop)]
struct Many {
    left: u32,
}

// It never fails.
impl Failing for Many {
    ghost use Rattle.counted_devices.specs.CallCounts.{no_calls};

    ghost call_counts = { λ _. no_calls };

    fn counts(&self) -> CallCounts {
        CallCounts::new()
    }
}

impl Disk for Many {
    ghost use Rattle.std.specs.Prelude.{None, []};

    ghost known_tree = { λ _. None };

    ghost left = { λ _. [] };

    fn open_folder(&mut self, _alloc: Global, _uri: &str) -> Result<bool, AllocError> {
        Ok(true)
    }

    fn next_entry(&mut self, alloc: Global) -> Result<Option<Entry>, AllocError> {
        if self.left == 0 {
            return Ok(None);
        }
        self.left -= 1;
        let number = self.left;
        Ok(Some(Entry::Name(Text::of(format!(in alloc; "{number}.wav")?))))
    }

    fn look(&mut self, _alloc: Global, _uri: &str) -> Result<Kind, AllocError> {
        Ok(Kind::File)
    }

    fn read(
        &mut self,
        alloc: Global,
        _uri: &str,
        _rate: &Rate,
        _everyday: bool,
    ) -> Result<Content, AllocError> {
        Ok(Content::Song(Vec::new(alloc), 1))
    }
}

fn found(alloc: Global, count: u32) -> Result<String, AllocError> {
    let mut disk = Many { left: count };
    size_of(
        alloc,
        &scan_disk(alloc, &mut disk, &Rate::lowest(), false, &mut Unwatched),
    )
}

#[test]
fn the_most_songs(rt: HostRuntime) -> Result<(), Fail> {
    wants(
        found(rt.alloc(), 0),
        "0 songs, the last of 0 bytes, 0 refused",
    )?;
    wants(
        found(rt.alloc(), 100_000),
        "100000 songs, the last of 9 bytes, 0 refused",
    )?;
    wants(found(rt.alloc(), 100_001), "TooMany")
}

/// Adds what is kept of the worked file where a call of its device fails.
fn add_kept(recorder: &mut Recorder, alloc: Global, point: FailurePoint) {
    let Ok(bytes) = Vec::from_slice(alloc, &WAVE) else {
        return recorder.fail();
    };
    match content_of(
        alloc,
        &mut FailAt::new(bytes, point),
        &Rate::lowest(),
        false,
    ) {
        Ok(Content::Song(_, frames)) => recorder.add(format_args!("{frames} frames ")),
        Ok(Content::Refused(refusal)) => recorder.add(format_args!("{refusal:?} ")),
        Ok(Content::Empty) => recorder.add("Empty "),
        Err(_) => recorder.fail(),
    }
}

fn kept(alloc: Global) -> Result<String, AllocError> {
    let mut recorder = Recorder::new(alloc);
    for call in 1..6u64 {
        add_kept(&mut recorder, alloc, FailurePoint::Call(call));
    }
    add_kept(&mut recorder, alloc, FailurePoint::Never);
    recorder.into_text()
}

/// Each of the five calls fails, and then none.
#[test]
fn failing_reads(rt: HostRuntime) -> Result<(), Fail> {
    wants(
        kept(rt.alloc()),
        "ReadFault ReadFault ReadFault ReadFault ReadFault 2 frames ",
    )
}

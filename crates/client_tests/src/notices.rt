//! A client that waits, and the names of what changed.
use idle_notes::{Pending, SUBSYSTEMS, Subsystem, Subsystems};
use mpd_text::Answer;
use std::alloc::{AllocError, Global};
use std::test::Fail;
use test_texts::wants;

/// A call, and what it answers.
#[derive(Clone, Copy)]
enum Step {
    Note(Subsystems),
    Wait(Subsystems, Option<Subsystems>),
    Notice(Option<Subsystems>),
    Cancel,
    IsWaiting(bool),
    NothingChanged,
}

fn holds(pending: &mut Pending, step: &Step) -> bool {
    match step {
        Step::Note(raised) => {
            pending.note(*raised);
            true
        }
        Step::Wait(named, expected) => pending.wait(*named) == *expected,
        Step::Notice(expected) => pending.notice() == *expected,
        Step::Cancel => {
            pending.cancel();
            true
        }
        Step::IsWaiting(expected) => pending.is_waiting() == *expected,
        Step::NothingChanged => pending.changed().is_empty(),
    }
}

/// The index of the first step that answers otherwise.
fn first_wrong(steps: &[Step]) -> Option<usize> {
    let mut pending = Pending::new();
    for (index, step) in steps.iter().enumerate() {
        if !holds(&mut pending, step) {
            return Some(index);
        }
    }
    None
}

fn only(subsystem: Subsystem) -> Subsystems {
    Subsystems::none().with(subsystem)
}

fn changed_lines(alloc: Global) -> Result<String, AllocError> {
    let mut answer = Answer::new(alloc);
    let set = Subsystems::none()
        .with(Subsystem::Mixer)
        .with(Subsystem::Playlist);
    set.push_lines(&mut answer)?;
    Ok(answer.into_string())
}

fn is_read_back(subsystem: Subsystem) -> bool {
    Subsystem::of_word(subsystem.text()) == Some(subsystem) && only(subsystem).has(subsystem)
}

/// A notice clears what it does not name, and names in one order; and each name is read back.
#[test]
fn notices_and_their_names(rt: HostRuntime) -> Result<(), Fail> {
    let queue = only(Subsystem::Playlist);
    let volume = only(Subsystem::Mixer);
    let wrong = first_wrong(&[
        Step::Note(queue),
        Step::Wait(volume, None),
        Step::IsWaiting(true),
        Step::Notice(None),
        Step::Note(volume),
        Step::Notice(Some(volume)),
        Step::NothingChanged,
        Step::Note(queue.union(volume)),
        Step::Wait(Subsystems::all().meet(queue), Some(queue)),
        Step::Wait(Subsystems::all(), None),
        Step::Cancel,
        Step::IsWaiting(false),
    ]);
    assert_eq!(rt; wrong, None);
    for subsystem in SUBSYSTEMS.iter() {
        assert!(rt; is_read_back(*subsystem), "{subsystem:?}");
    }
    assert!(rt; Subsystem::of_word("PLAYER").is_none());
    wants(
        changed_lines(rt.alloc()),
        "changed: playlist\nchanged: mixer\n",
    )
}

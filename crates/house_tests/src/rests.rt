//! Threads at rest: which changes end a rest, and what wakes who rests or waits for a notice.
use crate::notices::meets;
use crate::rooms::seat_of;
use crate::session::{changes, session};
use house::{House, Ledgers, Seat};
use std::alloc::Global;
use std::sync::Wait;
use std::sync::atomic::{AtomicU32, Ordering};
use std::thread;
use std::thread::Threads;
use std::time::{Clock, Duration};
use test_houses::says;
use test_texts::Recorder;

/// Two clients come, of whom the first waits for another volume than the one that is set at once, and the
/// second has two songs played.
const BEGINS: &str = "comes 1
comes 2
1 idle mixer
show notice
2 setvol 39
2 add a.wav
2 add b.wav
2 play
show notice
1 noidle
show notice";

/// What the second client says while a song is played, which ends no rest, or ends one.
const SEEN: &str = "rest setvol 40
rest seekcur 0.5
rest next
rest enableoutput 1
rest disableoutput 0
rest update
rest status
rest pause 1
rest pause 0
rest stop
rest play";

/// What a thread waits for, and the line that brings it; `end` is the end of the daemon.
const WAITS: &str = "a change: enableoutput 1
a scan: update
a change: seekcur 0.25
a notice: setvol 41
a notice: end
a change: end";

/// Says a line, or ends the daemon. Whether that went well.
fn acts<L: Ledgers>(rt: &impl Wait, alloc: Global, house: &House<L>, line: &str) -> bool {
    let mut seat = Seat::of_crew(0);
    if line == "end" {
        house.end(rt, &mut seat).is_ok()
    } else {
        says(rt, alloc, house, &mut seat, 2, line).is_ok()
    }
}

/// What a thread waits for.
#[derive(Clone, Copy)]
enum Waited {
    /// A change of a house that had changed so often.
    Change(u64),
    Notice,
    Scan,
}

/// Waits, and says whether what is waited for is there. It waits longer than a test may last.
fn waits<L: Ledgers, R: Wait + Clock>(
    rt: &R,
    house: &House<L>,
    waited: Waited,
    begun: &AtomicU32,
) -> bool {
    let most = Duration::from_secs(600);
    begun.store(1, Ordering::SeqCst);
    match waited {
        Waited::Change(before) => house.rest(rt, before, most, most) != before,
        Waited::Notice => house.await_notice(rt, most),
        Waited::Scan => house.await_scan(rt, most),
    }
}

/// One thread waits, and another acts a little later. It takes out the notice that waits then, and adds whether
/// what was waited for came and whether there was one.
fn woken<L: Ledgers + Send + Sync, R: Threads + Wait + Clock + Sync>(
    rt: &R,
    alloc: Global,
    house: &House<L>,
    waited: Waited,
    line: &str,
    recorder: &mut Recorder,
) {
    let number = AtomicU32::new(0);
    let begun = &number;
    let (is_there, acted) = thread::join(
        rt,
        move || waits(rt, house, waited, begun),
        move || {
            meets(begun, 1);
            thread::sleep(rt, Duration::from_millis(5));
            acts(rt, alloc, house, line)
        },
    );
    if !acted {
        recorder.fail();
    }
    let waits = house.outbox(rt, 1).is_some();
    recorder.add(format_args!("{line}: {is_there} {waits}\n"));
}

/// Waits for each change, notice or scan in turn. The first client waits for another volume.
fn wakings<L: Ledgers + Send + Sync, R: Threads + Wait + Clock + Sync>(
    rt: &R,
    alloc: Global,
    house: &House<L>,
    seat: &mut Seat<L>,
    recorder: &mut Recorder,
) {
    session(rt, alloc, house, seat, "1 idle mixer", recorder);
    for wait in WAITS.lines() {
        let (what, line) = wait.split_once(": ").unwrap_or((wait, ""));
        let count = changes(rt, house, seat, recorder);
        let waited = match what {
            "a change" => Waited::Change(count),
            "a scan" => Waited::Scan,
            _ => Waited::Notice,
        };
        woken(rt, alloc, house, waited, line, recorder);
    }
}

/// Adds the morning, and then what is waited for or which changes are seen.
pub(crate) fn rests<L: Ledgers + Send + Sync, R: Threads + Wait + Clock + Sync>(
    rt: &R,
    alloc: Global,
    house: &House<L>,
    on_threads: bool,
    recorder: &mut Recorder,
) {
    let Ok(mut seat) = seat_of(rt, house) else {
        recorder.fail();
        return;
    };
    session(rt, alloc, house, &mut seat, BEGINS, recorder);
    if on_threads {
        wakings(rt, alloc, house, &mut seat, recorder);
    } else {
        session(rt, alloc, house, &mut seat, SEEN, recorder);
    }
}

/// What is observed of changes: what is played, the outputs and the end ends a rest, and no other change.
pub(crate) const SEEN_TELLS: &str = "OK MPD 0.23.0
heard
OK MPD 0.23.0
heard
none
OK
OK
OK
OK
a notice
told
none
setvol 40: false
seekcur 0.5: true
next: true
enableoutput 1: true
disableoutput 0: true
update: false
status: false
pause 1: true
pause 0: true
stop: true
play: true
";

/// What is observed of who waits.
pub(crate) const WAITS_TELL: &str = "OK MPD 0.23.0
heard
OK MPD 0.23.0
heard
none
OK
OK
OK
OK
a notice
told
none
enableoutput 1: true false
update: true false
seekcur 0.25: true false
setvol 41: true true
end: false false
end: true false
";

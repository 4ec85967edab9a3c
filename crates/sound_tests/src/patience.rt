//! An output with patience: what is seen of a path that takes nothing, and that the thread which writes to the
//! path goes on whenever bytes come.
use output_watchdog::{Reopening, SharedTally, copy_to_path, path_channel};
use std::alloc::{AllocError, Global};
use std::io::Write;
use std::sync::{Arc, Wait};
use std::test::Fail;
use std::thread::Threads;
use std::time::{Clock, Duration};
use std::{io, thread};
use test_texts::{Recorder, wants};

/// A path that takes all that it is given.
#[derive(Drop)]
struct Open;

impl Write for Open {
    fn write(&mut self, buf: &[u8]) -> io::Result<usize> {
        Ok(buf.len())
    }

    fn flush(&mut self) -> io::Result<()> {
        Ok(())
    }
}

impl Reopening for Open {
    fn let_go(&mut self) {}
}

fn shared_tally_of(alloc: Global) -> Result<Arc<SharedTally, Global>, AllocError> {
    match Arc::new(alloc, SharedTally::new()) {
        Ok(tally) => Ok(tally),
        Err(_) => Err(AllocError),
    }
}

/// Waits ten seconds at most until the path has taken so many bytes. Whether it has.
fn has_taken<R: Wait + Clock>(rt: &R, tally: &SharedTally, count: u64) -> bool {
    for _ in 0..10_000 {
        if tally.progress(rt).taken == count {
            return true;
        }
        thread::sleep(rt, Duration::from_millis(1));
    }
    false
}

/// Adds how many bytes wait, and whether these are too many for an output to go on.
fn add_progress(rt: &impl Wait, tally: &SharedTally, recorder: &mut Recorder) {
    let progress = tally.progress(rt);
    let (waiting, held_up) = (progress.waiting, progress.is_held_up());
    recorder.add(format_args!("{waiting} wait, held up: {held_up}\n"));
}

fn observed<R: Threads + Wait + Clock + Copy + Drop + Send + 'static>(
    rt: R,
    alloc: Global,
) -> Result<String, AllocError> {
    let tally = shared_tally_of(alloc)?;
    let (mut writer, arguments) = path_channel(rt, alloc, &tally)?;
    let mut observed = Recorder::new(alloc);
    // Nobody writes to the path yet.
    let _written = writer.write(&[0; 8_192]);
    add_progress(&rt, &tally, &mut observed);
    let _written = writer.write(&[0; 4]);
    add_progress(&rt, &tally, &mut observed);
    let Ok(path_writer) = thread::spawn(&rt, move || copy_to_path(&rt, arguments, Open)) else {
        return Err(AllocError);
    };
    let at_once = has_taken(&rt, &tally, 8_196);
    observed.add(format_args!("taken: {at_once}\n"));
    // The thread waits for bytes by now.
    thread::sleep(&rt, Duration::from_millis(200));
    let _written = writer.write(&[0; 100]);
    let later = has_taken(&rt, &tally, 8_296);
    observed.add(format_args!("taken later: {later}\n"));
    let left = tally.finish(&rt, Duration::from_millis(10_000));
    observed.add(format_args!("left: {left}\n"));
    let _end = path_writer.join(&rt);
    observed.into_text()
}

const TELLS: &str = "8192 wait, held up: false
8196 wait, held up: true
taken: true
taken later: true
left: 0
";

#[test]
fn paths_are_written_to(rt: HostRuntime) -> Result<(), Fail> {
    wants(observed(rt, rt.alloc()), TELLS)
}

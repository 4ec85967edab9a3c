//! Devices that count how their calls end.
use counted_devices::{CallCounts, Counting, FailAt, Failing, FailurePoint, Media, ReadSeek, Sink};
use std::alloc::{AllocError, Global};
use std::io;
use std::io::{Cursor, ErrorKind, Seek, SeekFrom};

fn counts_of_each() -> CallCounts {
    let mut call_counts = CallCounts::new();
    call_counts.count_call();
    call_counts.count_error(ErrorKind::WouldBlock);
    call_counts.count_error(ErrorKind::Other);
    call_counts.count_failure();
    call_counts
}

#[test]
fn counts_of_answers(rt: HostRuntime) {
    let CallCounts {
        failures,
        blocked,
        calls,
    } = counts_of_each();
    assert!(rt; failures == 2 && blocked == 1 && calls == 4);
}

/// What a device counted, as failures, blocked calls and all calls.
pub fn counts<D: Failing>(device: &D) -> (u64, u64, u64) {
    (device.failures(), device.blocked(), device.calls())
}

/// What the device inside counted.
pub fn inner_counts(device: &Counting<FailAt>) -> (u64, u64, u64) {
    counts(device.inner())
}

/// A device of these bytes, whose calls are counted within and without.
pub fn failing(
    alloc: Global,
    bytes: &[u8],
    point: FailurePoint,
) -> Result<Counting<FailAt>, AllocError> {
    Ok(Counting::new(FailAt::new(Vec::from_slice(alloc, bytes)?, point)))
}

/// The same, but it would block at the point.
fn blocking(
    alloc: Global,
    bytes: &[u8],
    point: FailurePoint,
) -> Result<Counting<FailAt>, AllocError> {
    let bytes = Vec::from_slice(alloc, bytes)?;
    Ok(Counting::new(FailAt::would_block(bytes, point)))
}

/// A call's answer with the error's kind.
fn answer<T>(returned: io::Result<T>) -> Result<T, ErrorKind> {
    match returned {
        Ok(value) => Ok(value),
        Err(error) => Err(error.kind()),
    }
}

/// What a write gives.
pub fn written<W: Sink>(out: &mut W, bytes: &[u8]) -> Result<usize, ErrorKind> {
    answer(out.write_some(bytes))
}

fn flushed<W: Sink>(out: &mut W) -> Result<(), ErrorKind> {
    answer(out.flush_out())
}

/// What a read into this room gives.
pub fn read<M: Media>(media: &mut M, buf: &mut [u8]) -> Result<usize, ErrorKind> {
    answer(media.read_some(buf))
}

fn read_here<M: Media>(media: &mut M, buf: &mut [u8]) -> Result<usize, ErrorKind> {
    answer(media.read_here(buf))
}

fn seek<M: Media>(media: &mut M, offset: u64) -> Result<(), ErrorKind> {
    answer(media.seek_to(offset))
}

/// What a seek to the end gives.
pub fn end<M: Media>(media: &mut M) -> Result<u64, ErrorKind> {
    answer(media.seek_to_end())
}

/// What a read at an offset gives.
pub fn read_at<M: Media>(media: &mut M, offset: u64, buf: &mut [u8]) -> Result<usize, ErrorKind> {
    seek(media, offset)?;
    read_here(media, buf)
}

/// A call of a writer, and its answer.
enum Output {
    Write(&'static str, Result<usize, ErrorKind>),
    Flush(Result<(), ErrorKind>),
    Counts(u64, u64, u64),
}

fn takes<W: Sink>(out: &mut W, step: &Output) -> bool {
    match step {
        Output::Write(text, expected) => written(out, text.as_bytes()) == *expected,
        Output::Flush(expected) => flushed(out) == *expected,
        Output::Counts(failures, blocked, calls) => counts(out) == (*failures, *blocked, *calls),
    }
}

/// The index of the first call that is answered otherwise.
fn first_untaken<W: Sink>(out: &mut W, steps: &[Output]) -> Option<usize> {
    for (index, step) in steps.iter().enumerate() {
        if !takes(out, step) {
            return Some(index);
        }
    }
    None
}

/// A call of a reader, and its answer. The bytes are all those of the room, which a read finds with zeros.
enum Input {
    Read(usize, &'static str),
    ReadFails(ErrorKind),
    ReadHere(usize, &'static str),
    Seek(u64, Result<(), ErrorKind>),
    End(Result<u64, ErrorKind>),
    Counts(u64, u64, u64),
}

/// Whether a read gave so many bytes, and the room is this now.
fn is_filled(read: Result<usize, ErrorKind>, count: usize, room: &[u8], text: &str) -> bool {
    read == Ok(count) && room == text.as_bytes()
}

fn gives<M: Media>(media: &mut M, room: &mut [u8], step: &Input) -> bool {
    room.fill(0);
    match step {
        Input::Read(count, text) => is_filled(read(media, room), *count, room, text),
        Input::ReadFails(kind) => read(media, room) == Err(*kind),
        Input::ReadHere(count, text) => is_filled(read_here(media, room), *count, room, text),
        Input::Seek(offset, expected) => seek(media, *offset) == *expected,
        Input::End(expected) => end(media) == *expected,
        Input::Counts(failures, blocked, calls) => counts(media) == (*failures, *blocked, *calls),
    }
}

/// The index of the first call that is answered otherwise.
fn first_ungiven<M: Media>(media: &mut M, room: &mut [u8], steps: &[Input]) -> Option<usize> {
    for (index, step) in steps.iter().enumerate() {
        if !gives(media, room, step) {
            return Some(index);
        }
    }
    None
}

fn follow_failing_reader(alloc: Global) -> Result<Option<usize>, AllocError> {
    let mut reader = failing(alloc, b"abcdef", FailurePoint::Call(2))?;
    Ok(first_ungiven(
        &mut reader,
        &mut [0; 4],
        &[
            Input::Read(4, "abcd"),
            Input::Counts(0, 0, 1),
            Input::ReadFails(ErrorKind::Other),
            Input::Counts(1, 0, 2),
            Input::Read(2, "ef\0\0"),
        ],
    ))
}

/// The same of a reader that would block, and what the device inside counted.
fn follow_blocking_reader(alloc: Global) -> Result<(Option<usize>, (u64, u64, u64)), AllocError> {
    let mut reader = blocking(alloc, b"abcdef", FailurePoint::Byte(3))?;
    let wrong = first_ungiven(
        &mut reader,
        &mut [0; 4],
        &[
            Input::Read(3, "abc\0"),
            Input::ReadFails(ErrorKind::WouldBlock),
            Input::Counts(0, 1, 2),
        ],
    );
    Ok((wrong, inner_counts(&reader)))
}

/// Follows a writer that fails, and says whether it holds the bytes.
fn follow_failing_writer(alloc: Global) -> Result<(Option<usize>, bool), AllocError> {
    let mut writer = failing(alloc, b"", FailurePoint::Byte(3))?;
    let wrong = first_untaken(
        &mut writer,
        &[
            Output::Write("ab", Ok(2)),
            Output::Flush(Ok(())),
            Output::Write("cd", Ok(1)),
            Output::Write("d", Err(ErrorKind::Other)),
            Output::Counts(1, 0, 4),
        ],
    );
    Ok((wrong, writer.into_inner().bytes() == b"abc".as_slice()))
}

fn follow_full_writer() -> Option<usize> {
    let mut room = [0; 2];
    let mut full = Counting::new(Cursor::new(&mut room[..]));
    first_untaken(
        &mut full,
        &[
            Output::Write("abc", Ok(2)),
            Output::Write("c", Ok(0)),
            Output::Write("", Ok(0)),
            Output::Counts(1, 0, 3),
        ],
    )
}

/// Follows a writer that would block at its first call, and says what the device inside counted.
fn follow_blocking_writer(alloc: Global) -> Result<(Option<usize>, (u64, u64, u64)), AllocError> {
    let mut writer = blocking(alloc, b"", FailurePoint::Call(1))?;
    let wrong = first_untaken(
        &mut writer,
        &[
            Output::Flush(Err(ErrorKind::WouldBlock)),
            Output::Write("ab", Ok(2)),
            Output::Counts(0, 1, 2),
        ],
    );
    Ok((wrong, inner_counts(&writer)))
}

#[test]
fn a_counted_writer(rt: HostRuntime) {
    assert!(rt; follow_failing_writer(rt.alloc()) == Ok((None, true)));
    assert!(rt; follow_full_writer().is_none());
    assert!(rt; follow_blocking_writer(rt.alloc()) == Ok((None, (0, 1, 2))));
}

fn follow_failing_media(alloc: Global) -> Result<Option<usize>, AllocError> {
    let bytes = Vec::from_slice(alloc, b"abcdef")?;
    let mut media = FailAt::new(bytes, FailurePoint::Call(4));
    Ok(first_ungiven(
        &mut media,
        &mut [0; 2],
        &[
            Input::End(Ok(6)),
            Input::Seek(3, Ok(())),
            Input::ReadHere(2, "de"),
            Input::Seek(0, Err(ErrorKind::Other)),
            Input::Counts(1, 0, 4),
            Input::ReadHere(1, "f\0"),
            Input::Seek(7, Ok(())),
            Input::ReadHere(0, "\0\0"),
            Input::Counts(1, 0, 7),
        ],
    ))
}

fn follow_counted_bytes() -> Option<usize> {
    let mut file = Counting::new(Cursor::new(*b"abcdef"));
    first_ungiven(
        &mut file,
        &mut [0; 2],
        &[
            Input::End(Ok(6)),
            Input::Seek(4, Ok(())),
            Input::ReadHere(2, "ef"),
            Input::Counts(0, 0, 3),
        ],
    )
}

/// Readers that fail and that would block, and seeks.
#[test]
fn counted_readers(rt: HostRuntime) {
    assert!(rt; follow_failing_reader(rt.alloc()) == Ok(None));
    assert!(rt; follow_blocking_reader(rt.alloc()) == Ok((None, (0, 1, 2))));
    assert!(rt; follow_failing_media(rt.alloc()) == Ok(None));
    assert!(rt; follow_counted_bytes().is_none());
}

/// Whether a device that does not count its calls has so many bytes.
fn has_length<R: ReadSeek>(reader: &mut R, length: u64) -> bool {
    answer(reader.move_to_end()) == Ok(length)
}

fn found<R: ReadSeek>(reader: &mut R, offset: u64, room: &mut [u8]) -> Result<usize, ErrorKind> {
    answer(reader.move_to(offset))?;
    answer(reader.read_on(room))
}

/// Whether a read into a room of two zeros at an offset gives so many bytes, and the room is this then.
fn has_at<R: ReadSeek>(reader: &mut R, offset: u64, count: usize, text: &str) -> bool {
    let mut room = [0; 2];
    let read = found(reader, offset, &mut room);
    is_filled(read, count, &room, text)
}

fn cursor_moves() -> bool {
    let mut cursor = Cursor::new(*b"abcdef");
    has_length(&mut cursor, 6) && has_at(&mut cursor, 1, 2, "bc")
}

fn fails_to_move(device: &mut FailAt, offset: u64) -> bool {
    device.move_to(offset).is_err()
}

fn sought(device: &mut FailAt, to: SeekFrom) -> Result<u64, ErrorKind> {
    answer(device.seek(to))
}

fn device_moves(alloc: Global) -> Result<bool, AllocError> {
    let bytes = Vec::from_slice(alloc, b"abcdef")?;
    let mut device = FailAt::new(bytes, FailurePoint::Call(4));
    Ok(
        has_length(&mut device, 6)
            && has_at(&mut device, 5, 1, "f\0")
            && fails_to_move(&mut device, 0)
            && sought(&mut device, SeekFrom::End(-2)) == Ok(4)
            && sought(&mut device, SeekFrom::Current(-5)) == Err(ErrorKind::InvalidInput),
    )
}

#[test]
fn devices_that_do_not_count(rt: HostRuntime) {
    assert!(rt; cursor_moves());
    assert!(rt; device_moves(rt.alloc()) == Ok(true));
}

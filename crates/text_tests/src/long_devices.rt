//! Devices of 40,000 bytes: more than a device hands on in one piece of 32 KiB.
ghost use Rattle.std.specs.Prelude.{◌≡◌, length, IfOk};

use crate::devices::{counts, end, failing, inner_counts, read, read_at, written};
use counted_devices::{Counting, FailAt, FailurePoint, Media};
use std::alloc::{AllocError, Global};
use std::io::{Cursor, ErrorKind};
use std::test::Fail;
use test_texts::wants;

/// 40,000 bytes, each known by its offset.
fn pattern(alloc: Global) -> Result<Vec<u8>, AllocError> {
    let mut bytes = Vec::new(alloc);
    for offset in 0..40_000u32 {
        bytes.push((offset % 251) as u8)?;
    }
    Ok(bytes)
}

// The size is that of the bytes: what the device inside knows is known of the device that counts.
fn size_of(bytes: Vec<u8>) -> Result<u64, std::io::Error>
    ensures { IfOk result (λ n. n ≡ length bytes.items) }
{
    let mut media = Counting::new(FailAt::new(bytes, FailurePoint::Never));
    media.seek_to_end()
}

fn size_of_cursor(bytes: Vec<u8>) -> Result<u64, std::io::Error>
    ensures { IfOk result (λ n. n ≡ length bytes.items) }
{
    let mut media = Counting::new(Cursor::new(bytes));
    media.seek_to_end()
}

fn sizes(alloc: Global) -> Result<String, std::io::Error> {
    let of_device = size_of(pattern(alloc)?)?;
    let of_cursor = size_of_cursor(pattern(alloc)?)?;
    Ok(format!(in alloc; "{of_device} {of_cursor}")?)
}

/// Whether these bytes stand there twice, with nothing else.
fn is_twice(twice: &[u8], bytes: &[u8]) -> bool {
    twice.len() == 80_000 && twice.starts_with(bytes) && twice.ends_with(bytes)
}

/// Writes to a device that holds nothing, and, the second time, more than 32 KiB.
fn two_long_writes(alloc: Global, bytes: &[u8]) -> Result<bool, AllocError> {
    let mut writer = failing(alloc, b"", FailurePoint::Never)?;
    Ok(
        written(&mut writer, bytes) == Ok(40_000)
            && written(&mut writer, bytes) == Ok(40_000)
            && inner_counts(&writer) == (0, 0, 2)
            && is_twice(writer.into_inner().bytes(), bytes),
    )
}

/// Whether all bytes but the last are held.
fn holds_all_but_one(held: &[u8], bytes: &[u8]) -> bool {
    held.len() == 39_999 && bytes.starts_with(held)
}

fn cut_write(alloc: Global, bytes: &[u8]) -> Result<bool, AllocError> {
    let mut writer = failing(alloc, b"", FailurePoint::Byte(39_999))?;
    Ok(
        written(&mut writer, bytes) == Ok(39_999)
            && written(&mut writer, bytes) == Err(ErrorKind::Other)
            && counts(&writer) == (1, 0, 2)
            && holds_all_but_one(writer.inner().bytes(), bytes),
    )
}

/// Reads all bytes twice into this room.
fn two_long_reads(alloc: Global, bytes: &[u8], room: &mut [u8]) -> Result<bool, AllocError> {
    let mut media = failing(alloc, bytes, FailurePoint::Never)?;
    Ok(
        read(&mut media, room) == Ok(40_000)
            && *room == *bytes
            && read_at(&mut media, 0, room) == Ok(40_000)
            && inner_counts(&media) == (0, 0, 3),
    )
}

/// How many bytes a read of one byte gives at an offset, and which.
fn byte_of(media: &mut Counting<FailAt>, offset: u64) -> Result<(usize, u8), ErrorKind> {
    let mut room = [0; 1];
    let count = read_at(media, offset, &mut room)?;
    Ok((count, room[0]))
}

/// Byte i is i modulo 251: 39,998 is 159 * 251 + 89.
fn last_bytes(alloc: Global, bytes: &[u8]) -> Result<bool, AllocError> {
    let mut media = failing(alloc, bytes, FailurePoint::Never)?;
    Ok(
        byte_of(&mut media, 39_998) == Ok((1, 89))
            && byte_of(&mut media, 39_999) == Ok((1, 90))
            && byte_of(&mut media, 40_000) == Ok((0, 0))
            && end(&mut media) == Ok(40_000)
            && inner_counts(&media) == (0, 0, 7),
    )
}

fn long_read(alloc: Global, bytes: &[u8]) -> Result<bool, AllocError> {
    let mut room = vec![in alloc; 0; 40_000]?;
    two_long_reads(alloc, bytes, room.as_mut_slice())
}

/// Whether a long write is handed on whole; a write fails at its byte; a long read is handed on whole; and a seek
/// is, to its offset.
fn long_calls(alloc: Global) -> Result<String, AllocError> {
    let bytes = pattern(alloc)?;
    let bytes = bytes.as_slice();
    let written = two_long_writes(alloc, bytes)?;
    let is_cut = cut_write(alloc, bytes)?;
    let read = long_read(alloc, bytes)?;
    let sought = last_bytes(alloc, bytes)?;
    format!(in alloc; "{written} {is_cut} {read} {sought}")
}

#[test]
fn a_long_device_is_handed_on_whole(rt: HostRuntime) -> Result<(), Fail> {
    wants(sizes(rt.alloc()), "40000 40000")?;
    wants(long_calls(rt.alloc()), "true true true true")
}

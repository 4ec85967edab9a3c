//! Chunks, and where they lie.
ghost use Rattle.std.specs.Prelude.{◌≡◌, ◌==◌, ℕ, ◌+◌, ◌≤◌, ◌<◌, List, length, IfSome, IfOk, OnErr};
ghost use Rattle.counted_devices.specs.CallCounts.{NoFewer};
ghost use Rattle.wave.specs.Chunks.{Chunk, AreChunks, chunks};
ghost use Rattle.wave.specs.Devices.{Ends, KeepsTo};
ghost use Rattle.wave.specs.Parts.{IsHeader, IsChunkOfHeader, StartsWith};

use crate::device::read_at;
use crate::fault::Unread;
use counted_devices::Media;

/// The name and size before a content.
#[derive(Clone, Copy)]
pub(crate) struct Header {
    pub(crate) name: [u8; 4],
    pub(crate) size: u32,
}

/// A chunk, and where it lies in the bytes of its file.
#[derive(Clone, Copy)]
pub(crate) struct FoundChunk {
    pub(crate) name: [u8; 4],
    /// The size of its content as it is written.
    pub(crate) size: u32,
    /// Where its content begins.
    pub(crate) offset: u64,
    /// How many bytes of the content are there.
    pub(crate) len: u64,
    /// Where the next chunk begins.
    pub(crate) next: u64,
}

impl FoundChunk {
    /// Whether nothing of its content is cut off.
    pub(crate) fn is_whole(self) -> bool
        ensures { result ≡ (self.len == self.size) }
    {
        self.len == u64::from(self.size)
    }
}

fn header_of(bytes: &[u8]) -> Option<Header>
    requires { length bytes.now ≤ 8 }
    ensures { IsHeader bytes.now result }
{
    match bytes {
        [a, b, c, d, e, f, g, h] => Some(Header {
            name: [*a, *b, *c, *d],
            size: u32::from(*e)
                + 256 * (u32::from(*f) + 256 * (u32::from(*g) + 256 * u32::from(*h))),
        }),
        _ => None,
    }
}

/// The chunk that begins at an offset, of bytes that go up to an end.
fn part_of(header: Header, at: u64, end: u64) -> FoundChunk
    requires { at + 8 ≤ end }
    ensures starts { IsChunkOfHeader header at end result }
    ensures within { result.offset + result.len ≤ end }
    ensures onward { at < result.next }
{
    let Header { name, size } = header;
    let offset = at + 8;
    let long = u64::from(size);
    FoundChunk {
        name,
        size,
        offset,
        len: long.min(end - offset),
        next: offset.saturating_add(long + long % 2),
    }
}

/// The first of the chunks from an offset up to an end.
pub(crate) fn chunk_at<M: Media>(
    media: &mut M,
    limit: u64,
    at: u64,
    end: u64,
) -> Result<Option<FoundChunk>, Unread>
    requires { IfSome (M.all_bytes media.old) (λ bytes. end ≤ length bytes) }
    ensures value { IfSome (M.all_bytes media.old) (λ bytes. IfOk result (StartsWith bytes at end)) }
    ensures within { IfOk result (λ found. IfSome found (λ part. part.offset + part.len ≤ end)) }
    ensures onward { IfOk result (λ found. IfSome found (λ part. (at < part.next) × (at < end))) }
    ensures stays { M.all_bytes media.new ≡ M.all_bytes media.old }
    ensures ends { OnErr result (Ends limit (M.call_counts media.old) (M.call_counts media.new)) }
    ensures keeps { KeepsTo limit (M.call_counts media.old) (M.call_counts media.new) }
    ensures calm { NoFewer (M.call_counts media.old) (M.call_counts media.new) }
{
    if end.saturating_sub(at) < 8 {
        return Ok(None);
    }
    let mut bytes = [0u8; 8];
    let n = read_at(media, limit, at, &mut bytes)?;
    match header_of(&bytes[..n]) {
        Some(header) => Ok(Some(part_of(header, at, end))),
        None => Ok(None),
    }
}

/// The chunks that files are read by are those that their bytes are made of, and no others.
pub fn chunks_are_those_of_the_bytes()
    ensures are { (bytes : List ℕ) → AreChunks bytes (chunks bytes) }
    ensures only { (bytes : List ℕ) (parts : List Chunk) → AreChunks bytes parts → parts ≡ chunks bytes }
{}

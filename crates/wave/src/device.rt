//! Reads of a device at an offset, with an end to how often it is called.
ghost use Rattle.std.specs.Prelude.{◌≡◌, ◌+◌, ◌-◌, ◌^◌, ◌≤◌, ◌<◌, length, min, take, IfSome, IfOk, OnOk, OnErr};
ghost use Rattle.std.specs.Io.KnownBytes.{Consumes, IsAtEnd};
ghost use Rattle.counted_devices.specs.CallCounts.{NoFewer};
ghost use Rattle.wave.specs.Devices.{RemainsAt, FillsFrom, Ends, KeepsTo};

use crate::fault::Unread;
use counted_devices::Media;

/// The most reads and seeks of one call.
pub const MAX_CALLS: u64 = 1 << 32;

/// The device's count of calls at which a call that begins now gives up.
pub(crate) fn last_call<M: Media>(media: &M) -> u64
    ensures limit { result ≡ min ((M.call_counts media.now).calls + 2 ^ 32) (2 ^ 64 - 1) }
    ensures room { (M.call_counts media.now).calls ≤ result }
{
    media.calls().saturating_add(MAX_CALLS)
}

/// How many bytes the device has.
pub(crate) fn size<M: Media>(media: &mut M, limit: u64) -> Result<u64, Unread>
    ensures value { IfSome (M.all_bytes media.old) (λ bytes. IfOk result (λ n. n ≡ length bytes)) }
    ensures stays { M.all_bytes media.new ≡ M.all_bytes media.old }
    ensures ends { OnErr result (Ends limit (M.call_counts media.old) (M.call_counts media.new)) }
    ensures keeps { KeepsTo limit (M.call_counts media.old) (M.call_counts media.new) }
    ensures calm { NoFewer (M.call_counts media.old) (M.call_counts media.new) }
{
    if media.calls() >= limit {
        return Err(Unread);
    }
    match media.seek_to_end() {
        Ok(size) => Ok(size),
        Err(_) => Err(Unread),
    }
}

/// Reads the bytes from an offset on, until the buffer is full or they end.
pub(crate) fn read_at<M: Media>(
    media: &mut M,
    limit: u64,
    at: u64,
    buf: &mut [u8],
) -> Result<usize, Unread>
    ensures bound { IfOk result (λ n. n ≤ length buf.new) }
    ensures value { IfSome (M.all_bytes media.old) (λ bytes. IfOk result (λ n. FillsFrom bytes at n buf.new)) }
    ensures stays { M.all_bytes media.new ≡ M.all_bytes media.old }
    ensures ends { OnErr result (Ends limit (M.call_counts media.old) (M.call_counts media.new)) }
    ensures keeps { KeepsTo limit (M.call_counts media.old) (M.call_counts media.new) }
    ensures calm { NoFewer (M.call_counts media.old) (M.call_counts media.new) }
{
    seek(media, limit, at)?;
    fill(media, limit, buf)
}

fn seek<M: Media>(media: &mut M, limit: u64, at: u64) -> Result<(), Unread>
    ensures value { IfSome (M.all_bytes media.old) (λ bytes. OnOk result (RemainsAt at bytes (M.remaining media.new))) }
    ensures stays { M.all_bytes media.new ≡ M.all_bytes media.old }
    ensures ends { OnErr result (Ends limit (M.call_counts media.old) (M.call_counts media.new)) }
    ensures keeps { KeepsTo limit (M.call_counts media.old) (M.call_counts media.new) }
    ensures calm { NoFewer (M.call_counts media.old) (M.call_counts media.new) }
{
    if media.calls() >= limit {
        return Err(Unread);
    }
    match media.seek_to(at) {
        Ok(()) => Ok(()),
        Err(_) => Err(Unread),
    }
}

/// Reads from the device's offset on, until the buffer is full or its bytes end.
fn fill<M: Media>(media: &mut M, limit: u64, buf: &mut [u8]) -> Result<usize, Unread>
    ensures bound { IfOk result (λ n. n ≤ length buf.new) }
    ensures bytes { IfOk result (λ n. Consumes (M.remaining media.old) (M.remaining media.new) (take n buf.new)) }
    ensures whole { IfOk result (λ n. n < length buf.new → IsAtEnd (M.remaining media.new)) }
    ensures stays { M.all_bytes media.new ≡ M.all_bytes media.old }
    ensures ends { OnErr result (Ends limit (M.call_counts media.old) (M.call_counts media.new)) }
    ensures keeps { KeepsTo limit (M.call_counts media.old) (M.call_counts media.new) }
    ensures calm { NoFewer (M.call_counts media.old) (M.call_counts media.new) }
{
    let mut got = 0;
    while got < buf.len() {
        if media.calls() >= limit {
            return Err(Unread);
        }
        match media.read_here(&mut buf[got..]) {
            Ok(0) => return Ok(got),
            Ok(n) => got += n,
            Err(_) => return Err(Unread),
        }
    }
    Ok(got)
}

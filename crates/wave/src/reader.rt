//! Frames of a file.
ghost use Rattle.std.specs.Prelude.{◌≡◌, ◌⊎◌, ◌≤◌, ◌<◌, ◌+◌, ◌*◌, ◌^◌, length, vec_len, IfOk, IfErr};
ghost use Rattle.counted_devices.specs.CallCounts.{NoFewer};
ghost use Rattle.wave.specs.Devices.{ReadFaultHasCause};
ghost use Rattle.wave.specs.Formats.{frames_of};
ghost use Rattle.wave.specs.Meanings.{GivesFrames};

use crate::device::{last_call, read_at};
use crate::fault::WaveFault;
use crate::format::Layout;
use crate::head::Head;
use counted_devices::Media;
use pcm_mix::{Frame, from_bytes};
use std::alloc::{AllocError, Global};

/// A file and its head.
#[derive(Drop)]
pub struct Reader<R> {
    media: R,
    head: Head,
    /// The bytes that were read last: their room serves for the next.
    bytes: Option<Vec<u8>>,
}

impl<R> Reader<R> {
    /// A reader of this file, whose head this is.
    pub fn new(media: R, head: Head) -> Reader<R>
        ensures media { result.media ≡ media }
        ensures head { result.head ≡ head }
    {
        Reader {
            media,
            head,
            bytes: None,
        }
    }

    /// The file's head.
    pub fn head(&self) -> &Head
        ensures { result.now ≡ self.now.head }
    {
        &self.head
    }

    /// The file.
    pub fn media(&self) -> &R
        ensures { result.now ≡ self.now.media }
    {
        &self.media
    }
}

impl<R: Media> Reader<R> {
    /// The frames from a frame on, counted from 0: n of them, or fewer where the file has no more.
    pub fn frames_at(&mut self, alloc: Global, from: u64, n: usize) -> Result<Vec<Frame>, WaveFault>
        // They are the frames that the bytes hold where the head says.
        ensures value { GivesFrames (R.all_bytes self.old.media) self.old.head from n result }
        ensures count { IfOk result (λ frames. length frames.items ≤ n) }
        ensures fault { IfErr result (λ fault. (fault ≡ WaveFault.ReadFault) ⊎ (fault ≡ WaveFault.NoMemory)) }
        // A fault of the device comes only where it failed, or was called too often, or its count is at its
        // greatest value.
        ensures read_fault { ReadFaultHasCause (R.call_counts self.old.media) (R.call_counts self.new.media) result }
        ensures few_calls { (R.call_counts self.new.media).calls ≤ (R.call_counts self.old.media).calls + 2 ^ 32 }
        ensures head { self.new.head ≡ self.old.head }
        ensures stays { R.all_bytes self.new.media ≡ R.all_bytes self.old.media }
        ensures calm { NoFewer (R.call_counts self.old.media) (R.call_counts self.new.media) }
    {
        let limit = last_call(&self.media);
        let Layout { depth, channels } = self.head.layout;
        let block = depth.width() * channels.count();
        let first = from.min(self.head.frames);
        let frame_count = (n as u64).min(self.head.frames - first);
        let mut bytes = sized(alloc, self.bytes.take(), frame_count as usize * block)?;
        let offset = self.head.offset + first * block as u64;
        let got = read_at(&mut self.media, limit, offset, &mut bytes)?;
        let frames = decoded(alloc, &bytes.as_slice()[..got], self.head.layout);
        self.bytes = Some(bytes);
        frames
    }
}

/// So many bytes, in room that is kept if there is some.
fn sized(alloc: Global, kept: Option<Vec<u8>>, len: usize) -> Result<Vec<u8>, AllocError>
    ensures len { IfOk result (λ bytes. vec_len bytes ≡ len) }
{
    let mut bytes = match kept {
        Some(bytes) => bytes,
        None => Vec::new(alloc),
    };
    bytes.resize(len, 0)?;
    Ok(bytes)
}

/// The whole frames of bytes.
fn decoded(alloc: Global, samples: &[u8], layout: Layout) -> Result<Vec<Frame>, WaveFault>
    ensures value { IfOk result (λ frames. frames.items ≡ frames_of layout samples.now) }
    ensures fault { IfErr result (λ fault. fault ≡ WaveFault.NoMemory) }
{
    let block = layout.block();
    let mut frames = vec![in alloc; [0i16; 2]; samples.len() / block]?;
    from_bytes(samples, layout.depth, layout.channels, &mut frames);
    Ok(frames)
}

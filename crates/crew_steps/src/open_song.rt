//! A song that is open.
ghost use Rattle.crew_steps.specs.Sounds.{StandFrom};

use counted_devices::Media;
use pcm_mix::Frame;
use std::alloc::Global;
use wave::{Head, Reader, WaveFault};

/// How many frames are read of a file at a time: 32 KiB of 16-bit stereo.
pub(crate) const WIDTH: usize = 8_192;

/// A song that is open, and frames of it that were read together.
#[derive(Drop)]
pub(crate) struct OpenSong<M: Media + Drop> {
    /// The partition in whose queue it is.
    index: u8,
    id: u32,
    reader: Reader<M>,
    first: u64,
    frames: Vec<Frame>,
    ghost stands: { StandFrom (M.all_bytes reader.media) reader.head first frames.items },
}

impl<M: Media + Drop> OpenSong<M> {
    ghost use Rattle.std.specs.Prelude.{◌≡◌, ◌≤◌, ◌&&◌, ◌==◌, vec_len, IfOk, IfErr, OnOk};
    ghost use Rattle.wave.specs.Devices.{ReadFaultHasCause};
    ghost use Rattle.wave.specs.declared.fault.WaveFault.{WaveFault};
    ghost use Rattle.crew_steps.specs.Sounds.{holds_all};
    ghost use Rattle.crew_steps.specs.OpenSongs.{AreFramesOf, AreFrom, HoldsOf, IsOfCalls, calls_of, opened};

    /// The song of this id in the queue of a partition, in a file whose head this is.
    pub(crate) fn new(alloc: Global, index: u8, id: u32, file: M, head: Head) -> OpenSong<M>
        ensures { opened result ≡ record { index = index; id = id; known = M.all_bytes file; head = head } }
    {
        OpenSong {
            index,
            id,
            reader: Reader::new(file, head),
            first: 0,
            frames: Vec::new(alloc),
        }
    }

    /// Whether it has this id in the queue of a partition.
    pub(crate) fn is(&self, index: u8, id: u32) -> bool
        ensures { result ≡ (((opened self.now).index == index) && ((opened self.now).id == id)) }
    {
        self.index == index && self.id == id
    }

    /// The frames from an offset on, as many as are asked for, or fewer where the song has no more.
    pub(crate) fn frames_at(
        &mut self,
        alloc: Global,
        from: u64,
        count: usize,
    ) -> Result<Vec<Frame>, WaveFault>
        ensures value { count ≤ WIDTH → IfOk result (AreFramesOf self.old from count) }
        ensures count { IfOk result (λ frames. vec_len frames ≤ count) }
        ensures fault { IfErr result IsOfCalls }
        ensures cause { ReadFaultHasCause (calls_of self.old) (calls_of self.new) result }
        ensures song { opened self.new ≡ opened self.old }
    {
        self.fetch(alloc, from, count)?;
        self.held(alloc, from, count)
    }

    /// Reads these frames, together with those after them, unless they were read already.
    #[tactic(auto, using(crate::proofs::Spans::held_already))]
    fn fetch(&mut self, alloc: Global, from: u64, count: usize) -> Result<(), WaveFault>
        ensures held { count ≤ WIDTH → OnOk result (HoldsOf self.old self.new from count) }
        ensures fault { IfErr result IsOfCalls }
        ensures cause { ReadFaultHasCause (calls_of self.old) (calls_of self.new) result }
        ensures song { opened self.new ≡ opened self.old }
    {
        if self.has(from, count) {
            return Ok(());
        }
        self.frames = self.read(alloc, from)?;
        self.first = from;
        Ok(())
    }

    /// Reads frames from an offset on together.
    #[tactic(auto, using(crate::proofs::Spans::frames_given))]
    fn read(&mut self, alloc: Global, from: u64) -> Result<Vec<Frame>, WaveFault>
        ensures value { IfOk result (AreFramesOf self.old from WIDTH) }
        ensures fault { IfErr result IsOfCalls }
        ensures cause { ReadFaultHasCause (calls_of self.old) (calls_of self.new) result }
        ensures song { opened self.new ≡ opened self.old }
    {
        self.reader.frames_at(alloc, from, WIDTH)
    }

    /// Whether the frames that were read together have these.
    fn has(&self, from: u64, count: usize) -> bool
        ensures { result ≡ holds_all self.now.first (vec_len self.now.frames) from count }
    {
        let many = self.frames.len() as u64;
        from >= self.first
            && from - self.first <= many
            && count as u64 <= many - (from - self.first)
    }

    /// Those of the frames that were read together, from an offset on, as many as are asked for.
    fn held(&self, alloc: Global, from: u64, count: usize) -> Result<Vec<Frame>, WaveFault>
        ensures value { IfOk result (AreFrom self.now.first self.now.frames.items from count) }
        ensures fault { IfErr result (λ fault. fault ≡ WaveFault.NoMemory) }
    {
        let start = (from.saturating_sub(self.first) as usize).min(self.frames.len());
        let end = start.saturating_add(count).min(self.frames.len());
        let mut own = Vec::new(alloc);
        own.extend_from_slice(&self.frames[start..end])?;
        Ok(own)
    }
}

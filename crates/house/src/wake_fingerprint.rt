//! What a thread at rest is woken for.
ghost use Rattle.std.specs.Prelude.{◌≡◌, true};
ghost use Rattle.house.specs.Waking.{part_fingerprint};

use partition::Partition;
use player_core::Playback;
use player_state::Part;

/// What changes where a decoder or an output has something to do: which partitions there are, and of each
/// whether and what is played and which outputs are enabled; and the end. It is kept from one event to the next,
/// and compared in place, since most events change nothing of it.
#[derive(Clone, Copy)]
pub struct WakeFingerprint {
    parts: [Option<PartFingerprint>; 16],
    /// How many partitions there are.
    count: usize,
    ended: bool,
}

/// What changes in one partition.
#[derive(Clone, Copy, PartialEq, Eq)]
struct PartFingerprint {
    index: u8,
    playback: Playback,
    cuts: u64,
    starts: u64,
    outputs: [bool; 8],
}

impl WakeFingerprint {
    pub(crate) fn of(partition: &Partition) -> WakeFingerprint
        ensures { result.ended ≡ partition.now.present.shared.ended }
    {
        let mut parts = [None; 16];
        for (seen, part) in parts.iter_mut().zip(partition.parts()) {
            *seen = Some(PartFingerprint::of(part));
        }
        WakeFingerprint {
            parts,
            count: partition.parts().len(),
            ended: partition.has_ended(),
        }
    }

    /// Whether it differs from what there is now. It is then taken anew.
    pub(crate) fn renew(&mut self, partition: &Partition) -> bool
        ensures { self.new.ended ≡ partition.now.present.shared.ended }
    {
        let differs = !self.is_of(partition);
        if differs {
            *self = WakeFingerprint::of(partition);
        }
        differs
    }

    /// Whether it is what there is now.
    fn is_of(&self, partition: &Partition) -> bool
        ensures { result ≡ true → self.now.ended ≡ partition.now.present.shared.ended }
    {
        let parts = partition.parts();
        self.ended == partition.has_ended()
            && self.count == parts.len()
            && self
                .parts
                .iter()
                .zip(parts)
                .all(|(seen, part)| *seen == Some(PartFingerprint::of(part)))
    }
}

impl PartFingerprint {
    fn of(part: &Part) -> PartFingerprint
        ensures { result ≡ part_fingerprint part.now }
    {
        PartFingerprint {
            index: part.index,
            playback: part.player.playback(),
            cuts: part.player.cuts(),
            starts: part.player.starts(),
            outputs: part.outputs.enabled(),
        }
    }
}

//! The block of a job.
ghost use Rattle.std.specs.Prelude.{◌≡◌};
ghost use Rattle.crew_steps.specs.Feeding.{block_at, is_within as is_within_lem};

use pcm_mix::{Fading, Frame, mix};
use player_core::FadePart;

/// Makes the block of a job's frames, faded and then at the volume of the event that accepted them.
#[tactic(auto, using(crate::proofs::Whole::unmixed))]
pub(crate) fn mix_block(frames: &mut [Frame], others: &[Frame], fade: Option<FadePart>, volume: u8)
    ensures { frames.new ≡ block_at volume fade others.now frames.old }
{
    // The full volume leaves each sample as it is.
    if fade.is_none() && volume >= 100 {
        return;
    }
    let count = frames.len();
    let fading = match fade {
        Some(part) if is_within(part, others.len(), count) => Some(Fading {
            others,
            offset: part.index as u32,
            len: part.len as u32,
        }),
        _ => None,
    };
    mix(frames, fading, volume.min(100));
}

/// Whether a part of a fade has so many frames of both songs, and ends with the fade or before.
fn is_within(part: FadePart, others: usize, count: usize) -> bool
    ensures { result ≡ is_within_lem part others count }
{
    others == count
        && part.len <= u64::from(u32::MAX)
        && part.index <= part.len
        && count as u64 <= part.len - part.index
}

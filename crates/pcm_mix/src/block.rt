//! The frames of one block, as they are handed to the outputs.
ghost use Rattle.std.specs.Prelude.{◌≡◌, ◌≤◌, length};
ghost use Rattle.pcm_mix.specs.Blocks.{IsWithin, block_of};

use crate::Frame;
use crate::crossfade::fade;
use crate::volume::gain;
use std::marker::Model;

/// The frames of another song that a block fades into.
#[derive(Drop)]
pub struct Fading<'a> {
    /// As many frames of the other song as the block has.
    pub others: &'a [Frame],
    /// Which frame of the fade the block's first one is, from 0.
    pub offset: u32,
    /// How many frames the whole fade has.
    pub len: u32,
}

impl<'a> Model for Fading<'a> {
    ghost use Rattle.pcm_mix.specs.Blocks.{FadingData};

    ghost Value = { FadingData };

    ghost view = { λ f. record { others = f.others.now; offset = f.offset; len = f.len } };
}

/// Makes a block of a job's frames: they are first faded, if the job has a part of a fade, and then set to
/// the volume, in percent from 0 to 100, of the event that accepted them.
#[tactic(auto, using(crate::proofs::Blocks::faded_then_gained, crate::proofs::Blocks::gained_alone))]
pub fn mix(frames: &mut [Frame], fading: Option<Fading>, volume: u8)
    requires volume { volume ≤ 100 }
    requires fading { IsWithin (length frames.old) fading }
    ensures { frames.new ≡ block_of fading.entry volume frames.old }
{
    if let Some(fading) = fading {
        fade(frames, fading.others, fading.offset, fading.len);
    }
    gain(frames, volume);
}

//! The volume of samples.
ghost use Rattle.std.specs.Prelude.{◌≡◌, ◌+◌, ◌<◌, ◌≤◌, [], length, map, slice_index_or};
ghost use Rattle.std.specs.List.{range_with_len};
ghost use Rattle.std.specs.Simd.Lanes.{Each1};
ghost use Rattle.pcm_mix.specs.Samples.{gained};
ghost use Rattle.pcm_mix.specs.Layouts.{signed};

use crate::Frame;
use crate::lanes::{bits_of, pairs, put_eight};
use std::simd::prelude::*;

/// Sets frames to a volume in percent, from 0 to 100: each sample becomes `sample * volume / 100`, rounded
/// toward zero. The full volume leaves them.
pub fn gain(frames: &mut [Frame], volume: u8)
    requires { volume ≤ 100 }
    ensures { frames.new ≡ map (map (gained volume)) frames.old }
{
    if volume != 100 {
        lower(frames, volume);
    }
}

// Eight frames a step, and the rest one by one.
fn lower(frames: &mut [Frame], volume: u8)
    requires { volume < 100 }
    ensures { frames.new ≡ map (map (gained volume)) frames.old }
{
    let eights = frames.len() / 8;
    for step in 0..eights {
        let eight = eight_gained(frames, 8 * step, volume);
        put_eight(frames, 8 * step, eight);
    }
    for i in 8 * eights..frames.len() {
        frames[i] = gained_frame(frames[i], volume);
    }
}

#[inline(always)]
fn eight_gained(frames: &[Frame], offset: usize, volume: u8) -> [Frame; 8]
    requires lower { volume < 100 }
    requires within { offset + 8 ≤ length frames.now }
    ensures { result ≡ map (λ j. map (gained volume) (slice_index_or frames.now (offset + j) [])) (range_with_len 0 8) }
{
    let [a, b, c, d] = four_gained(frames, offset, volume);
    let [e, f, g, h] = four_gained(frames, offset + 4, volume);
    [a, b, c, d, e, f, g, h]
}

#[inline(always)]
fn four_gained(frames: &[Frame], offset: usize, volume: u8) -> [Frame; 4]
    requires lower { volume < 100 }
    requires within { offset + 4 ≤ length frames.now }
    ensures { result ≡ map (λ j. map (gained volume) (slice_index_or frames.now (offset + j) [])) (range_with_len 0 4) }
{
    pairs(gained_bits(bits_of(frames, offset), volume).to_array())
}

// Samples at a volume, by their bits. The quotient is that by a reciprocal of 16 bits, or one more.
#[inline(always)]
fn gained_bits(bits: u16x8, volume: u8) -> u16x8
    requires lower { volume < 100 }
    requires eight { length bits ≡ 8 }
    requires fits { Each1 (λ word. word < 65536) bits }
    ensures { map (signed 32768) result ≡ map (gained volume) (map (signed 32768) bits) }
{
    let reciprocal = u32::from(volume) * 65536 / 100;
    let below_zero = bits >> u16x8::splat(15);
    let sign = u16x8::splat(1) - (below_zero + below_zero);
    let size = bits * sign;
    let product = size.cast::<u32>() * u32x8::splat(reciprocal);
    let least = (product >> u32x8::splat(16)).cast::<u16>();
    let left = size * u16x8::splat(u16::from(volume)) - least * u16x8::splat(100);
    // 1 where at least 100 is left
    let more = (left + u16x8::splat(32668)) >> u16x8::splat(15);
    (least + more) * sign
}

fn gained_frame(frame: Frame, volume: u8) -> Frame
    requires { volume ≤ 100 }
    ensures { result ≡ map (gained volume) frame }
{
    [
        gained_sample(frame[0], volume),
        gained_sample(frame[1], volume),
    ]
}

fn gained_sample(sample: i16, volume: u8) -> i16
    requires { volume ≤ 100 }
    ensures { result ≡ gained volume sample }
{
    (i32::from(sample) * i32::from(volume) / 100) as i16
}

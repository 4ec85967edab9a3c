//! Frames in the lanes of vectors: four of them at once, or eight.
ghost use Rattle.std.specs.Prelude.{◌≡◌, [], ◌∷◌, ◌+◌, ◌<◌, ◌≤◌, length, map, flat_map, slice_index_or};
ghost use Rattle.std.specs.List.{range_with_len};
ghost use Rattle.std.specs.Simd.Lanes.{Each1, put_chunk};
ghost use Rattle.pcm_mix.specs.Layouts.{signed, pair_at};

use crate::Frame;
use std::simd::prelude::*;

/// The samples of four frames from an offset on, each by its bits. They are read one by one, since of copied
/// frames the compiler makes no vector.
#[inline(always)]
pub(crate) fn bits_of(frames: &[Frame], i: usize) -> u16x8
    requires { i + 4 ≤ length frames.now }
    ensures is { map (signed 32768) result ≡ flat_map (λ j. slice_index_or frames.now (i + j) []) (range_with_len 0 4) }
    ensures fits { Each1 (λ word. word < 65536) result }
{
    u16x8::from_array([
        frames[i][0].cast_unsigned(),
        frames[i][1].cast_unsigned(),
        frames[i + 1][0].cast_unsigned(),
        frames[i + 1][1].cast_unsigned(),
        frames[i + 2][0].cast_unsigned(),
        frames[i + 2][1].cast_unsigned(),
        frames[i + 3][0].cast_unsigned(),
        frames[i + 3][1].cast_unsigned(),
    ])
}

/// The frame whose samples have these bits.
#[inline(always)]
fn frame_of(left: u16, right: u16) -> Frame
    ensures { result ≡ signed 32768 left ∷ signed 32768 right ∷ [] }
{
    [left.cast_signed(), right.cast_signed()]
}

/// Four frames whose samples have these bits, of each the left one first.
#[inline(always)]
pub(crate) fn pairs(words: [u16; 8]) -> [Frame; 4]
    ensures { result ≡ map (pair_at words) (range_with_len 0 4) }
{
    let [a, b, c, d, e, f, g, h] = words;
    [
        frame_of(a, b),
        frame_of(c, d),
        frame_of(e, f),
        frame_of(g, h),
    ]
}

/// Eight frames that have the samples with these bits on both sides.
#[inline(always)]
pub(crate) fn both_sides(words: [u16; 8]) -> [Frame; 8]
    ensures { result ≡ map (λ word. signed 32768 word ∷ signed 32768 word ∷ []) words }
{
    let [a, b, c, d, e, f, g, h] = words;
    [
        frame_of(a, a),
        frame_of(b, b),
        frame_of(c, c),
        frame_of(d, d),
        frame_of(e, e),
        frame_of(f, f),
        frame_of(g, g),
        frame_of(h, h),
    ]
}

/// Writes eight frames from an offset on.
#[inline(always)]
pub(crate) fn put_eight(frames: &mut [Frame], offset: usize, eight: [Frame; 8])
    requires { offset + 8 ≤ length frames.old }
    ensures { frames.new ≡ put_chunk offset frames.old eight }
{
    let [a, b, c, d, e, f, g, h] = eight;
    frames[offset] = a;
    frames[offset + 1] = b;
    frames[offset + 2] = c;
    frames[offset + 3] = d;
    frames[offset + 4] = e;
    frames[offset + 5] = f;
    frames[offset + 6] = g;
    frames[offset + 7] = h;
}

//! How frames lie in bytes, in a WAVE file and at an output.
ghost use Rattle.std.specs.Prelude.{◌≡◌, ◌*◌, ◌+◌, ◌≤◌, length, map, flat_map};
ghost use Rattle.std.specs.List.{range_with_len};
ghost use Rattle.pcm_mix.specs.declared.layout.Depth.TheVariants.{Sixteen, TwentyFour};
ghost use Rattle.pcm_mix.specs.declared.layout.Channels.TheVariants.{Mono, Stereo};
ghost use Rattle.pcm_mix.specs.Layouts.{width, count, word_at, sample_at, frame_at, frame_bytes};

use crate::Frame;
use crate::lanes::{both_sides, pairs, put_eight};
use std::simd::prelude::*;

/// Bits of a sample in a WAVE file.
#[derive(Clone, Copy, Debug, PartialEq, Eq)]
pub enum Depth {
    /// Unsigned, with silence at 128.
    Eight,
    /// Signed, the low byte first.
    Sixteen,
    /// Signed, the low byte first.
    TwentyFour,
}

impl Depth {
    /// How many bytes a sample has.
    pub fn width(self) -> usize
        ensures { result ≡ width self }
    {
        match self {
            Depth::Eight => 1,
            Depth::Sixteen => 2,
            Depth::TwentyFour => 3,
        }
    }
}

/// Channels of a WAVE file.
#[derive(Clone, Copy, Debug, PartialEq, Eq)]
pub enum Channels {
    /// One, which both sides are given.
    Mono,
    /// Left, then right.
    Stereo,
}

impl Channels {
    /// How many there are.
    pub fn count(self) -> usize
        ensures { result ≡ count self }
    {
        match self {
            Channels::Mono => 1,
            Channels::Stereo => 2,
        }
    }
}

/// Fills the frames from the bytes of a WAVE file's data. Bytes after the last frame are not read.
pub fn from_bytes(bytes: &[u8], depth: Depth, channels: Channels, frames: &mut [Frame])
    requires { length frames.old * (width depth * count channels) ≤ length bytes.now }
    ensures { frames.new ≡ map (frame_at depth channels bytes.now) (range_with_len 0 (length frames.old)) }
{
    match channels {
        Channels::Mono => read_depth(bytes, depth, Channels::Mono, frames),
        Channels::Stereo => read_depth(bytes, depth, Channels::Stereo, frames),
    }
}

// This and what it calls is written into `from_bytes` once for each layout, so that no loop asks for it.
#[inline(always)]
fn read_depth(bytes: &[u8], depth: Depth, channels: Channels, frames: &mut [Frame])
    requires { length frames.old * (width depth * count channels) ≤ length bytes.now }
    ensures { frames.new ≡ map (frame_at depth channels bytes.now) (range_with_len 0 (length frames.old)) }
{
    match depth {
        Depth::Eight => read(bytes, Depth::Eight, channels, frames),
        Depth::Sixteen => read(bytes, Depth::Sixteen, channels, frames),
        Depth::TwentyFour => read(bytes, Depth::TwentyFour, channels, frames),
    }
}

// Eight frames a step, where that is faster, and the rest one by one.
#[inline(always)]
fn read(bytes: &[u8], depth: Depth, channels: Channels, frames: &mut [Frame])
    requires { length frames.old * (width depth * count channels) ≤ length bytes.now }
    ensures { frames.new ≡ map (frame_at depth channels bytes.now) (range_with_len 0 (length frames.old)) }
{
    let eights = eights(frames.len(), depth, channels);
    for step in 0..eights {
        let eight = eight_frames(bytes, 8 * step, depth, channels);
        put_eight(frames, 8 * step, eight);
    }
    for i in 8 * eights..frames.len() {
        frames[i] = frame_at(bytes, i, depth, channels);
    }
}

// How many steps of eight frames. Of one channel of 16 bits the compiler makes better vectors in the plain loop.
#[inline(always)]
fn eights(len: usize, depth: Depth, channels: Channels) -> usize
    ensures { 8 * result ≤ len }
{
    match (depth, channels) {
        (Depth::Sixteen, Channels::Mono) => 0,
        _ => len / 8,
    }
}

#[inline(always)]
fn eight_frames(bytes: &[u8], offset: usize, depth: Depth, channels: Channels) -> [Frame; 8]
    requires { (offset + 8) * (width depth * count channels) ≤ length bytes.now }
    ensures { result ≡ map (λ j. frame_at depth channels bytes.now (offset + j)) (range_with_len 0 8) }
{
    match (depth, channels) {
        (Depth::Sixteen, Channels::Stereo) => whole_stereo(bytes, offset),
        (Depth::TwentyFour, Channels::Mono) => upper_mono(bytes, offset),
        (Depth::TwentyFour, Channels::Stereo) => upper_stereo(bytes, offset),
        _ => [
            frame_at(bytes, offset, depth, channels),
            frame_at(bytes, offset + 1, depth, channels),
            frame_at(bytes, offset + 2, depth, channels),
            frame_at(bytes, offset + 3, depth, channels),
            frame_at(bytes, offset + 4, depth, channels),
            frame_at(bytes, offset + 5, depth, channels),
            frame_at(bytes, offset + 6, depth, channels),
            frame_at(bytes, offset + 7, depth, channels),
        ],
    }
}

#[inline(always)]
fn whole_stereo(bytes: &[u8], offset: usize) -> [Frame; 8]
    requires { 4 * (offset + 8) ≤ length bytes.now }
    ensures { result ≡ map (λ j. frame_at Sixteen Stereo bytes.now (offset + j)) (range_with_len 0 8) }
{
    let [a, b, c, d] = pairs(whole_words(bytes, 4 * offset));
    let [e, f, g, h] = pairs(whole_words(bytes, 4 * offset + 16));
    [a, b, c, d, e, f, g, h]
}

// Eight samples of two bytes.
#[inline(always)]
fn whole_words(bytes: &[u8], at: usize) -> [u16; 8]
    requires { at + 16 ≤ length bytes.now }
    ensures { result ≡ map (λ j. word_at bytes.now (at + j * 2)) (range_with_len 0 8) }
{
    u16x8::from_le_bytes(u8x16::from_slice(&bytes[at..])).to_array()
}

#[inline(always)]
fn upper_mono(bytes: &[u8], offset: usize) -> [Frame; 8]
    requires { 3 * (offset + 8) ≤ length bytes.now }
    ensures { result ≡ map (λ j. frame_at TwentyFour Mono bytes.now (offset + j)) (range_with_len 0 8) }
{
    both_sides(upper_words(bytes, 3 * offset))
}

#[inline(always)]
fn upper_stereo(bytes: &[u8], offset: usize) -> [Frame; 8]
    requires { 6 * (offset + 8) ≤ length bytes.now }
    ensures { result ≡ map (λ j. frame_at TwentyFour Stereo bytes.now (offset + j)) (range_with_len 0 8) }
{
    let [a, b, c, d] = pairs(upper_words(bytes, 6 * offset));
    let [e, f, g, h] = pairs(upper_words(bytes, 6 * offset + 24));
    [a, b, c, d, e, f, g, h]
}

// Of eight samples of three bytes the upper two. They are taken out of two vectors that overlap, since the
// compiler finds no vectors for steps of three bytes.
#[inline(always)]
fn upper_words(bytes: &[u8], at: usize) -> [u16; 8]
    requires { at + 24 ≤ length bytes.now }
    ensures { result ≡ map (λ j. word_at bytes.now (at + j * 3 + 1)) (range_with_len 0 8) }
{
    let first = u8x16::from_slice(&bytes[at..]);
    let second = u8x16::from_slice(&bytes[at + 8..]);
    let upper = first.shuffle(
        second,
        [1, 2, 4, 5, 7, 8, 10, 11, 21, 22, 24, 25, 27, 28, 30, 31],
    );
    u16x8::from_le_bytes(upper).to_array()
}

fn frame_at(bytes: &[u8], offset: usize, depth: Depth, channels: Channels) -> Frame
    requires { (offset + 1) * (width depth * count channels) ≤ length bytes.now }
    ensures { result ≡ frame_at depth channels bytes.now offset }
{
    let width = depth.width();
    match channels {
        Channels::Mono => {
            let sample = sample_at(bytes, offset * width, depth);
            [sample, sample]
        }
        Channels::Stereo => {
            let at = offset * (2 * width);
            [
                sample_at(bytes, at, depth),
                sample_at(bytes, at + width, depth),
            ]
        }
    }
}

fn sample_at(bytes: &[u8], at: usize, depth: Depth) -> i16
    requires { at + width depth ≤ length bytes.now }
    ensures { result ≡ sample_at depth bytes.now at }
{
    match depth {
        Depth::Eight => (i16::from(bytes[at]) - 128) * 256,
        Depth::Sixteen => i16::from_le_bytes([bytes[at], bytes[at + 1]]),
        Depth::TwentyFour => i16::from_le_bytes([bytes[at + 1], bytes[at + 2]]),
    }
}

/// Fills the bytes from frames, four for each: the left sample first, and of each sample the low byte first.
pub fn to_bytes(frames: &[Frame], bytes: &mut [u8])
    requires { length bytes.old ≡ 4 * length frames.now }
    ensures { bytes.new ≡ flat_map frame_bytes frames.now }
{
    for i in 0..frames.len() {
        let at = 4 * i;
        bytes[at..at + 4].copy_from_slice(&frame_bytes(frames[i]));
    }
}

fn frame_bytes(frame: Frame) -> [u8; 4]
    ensures { result ≡ frame_bytes frame }
{
    let [a, b] = frame[0].to_le_bytes();
    let [c, d] = frame[1].to_le_bytes();
    [a, b, c, d]
}

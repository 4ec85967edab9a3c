//! Formats of samples.
ghost use Rattle.std.specs.Prelude.{◌≡◌, ◌≤◌, ◌<◌, ◌+◌, length};
ghost use Rattle.wave.specs.Formats.{layout_of, depth_of, channels_of, aligned, is_pcm, short_at, long_at, block};

use pcm_mix::{Channels, Depth};

/// How samples lie in the data.
#[derive(Clone, Copy, PartialEq, Eq)]
pub struct Layout {
    /// Bits of a sample.
    pub depth: Depth,
    /// Channels of a frame.
    pub channels: Channels,
}

impl Layout {
    /// How many bytes a frame has, 1 to 6.
    pub fn block(self) -> usize
        ensures { result ≡ block self }
    {
        self.depth.width() * self.channels.count()
    }
}

fn short_at(bytes: &[u8], at: usize) -> u16
    requires { at + 1 < length bytes.now }
    ensures { result ≡ short_at bytes.now at }
{
    u16::from(bytes[at]) + 256 * u16::from(bytes[at + 1])
}

fn long_at(bytes: &[u8], at: usize) -> u32
    requires { at + 3 < length bytes.now }
    ensures { result ≡ long_at bytes.now at }
{
    u32::from(bytes[at])
        + 256 * u32::from(bytes[at + 1])
        + 65536 * u32::from(bytes[at + 2])
        + 16777216 * u32::from(bytes[at + 3])
}

fn depth_of(bits: u16) -> Option<Depth>
    ensures { result ≡ depth_of bits }
{
    match bits {
        8 => Some(Depth::Eight),
        16 => Some(Depth::Sixteen),
        24 => Some(Depth::TwentyFour),
        _ => None,
    }
}

fn channels_of(number: u16) -> Option<Channels>
    ensures { result ≡ channels_of number }
{
    match number {
        1 => Some(Channels::Mono),
        2 => Some(Channels::Stereo),
        _ => None,
    }
}

fn is_pcm(content: &[u8]) -> bool
    requires { 16 ≤ length content.now }
    ensures { result ≡ is_pcm content.now }
{
    let tag = short_at(content, 0);
    tag == 1
        || tag == 0xfffe
            && content.len() >= 40
            && content[24..40] == [1, 0, 0, 0, 0, 0, 16, 0, 128, 0, 0, 170, 0, 56, 155, 113]
}

/// The layout of this depth and these channels, where the block align agrees with them.
fn aligned(align: u16, depth: Option<Depth>, channels: Option<Channels>) -> Option<Layout>
    ensures { result ≡ aligned align depth channels }
{
    match (depth, channels) {
        (Some(depth), Some(channels)) => {
            if usize::from(align) == depth.width() * channels.count() {
                Some(Layout { depth, channels })
            } else {
                None
            }
        }
        _ => None,
    }
}

/// The layout that a format's content gives, where it is played at this rate.
#[tactic(auto, unfolding(crate::specs::Formats::layout_of))]
pub(crate) fn layout_of(content: &[u8], rate: u32) -> Option<Layout>
    ensures { result ≡ layout_of rate content.now }
{
    if content.len() >= 16 && is_pcm(content) && long_at(content, 4) == rate {
        aligned(
            short_at(content, 12),
            depth_of(short_at(content, 14)),
            channels_of(short_at(content, 2)),
        )
    } else {
        None
    }
}

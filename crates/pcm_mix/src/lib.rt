//! Sample kernels: frames out of the bytes of PCM data, at a volume, faded into one another, and into an
//! output's bytes. All work in place on slices and take no memory; that the lengths agree is the caller's
//! part.
#![tactic(auto)]

pub mod block;
pub mod crossfade;
mod lanes;
pub mod layout;
pub mod volume;

pub use block::{Fading, mix};
pub use crossfade::fade;
pub use layout::{Channels, Depth, from_bytes, to_bytes};
pub use volume::gain;

/// A left and a right sample of 16 bits.
pub type Frame = [i16; 2];

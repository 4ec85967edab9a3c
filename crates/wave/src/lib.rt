//! RIFF WAVE files: their head, their tags and their frames, whatever the bytes are.
#![tactic(auto)]

mod device;
mod fault;
mod first_texts;
mod format;
mod found_chunk;
mod head;
mod id3;
mod reader;
mod reading;
mod samples;
mod tag;
mod texts;

pub use device::MAX_CALLS;
pub use fault::WaveFault;
pub use format::Layout;
pub use found_chunk::chunks_are_those_of_the_bytes;
pub use head::Head;
pub use reader::Reader;
pub use reading::read_head;
pub use tag::MAX_TEXT;

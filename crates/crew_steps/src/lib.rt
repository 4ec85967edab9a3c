//! What the crew's threads do, step by step: songs are decoded into the outputs' rings, and each output
//! drains its own.
#![tactic(auto)]

mod decoder;
mod draining;
mod feeders;
mod folder;
mod mixing;
mod new_rings;
mod open_song;
mod output;
mod output_setup;
mod part_songs;
mod rounds;
mod song_source;
mod songs;
mod waiting;

pub use decoder::{Decoder, DecoderEnd};
pub use draining::Draining;
pub use folder::{Folder, Paths};
pub use new_rings::output_setups;
pub use output::{Gate, Open, OutputEnd};
pub use output_setup::OutputSetup;
pub use song_source::{SongFault, SongSource};
pub use waiting::pause;

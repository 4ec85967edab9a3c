//! Tests of the song library, of filters over songs, and of the reading of WAVE files and ID3v2 tags.
#![tactic(auto)]

#[cfg(test)]
mod everyday_files;
#[cfg(test)]
mod filter_texts;
#[cfg(test)]
mod id3_rows;
#[cfg(test)]
mod songs;
#[cfg(test)]
mod wave_files;

//! Tests of what is asked of a library, of the scan of a folder that is made on the spot, of what a scan
//! prints and a daemon tells of it, of what the program is given, its command line and its settings, and of a
//! state.
#![tactic(auto)]

#[cfg(test)]
mod disk;
#[cfg(test)]
mod helpers;
#[cfg(test)]
mod limits;
#[cfg(test)]
mod odd;
#[cfg(test)]
mod progress;
#[cfg(test)]
mod questions;
#[cfg(test)]
mod reports;
#[cfg(test)]
mod settings_texts;
#[cfg(test)]
mod states;
#[cfg(test)]
mod words;

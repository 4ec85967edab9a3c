//! Tests of the crates mpd_text and script_lines, and of devices that count how their calls end.
//!
//! Each call of a crate under test stands in a small function with no clause, and what is observed goes to a text
//! that keeps a fault: a proof costs by the size of a body, and most by its asserts and exits.
#![tactic(auto)]

#[cfg(test)]
mod answers;
#[cfg(test)]
mod devices;
#[cfg(test)]
mod lines;
#[cfg(test)]
mod long_devices;
#[cfg(test)]
mod script;
#[cfg(test)]
mod songs;
#[cfg(test)]
mod tables;
#[cfg(test)]
mod words;

//! Tests of the player of one thread, by sessions with what a script has not: more outputs and clients, the
//! end, scans that fail, folds by hand. What a script has is in the worked rows. And tests of the state: a
//! player that reads it is as the one was of which it was told.
//!
//! What a check costs grows faster than the size of a body, and most by its exits and asserts. So a test
//! asserts once, over a text that tells all that came of a text of steps, and each call of a crate under test
//! stands in a small function with no clause.
#![tactic(auto)]

#[cfg(test)]
mod commands;
#[cfg(test)]
mod folds;
#[cfg(test)]
mod returns;
#[cfg(test)]
mod rooms;
#[cfg(test)]
mod session;
#[cfg(test)]
mod sessions;
#[cfg(test)]
mod shelf_sizes;

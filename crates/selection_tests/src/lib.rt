//! Tests of the tags that clients know, of songs in another order and in groups, of what commands ask for of
//! the songs in the everyday profile, and of partitions and their commands.
#![tactic(auto)]

#[cfg(test)]
mod commands;
#[cfg(test)]
mod grouped_songs;
#[cfg(test)]
mod partitions;
#[cfg(test)]
mod tags;

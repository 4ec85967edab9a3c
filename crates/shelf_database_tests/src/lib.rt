//! Tests of the shelf in memory, and of one over a database, also of a player that is lent it.
#![tactic(auto)]

#[cfg(test)]
mod mem_shelf;
#[cfg(test)]
mod memory;
#[cfg(test)]
mod player;
#[cfg(test)]
mod sessions;
#[cfg(test)]
mod stops;

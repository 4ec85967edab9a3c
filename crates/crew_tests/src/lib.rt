//! Tests of the house's own threads.
#![tactic(auto)]

#[cfg(test)]
mod blocked;
#[cfg(test)]
mod broken;
#[cfg(test)]
mod door;
#[cfg(test)]
mod fading;
#[cfg(test)]
mod failing;
#[cfg(test)]
mod meeting;
#[cfg(test)]
mod partitions;
#[cfg(test)]
mod rooms;
#[cfg(test)]
mod tunes;
#[cfg(test)]
mod updating;
#[cfg(test)]
mod wire;
#[cfg(test)]
mod wired;

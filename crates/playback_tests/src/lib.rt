//! Tests of the order of play and of the player.
//!
//! A test gives texts of steps and wants a text of each, so that it is cheap to prove: see player_tests.
#![tactic(auto)]

#[cfg(test)]
mod course;
#[cfg(test)]
mod order;
#[cfg(test)]
mod player;
#[cfg(test)]
mod seat;
#[cfg(test)]
mod tables;

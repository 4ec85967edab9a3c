//! Tests of the house: callers on several threads, notices, and frames under the lock.
#![tactic(auto)]

#[cfg(test)]
mod callers;
#[cfg(test)]
mod days;
#[cfg(test)]
mod frames;
#[cfg(test)]
mod notices;
#[cfg(test)]
mod own_songs;
#[cfg(test)]
mod reports;
#[cfg(test)]
mod rests;
#[cfg(test)]
mod rooms;
#[cfg(test)]
mod session;

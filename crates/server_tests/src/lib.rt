//! Tests of sessions and of the loop over the sockets.
#![tactic(auto)]

#[cfg(test)]
mod days;
#[cfg(test)]
mod devices;
#[cfg(test)]
mod lines;
#[cfg(test)]
mod loopback;
#[cfg(test)]
mod scanner;
#[cfg(test)]
mod sessions;
#[cfg(test)]
mod wires;

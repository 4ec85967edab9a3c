//! Tests of command lists, of notices, and of the channels of clients.
#![tactic(auto)]

#[cfg(test)]
mod channels;
#[cfg(test)]
mod laws;
#[cfg(test)]
mod list_lines;
#[cfg(test)]
mod notices;

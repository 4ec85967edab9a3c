//! Tests of the queue; and what other tests read of their steps.
#![tactic(auto)]

#[cfg(test)]
mod queue;
#[cfg(test)]
mod queue_moves;
#[cfg(test)]
mod queues;
pub mod steps;

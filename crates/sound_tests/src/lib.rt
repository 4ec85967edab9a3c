//! Tests of the sample kernels, the rings between decoder and outputs, outputs with patience, and frame books.
#![tactic(auto)]

#[cfg(test)]
mod kernels;
#[cfg(test)]
mod patience;
#[cfg(test)]
mod rings;
#[cfg(test)]
mod settlement;

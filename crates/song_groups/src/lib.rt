//! The songs of a library in another order, and in groups: `sort`, and `list` and `count` with `group`.
#![tactic(auto)]

mod columns;
mod counting;
mod grouping;
mod numbers;
mod sorting;

pub use counting::{Group, count_groups, distinct, each_song_counts_once, push_counts};
pub use grouping::{push_tuples, stands_where_it_differs, tuples, tuples_have_each_once};
pub use sorting::{one_order, order};

//! The shared player: the lock, and what it holds: the player with a count of each seat's events, the notices
//! that wait, and the books of its frames. Any thread with a seat may use it.
#![tactic(auto)]

mod all_shares;
mod answered;
mod changes;
mod counted;
mod ended_ring;
mod fates;
mod frames;
mod held;
mod house;
mod ledgers;
mod list;
mod listed;
mod new_books;
mod news;
mod output;
mod player;
mod present_partitions;
mod seat;
mod settlement;
mod token;
mod waiting;
mod wake_fingerprint;

pub use answered::{Answered, AnsweredList, Reported};
pub use counted::Counted;
pub use ended_ring::EndedRing;
pub use held::{Blanks, CrewShares, Held};
pub use house::House;
pub use ledgers::{At, Decoded, Discarded, First, Fourth, Ledgers, Second, Third, Written};
pub use news::News;
pub use seat::{NoSeat, Seat, SeatBooks};
pub use settlement::Settlement;
pub use wake_fingerprint::WakeFingerprint;

//! The clients, what is pending for them, and who is told of what changed.
#![tactic(auto)]

mod clients;
mod fingerprint;
mod notices;
mod same;

pub use clients::{find_client, leave, list_notices, make_move, notify_all, waiting};
pub use fingerprint::{
    Fingerprint, Options, OutputFlags, OutputsAt, Raised, changes_subscriptions,
};
pub use notices::{Notice, Notices};
pub use same::changes_songs;

//! What changed, and which clients wait to be told (MPD protocol reference, Querying MPD's status, `idle`);
//! the channels by which clients send one another messages (Client to client).
#![tactic(auto)]

mod channels;
mod pending;
mod sets;
mod subsystem;

pub use channels::{
    ChannelFault, Channels, MAX_MESSAGES, MAX_SUBSCRIPTIONS, Message, channel_names_are_each_once,
    clients_stay_apart, hears_where_one_listens, is_channel_name,
};
pub use pending::Pending;
pub use sets::Subsystems;
pub use subsystem::{SUBSYSTEMS, Subsystem};

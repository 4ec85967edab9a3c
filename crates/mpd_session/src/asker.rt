//! Who asks.

use mpd_command::CommandSet;

/// A client, and which commands it may give.
#[derive(Clone, Copy, PartialEq, Eq)]
pub struct Asker {
    /// Its number, by which the player knows it.
    pub client: u32,
    /// Which commands there are for it.
    pub commands: CommandSet,
}

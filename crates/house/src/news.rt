//! What the house is told beside lines and frames.
ghost use Rattle.std.specs.Prelude.{◌≡◌};
ghost use Rattle.house.specs.News.{event_of};

use player_events::Event;
use song_db::SharedDb;

/// A piece of news, which is one event.
#[derive(Drop)]
pub enum News {
    /// A client comes under a number of its own.
    Comes(u32),
    /// A client goes.
    Goes(u32),
    /// A scanner asks whether a scan is to be made.
    AsksToScan,
    /// The library that a scan found; one that failed found none.
    Scanned(Option<SharedDb>, u64),
    /// The decoder wants a job of the partition of this number; of which of eight outputs the feeder still
    /// owes frames of an earlier one.
    Wants(u8, [bool; 8]),
    /// The song of a partition's job, of this number, could not be read, or where this is so, that of its
    /// partner in a fade.
    Failed(u8, u64, bool),
}

impl News {
    /// The event that it is.
    pub(crate) fn into_event(self) -> Event
        ensures { result ≡ event_of self }
    {
        match self {
            News::Comes(client) => Event::Connect(client),
            News::Goes(client) => Event::Disconnect(client),
            News::AsksToScan => Event::ScanQuestion,
            News::Scanned(songs, second) => Event::ScanResult(songs, second),
            News::Wants(index, owes) => Event::Want(index, owes),
            News::Failed(index, number, of_partner) => Event::Failed(index, number, of_partner),
        }
    }
}

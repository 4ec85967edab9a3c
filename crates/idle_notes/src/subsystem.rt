//! The subsystems of a player.
ghost use Rattle.std.specs.Prelude.{◌≡◌};
ghost use Rattle.idle_notes.specs.Names.{text_of, subsystem_of};

/// What a client can wait for, in the order in which a notice names them (MPD protocol reference, `idle`).
#[derive(Clone, Copy, Debug, PartialEq, Eq)]
pub enum Subsystem {
    /// The song list of the library.
    Database,
    /// Whether a scan runs.
    Update,
    /// The stored playlists.
    StoredPlaylist,
    /// The queue.
    Playlist,
    /// The player: its state, its current song, its starts, seeks and errors.
    Player,
    /// The volume.
    Mixer,
    /// Which outputs are enabled.
    Output,
    /// The modes and the seconds of a cross-fade.
    Options,
    /// The stickers.
    Sticker,
    /// Which client listens to which channel.
    Subscription,
    /// The messages that wait for a client.
    Message,
    /// Which partitions there are.
    Partition,
}

/// All subsystems, in the order of a notice.
pub const SUBSYSTEMS: [Subsystem; 12] = [
    Subsystem::Database,
    Subsystem::Update,
    Subsystem::StoredPlaylist,
    Subsystem::Playlist,
    Subsystem::Player,
    Subsystem::Mixer,
    Subsystem::Output,
    Subsystem::Options,
    Subsystem::Sticker,
    Subsystem::Subscription,
    Subsystem::Message,
    Subsystem::Partition,
];

impl Subsystem {
    /// The subsystem of a name, if it is one. Upper and lower case are two things.
    #[tactic(auto, unfolding(crate::specs::Names::subsystem_of))]
    pub fn of_word(word: &str) -> Option<Subsystem>
        ensures { result ≡ subsystem_of word.now }
    {
        SUBSYSTEMS
            .iter()
            .copied()
            .find(|subsystem| subsystem.text() == word)
    }

    /// The name as it is read and sent.
    pub fn text(self) -> &'static str
        ensures { result.now ≡ text_of self }
    {
        match self {
            Subsystem::Database => "database",
            Subsystem::Update => "update",
            Subsystem::StoredPlaylist => "stored_playlist",
            Subsystem::Playlist => "playlist",
            Subsystem::Player => "player",
            Subsystem::Mixer => "mixer",
            Subsystem::Output => "output",
            Subsystem::Options => "options",
            Subsystem::Sticker => "sticker",
            Subsystem::Subscription => "subscription",
            Subsystem::Message => "message",
            Subsystem::Partition => "partition",
        }
    }
}

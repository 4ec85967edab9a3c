//! Settings, and why a text has none.
use song_db::Rate;

/// What the daemon is started with.
#[derive(Drop)]
pub struct Settings {
    /// The folder of the music.
    pub music: String,
    /// Where clients connect, as `127.0.0.1:6600`. Any text is one here: whether it is an address is found at
    /// the start.
    pub listen: String,
    /// The file of the shelf, which is in memory where there is none.
    pub shelf: Option<String>,
    /// The file in which queue, current song, modes, volume and outputs are kept; where there is none they end
    /// with the daemon.
    pub state: Option<String>,
    /// The rate of all songs, 44,100 by default.
    pub rate: Rate,
    /// Where random numbers start, 0 by default.
    pub random_start: u64,
    /// How many events the player keeps at most: 1 to 65,536, and 4,096 by default.
    pub history: u32,
    /// How many frames a ring has: 1,024 to 65,536, and 8,192 by default.
    pub ring: u32,
    /// Whether clients may end the daemon; by default they may not.
    pub kill: bool,
    /// Whether the commands and forms of the everyday profile are there; by default they are not.
    pub everyday: bool,
    /// The outputs, at most 8, each with a name of its own, in the order of the text.
    pub outputs: Vec<OutputSettings>,
}

/// An output.
#[derive(Drop)]
pub struct OutputSettings {
    /// Its name, without a line feed.
    pub name: String,
    /// The file that it writes.
    pub path: String,
    /// Whether it plays from the start, as by default.
    pub enabled: bool,
    /// For how many seconds its path may take nothing before it is off, 1 to 86,400; where there is none, for
    /// ever.
    pub patience: Option<u32>,
}

/// Why there are no settings.
#[derive(Drop)]
pub enum SettingsFault {
    /// The text is not taken for this key; the empty key says that it is not TOML.
    BadSetting(String),
    /// There was no memory.
    NoMemory,
}

//! Which commands there are for clients, and what they are read with.
ghost use Rattle.std.specs.Prelude.{◌≡◌};
ghost use Rattle.mpd_command.specs.Names.{fewest};

/// Which commands clients may give, as the settings say, and what a line is read with that it does not say itself.
#[derive(Clone, Copy, PartialEq, Eq)]
pub struct CommandSet {
    /// Whether `kill` may be run.
    pub kill: bool,
    /// Whether the commands and forms of the everyday profile are there.
    pub everyday: bool,
    /// How many seconds the daemon has been running, where somebody measures that. `stats` shows it.
    pub uptime: Option<u32>,
}

impl CommandSet {
    /// The base profile, in which `kill` may not be run, and no time is measured.
    pub fn base() -> CommandSet
        ensures { result ≡ fewest }
    {
        CommandSet {
            kill: false,
            everyday: false,
            uptime: None,
        }
    }
}

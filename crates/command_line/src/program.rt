//! What a command line asks for.
ghost use Rattle.std.specs.Prelude.{◌≡◌};
ghost use Rattle.command_line.specs.Programs.{status_of};

use clap::Error;
use clap::error::ErrorKind;
use song_db::Rate;

/// What the words ask for.
#[derive(Drop)]
pub enum Program<'a> {
    /// Serves clients and plays to outputs, as this file of settings says; or, where this is so, only checks
    /// what it says.
    Serve(&'a str, bool),
    /// Prints the songs of this folder at this rate; and where this is so, with the tags of the everyday profile.
    Scan(Rate, &'a str, bool),
    /// Runs standard input as a script.
    Script,
}

/// Why words name no program.
#[derive(Drop)]
pub enum LineFault {
    /// It is a usage error, or asks for help or the version. The error prints itself where it belongs.
    Refused(Error),
    /// There was no memory.
    NoMemory,
}

impl LineFault {
    /// The exit status: 0 for help and the version, 1 without memory, and 2 for a usage error.
    pub fn status(&self) -> u8
        ensures { result ≡ status_of self.now }
    {
        match self {
            LineFault::Refused(error) => match error.kind() {
                ErrorKind::DisplayHelp | ErrorKind::DisplayVersion => 0,
                _ => 2,
            },
            LineFault::NoMemory => 1,
        }
    }
}

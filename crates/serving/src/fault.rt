//! Why the daemon is not started, or does not end well.
ghost use Rattle.std.specs.Prelude.{◌≡◌};
ghost use Rattle.serving.specs.Faults.{of_scan as of_scan_lem, of_settings, of_sockets};

use library_scan::ScanFault;
use mpd_server::ServeFault;
use partition::PartitionFault;
use settings::{OneLine, SettingsFault};
use std::alloc::AllocError;
use thiserror::Error;

/// Each is told in one line, which names the key, the file or the folder: [`OneLine`] shows a line break in a
/// name by an escape.
#[derive(Debug, Drop, Error)]
pub enum DaemonFault {
    /// The file of settings cannot be read, or is no text.
    #[error("cannot read {}", OneLine(.0.as_str()))]
    CannotRead(String),
    #[error("bad setting {}", OneLine(.0.as_str()))]
    BadSetting(String),
    /// The shelf's file cannot be opened or made, or is no shelf.
    #[error("cannot open shelf")]
    CannotOpenShelf,
    #[error("cannot read folder {}", OneLine(.0.as_str()))]
    NoFolder(String),
    #[error("too many songs")]
    TooManySongs,
    /// Names the address, and what is wrong with it.
    #[error("cannot listen at {}", OneLine(.0.as_str()))]
    CannotListen(String),
    /// The sockets cannot be waited for.
    #[error("cannot serve")]
    CannotServe,
    /// The summary was not written, or the shelf's file not closed.
    #[error("write fault")]
    WriteFault,
    #[error("out of memory")]
    NoMemory,
    /// The player could not be ended.
    #[error("{}", .0.text())]
    Player(PartitionFault),
}

impl From<AllocError> for DaemonFault {
    ghost use Rattle.serving.specs.declared.fault.DaemonFault.{DaemonFault};

    ghost from_gives = { λ _ said. said ≡ DaemonFault.NoMemory };

    fn from(_fault: AllocError) -> DaemonFault {
        DaemonFault::NoMemory
    }
}

impl From<SettingsFault> for DaemonFault {
    ghost from_gives = { λ fault said. said ≡ of_settings fault };

    fn from(fault: SettingsFault) -> DaemonFault {
        match fault {
            SettingsFault::BadSetting(key) => DaemonFault::BadSetting(key),
            SettingsFault::NoMemory => DaemonFault::NoMemory,
        }
    }
}

impl From<ServeFault> for DaemonFault {
    ghost from_gives = { λ fault said. said ≡ of_sockets fault };

    fn from(fault: ServeFault) -> DaemonFault {
        match fault {
            ServeFault::ListenFault => DaemonFault::CannotServe,
            ServeFault::NoMemory => DaemonFault::NoMemory,
        }
    }
}

impl DaemonFault {
    /// Why the folder of the music was not scanned.
    pub(crate) fn of_scan(fault: ScanFault, folder: String) -> DaemonFault
        ensures { result ≡ of_scan_lem fault folder }
    {
        match fault {
            ScanFault::NoFolder => DaemonFault::NoFolder(folder),
            ScanFault::TooMany => DaemonFault::TooManySongs,
            ScanFault::NoMemory => DaemonFault::NoMemory,
        }
    }
}

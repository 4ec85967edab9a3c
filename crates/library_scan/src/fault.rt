//! Why there is no scan of a folder.
use std::alloc::AllocError;

/// Why a scan gives nothing, the first cause first.
#[derive(Clone, Copy, Debug, PartialEq, Eq)]
pub enum ScanFault {
    /// The folder is not there, is none, or cannot be listed.
    NoFolder,
    /// There are more than 100,000 songs, or more than 2^32 names.
    TooMany,
    /// There was no memory.
    NoMemory,
}

impl From<AllocError> for ScanFault {
    ghost use Rattle.library_scan.specs.declared.fault.ScanFault.{ScanFault};
    ghost use Rattle.std.specs.Prelude.{◌≡◌};

    ghost from_gives = { λ _ fault. fault ≡ ScanFault.NoMemory };

    fn from(_: AllocError) -> ScanFault {
        ScanFault::NoMemory
    }
}

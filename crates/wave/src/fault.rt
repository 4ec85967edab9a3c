//! Why a file is not read.
ghost use Rattle.std.specs.Prelude.{◌≡◌};
ghost use Rattle.wave.specs.declared.fault.WaveFault.TheVariants.{ReadFault, NoMemory};

use std::alloc::{AllocError, AllocFailed};

/// Why no head or no frames are had of a file, the first reason first.
#[derive(Clone, Copy, Debug, PartialEq, Eq)]
pub enum WaveFault {
    /// The first twelve bytes are not those of a RIFF WAVE file.
    NotRiff,
    /// No whole format comes before the data, or there is neither.
    NoFormat,
    /// The format is not PCM of 8, 16 or 24 bits in one or two channels at the rate that was asked for.
    Unsupported,
    /// There is no data.
    NoData,
    /// The device failed, or was called [`MAX_CALLS`](crate::MAX_CALLS) times.
    ReadFault,
    /// There was no memory for tags or frames.
    NoMemory,
}

/// A device failed, or was called too often.
#[derive(Clone, Copy)]
pub(crate) struct Unread;

impl From<Unread> for WaveFault {
    ghost from_gives = { λ _ e. e ≡ ReadFault };

    fn from(_e: Unread) -> WaveFault {
        WaveFault::ReadFault
    }
}

impl From<AllocError> for WaveFault {
    ghost from_gives = { λ _ e. e ≡ NoMemory };

    fn from(_e: AllocError) -> WaveFault {
        WaveFault::NoMemory
    }
}

impl<T: Drop> From<AllocFailed<T>> for WaveFault {
    ghost from_gives = { λ _ e. e ≡ NoMemory };

    fn from(_e: AllocFailed<T>) -> WaveFault {
        WaveFault::NoMemory
    }
}

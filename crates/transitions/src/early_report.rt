//! What is told to a part of the daemon that is no client, where it is known before anything changes.
ghost use Rattle.std.specs.Prelude.{◌≡◌};
ghost use Rattle.transitions.specs.EarlyReports.{report_of};

use player_core::Live;
use player_state::{Heard, Report};

/// A report that is known before the event's effect. It holds no job and no feed, which the effect makes, so
/// that a transition, which is moved often, has a fifth of a report's bytes.
#[derive(Clone, Copy, PartialEq, Eq)]
pub enum EarlyReport {
    Nothing,
    /// The number of the scan that is to be made, if one is.
    ToScan(Option<u64>),
    /// Whether a scan ended by its result.
    ScanEnded(bool),
    /// Nothing is to be decoded.
    NoJob,
    /// Decoded frames are stale.
    NoFeed,
    /// An output that is in no partition plays nothing.
    NoOutput,
    /// The daemon has ended.
    Ended,
}

impl EarlyReport {
    pub fn into_report(self) -> Report
        ensures { result ≡ report_of self }
    {
        match self {
            EarlyReport::Nothing => Report::Nothing,
            EarlyReport::ToScan(scan) => Report::ToScan(scan),
            EarlyReport::ScanEnded(ended) => Report::ScanEnded(ended),
            EarlyReport::NoJob => Report::ToDecode(None),
            EarlyReport::NoFeed => Report::ToFeed(None),
            EarlyReport::NoOutput => Report::ToPlay(Heard {
                moves: 0,
                live: Live {
                    cut: 0,
                    enabled: false,
                    paused: false,
                },
            }),
            EarlyReport::Ended => Report::Ended,
        }
    }
}

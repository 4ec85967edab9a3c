//! The scans that look for what can be played.
ghost use Rattle.std.specs.Prelude.{◌≡◌, ◌+◌, true};
ghost use Rattle.player_state.specs.Effects.{begins_beyond as begins_beyond_lem};
ghost use Rattle.player_state.specs.Scans.{never_scanned, running, scan_after};
ghost use Rattle.player_state.specs.declared.scan.ScanMove.TheVariants.{Begin, Stay};

use song_db::SharedDb;
use std::marker::Model;

/// The greatest number of a scan.
const MAX_SCANS: u64 = (1 << 63) - 1;

/// The scans of the music folder: the number of the last one that began, and whether it runs.
#[derive(Drop)]
pub struct Scan {
    last: u64,
    runs: bool,
}

impl Model for Scan {
    ghost use Rattle.std.specs.Prelude.{◌≤◌, ◌-◌, ◌^◌};
    ghost use Rattle.player_state.specs.Scans.{ScanData};

    ghost Value = { ScanData };

    ghost view = { λ s. record { last = s.last; runs = s.runs } };

    ghost invariant = { λ s. s.last ≤ 2 ^ 63 - 1 };
}

impl Scan {
    /// No scan began yet.
    pub fn never() -> Scan
        ensures { result ≡ never_scanned }
    {
        Scan {
            last: 0,
            runs: false,
        }
    }

    /// The number of the scan that runs, if one does.
    pub fn running(&self) -> Option<u64>
        ensures { result ≡ running self.now }
    {
        if self.runs { Some(self.last) } else { None }
    }

    /// The number that the next scan has.
    pub fn next(&self) -> u64
        ensures { result ≡ self.now.last + 1 }
    {
        self.last + 1
    }

    /// Whether a scan that begins by this move would have a number above the greatest.
    pub fn begins_beyond(&self, max_cut: u64, scan: &ScanMove) -> bool
        ensures { result ≡ begins_beyond_lem max_cut self.now scan.now }
    {
        match scan {
            ScanMove::Begin => !self.runs && max_cut <= self.last,
            ScanMove::Stay | ScanMove::End(_, _) => false,
        }
    }

    /// The same scans.
    pub fn copied(&self) -> Scan
        ensures { result ≡ self.now }
    {
        Scan {
            last: self.last,
            runs: self.runs,
        }
    }

    /// The scans after an event.
    pub fn after(&self, scan: &ScanMove) -> Scan
        ensures { result ≡ scan_after self.now scan.now }
    {
        match scan {
            ScanMove::Stay => self.copied(),
            ScanMove::Begin => self.begun(),
            ScanMove::End(_, _) => Scan {
                last: self.last,
                runs: false,
            },
        }
    }

    /// The scans after one has begun, if none ran and there was a number for it.
    fn begun(&self) -> Scan
        ensures { result ≡ scan_after self.now Begin }
    {
        if self.runs || self.last >= MAX_SCANS {
            return self.copied();
        }
        Scan {
            last: self.last + 1,
            runs: true,
        }
    }
}

/// What an event does to the scans.
#[derive(Drop)]
pub enum ScanMove {
    Stay,
    /// A scan begins, if none runs.
    Begin,
    /// The scan that runs ends, with the library that it found, at this second from the beginning of 1970 on.
    /// One that failed found none, and the songs stay.
    End(Option<SharedDb>, u64),
}

impl ScanMove {
    pub fn stays(&self) -> bool
        ensures { result ≡ true → self.now ≡ Stay }
    {
        matches!(self, ScanMove::Stay)
    }
}

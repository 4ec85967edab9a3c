//! The outputs, and the frames that each was given, wrote and discarded.
ghost use Rattle.std.specs.Prelude.{◌≡◌, ◌<◌, ◌&&◌, false, length, slice_index_or, IfOk, OnOk, OnErr};
ghost use Rattle.player_state.specs.Outputs.{all_elsewhere, any_enabled as any_enabled_lem, asked_all, brought, carried as carried_lem, fed as fed_lem, fed_at as fed_at_lem, has_failed as has_failed_lem, holds_any as holds_any_lem, is_enabled as is_enabled_lem, is_output as is_output_lem, no_outputs, owes_any, released, switched, turned, with_output};

use mpd_text::SharedText;
use std::alloc::{AllocError, Global};
use std::marker::Model;

/// What an output takes along when it is moved to another partition: its flags, and how often it was moved.
#[derive(Clone, Copy, PartialEq, Eq)]
pub struct Carried {
    pub enabled: bool,
    pub failed: bool,
    pub moves: u64,
}

/// The most outputs.
pub const MAX_OUTPUTS: usize = 8;

/// The outputs, as a partition knows them, eight at most: the names of all; which of them are in the partition;
/// and of these which are enabled, which have failed, how often each was moved, and which were there when the
/// decoder's last job was given and have not been moved since.
#[derive(Drop)]
pub struct Outputs {
    names: Vec<SharedText>,
    here: [bool; 8],
    enabled: [bool; 8],
    failed: [bool; 8],
    moves: [u64; 8],
    asked: [bool; 8],
}

impl Model for Outputs {
    ghost use Rattle.std.specs.Prelude.{◌≡◌, ◌≤◌, length};
    ghost use Rattle.player_state.specs.Outputs.{OutputsData};

    ghost Value = { OutputsData };

    ghost view = { λ o. record { names = o.names.items; here = o.here; enabled = o.enabled; failed = o.failed; moves = o.moves; asked = o.asked } };

    ghost invariant = { λ o. (length o.names.items ≤ 8) × (length o.here ≡ 8) × (length o.enabled ≡ 8) × (length o.failed ≡ 8)
        × (length o.moves ≡ 8) × (length o.asked ≡ 8) };
}

impl Outputs {
    /// No outputs.
    pub fn none(alloc: Global) -> Outputs
        ensures { result ≡ no_outputs }
    {
        Outputs {
            names: Vec::new(alloc),
            here: [false; 8],
            enabled: [false; 8],
            failed: [false; 8],
            moves: [0; 8],
            asked: [false; 8],
        }
    }

    /// One more output, after those that are there; it is in the partition.
    pub fn add(&mut self, name: SharedText, enabled: bool) -> Result<(), AllocError>
        requires { length self.old.names < 8 }
        ensures ok { OnOk result (self.new ≡ with_output self.old name enabled) }
        ensures err { OnErr result (self.new ≡ self.old) }
    {
        let number = self.names.len();
        if self.names.push(name).is_err() {
            return Err(AllocError);
        }
        self.here[number] = true;
        self.enabled[number] = enabled;
        Ok(())
    }

    /// The names, by number.
    pub fn names(&self) -> &[SharedText]
        ensures { result.now ≡ self.now.names }
    {
        &self.names
    }

    /// Whether the output of this number is in the partition.
    pub fn is_output(&self, number: usize) -> bool
        ensures { result ≡ is_output_lem self.now number }
    {
        number < MAX_OUTPUTS && self.here[number]
    }

    pub fn is_enabled(&self, number: usize) -> bool
        ensures { result ≡ is_enabled_lem self.now number }
    {
        number < MAX_OUTPUTS && self.enabled[number]
    }

    pub fn has_failed(&self, number: usize) -> bool
        ensures { result ≡ has_failed_lem self.now number }
    {
        number < MAX_OUTPUTS && self.failed[number]
    }

    /// How often an output was moved from one partition to another.
    pub fn moves(&self, number: usize) -> u64
        ensures { result ≡ slice_index_or self.now.moves number 0 }
    {
        if number < MAX_OUTPUTS {
            self.moves[number]
        } else {
            0
        }
    }

    /// Of eight outputs those that frames of the last job are fed to, each with its moves.
    pub(crate) fn fed(&self) -> [Option<u64>; 8]
        ensures { result ≡ fed_lem self.now }
    {
        [
            self.fed_at(0),
            self.fed_at(1),
            self.fed_at(2),
            self.fed_at(3),
            self.fed_at(4),
            self.fed_at(5),
            self.fed_at(6),
            self.fed_at(7),
        ]
    }

    pub(crate) fn fed_at(&self, number: usize) -> Option<u64>
        ensures { result ≡ fed_at_lem self.now number }
    {
        if number < MAX_OUTPUTS && self.asked[number] && self.enabled[number] {
            Some(self.moves[number])
        } else {
            None
        }
    }

    /// A job is given: its frames are for the outputs that are in the partition now.
    pub(crate) fn ask(&mut self)
        ensures { self.new ≡ asked_all self.old }
    {
        self.asked = self.here;
    }

    pub(crate) fn any_enabled(&self) -> bool
        ensures { result ≡ any_enabled_lem self.now }
    {
        self.enabled.iter().any(|on| *on)
    }

    /// Which of eight outputs are in the partition.
    pub fn here(&self) -> [bool; 8]
        ensures { result ≡ self.now.here }
    {
        self.here
    }

    /// Which of eight outputs are enabled.
    pub fn enabled(&self) -> [bool; 8]
        ensures { result ≡ self.now.enabled }
    {
        self.enabled
    }

    /// Whether an output is in the partition.
    pub fn holds_any(&self) -> bool
        ensures { result ≡ holds_any_lem self.now }
    {
        self.here.iter().any(|here| *here)
    }

    /// Whether the feeder of an output that is in the partition owes frames, where these do of eight.
    pub fn owes(&self, owes: [bool; 8]) -> bool
        ensures { result ≡ owes_any self.now owes }
    {
        (0..MAX_OUTPUTS).any(|number| self.owes_at(number, owes))
    }

    fn owes_at(&self, number: usize, owes: [bool; 8]) -> bool
        ensures { result ≡ (is_output_lem self.now number && slice_index_or owes number false) }
    {
        number < MAX_OUTPUTS && self.here[number] && owes[number]
    }

    /// What an output takes along from here.
    pub fn carried(&self, number: usize) -> Carried
        ensures { result ≡ carried_lem self.now number }
    {
        Carried {
            enabled: self.is_enabled(number),
            failed: self.has_failed(number),
            moves: self.moves(number),
        }
    }

    /// An output comes, as it is carried. No frames of a job that was given before are for it.
    pub fn bring(&mut self, number: usize, carried: Carried)
        ensures { self.new ≡ brought self.old number carried }
    {
        if number < MAX_OUTPUTS {
            self.here[number] = true;
            self.enabled[number] = carried.enabled;
            self.failed[number] = carried.failed;
            self.moves[number] = carried.moves;
            self.asked[number] = false;
        }
    }

    /// An output goes.
    pub fn release(&mut self, number: usize)
        ensures { self.new ≡ released self.old number }
    {
        if number < MAX_OUTPUTS {
            self.here[number] = false;
            self.enabled[number] = false;
            self.failed[number] = false;
            self.moves[number] = 0;
            self.asked[number] = false;
        }
    }

    /// The same names, with no output here.
    pub fn elsewhere(&self, alloc: Global) -> Result<Outputs, AllocError>
        ensures { IfOk result (λ outputs. outputs ≡ all_elsewhere self.now) }
    {
        Ok(Outputs {
            names: shared_names(alloc, &self.names)?,
            ..Outputs::none(alloc)
        })
    }

    /// Turns an output on or off.
    pub(crate) fn switch(&mut self, number: usize, on: bool)
        ensures { self.new ≡ switched self.old number on }
    {
        if number < MAX_OUTPUTS {
            self.enabled[number] = on;
        }
    }

    /// An output has had its turn. One that failed is off from now on.
    pub(crate) fn settle(&mut self, number: usize, failed: bool)
        ensures { self.new ≡ turned self.old number failed }
    {
        if failed && number < MAX_OUTPUTS {
            self.enabled[number] = false;
            self.failed[number] = true;
        }
    }
}

fn shared_names(alloc: Global, names: &[SharedText]) -> Result<Vec<SharedText>, AllocError>
    ensures { IfOk result (λ shared. shared.items ≡ names.now) }
{
    let mut shared = Vec::with_capacity(alloc, names.len())?;
    for name in names {
        shared.push(name.clone()?)?;
    }
    Ok(shared)
}

//! Sets of subsystems.
ghost use Rattle.std.specs.Prelude.{◌≡◌, ◌++◌, not, OnOk};
ghost use Rattle.std.specs.List.{flat_map};
ghost use Rattle.idle_notes.specs.Names.{line_in, changed_lines};
ghost use Rattle.idle_notes.specs.Sets.{each_alike, none, all, union, meet, with_one, has, is_nonempty};

use crate::subsystem::{SUBSYSTEMS, Subsystem};
use mpd_text::Answer;
use std::alloc::AllocError;

/// A set of subsystems.
#[derive(Clone, Copy, PartialEq, Eq)]
pub struct Subsystems {
    pub database: bool,
    pub update: bool,
    pub stored_playlist: bool,
    pub playlist: bool,
    pub player: bool,
    pub mixer: bool,
    pub output: bool,
    pub options: bool,
    pub sticker: bool,
    pub subscription: bool,
    pub message: bool,
    pub partition: bool,
}

impl Subsystems {
    /// The empty set.
    pub fn none() -> Subsystems
        ensures { result ≡ none }
    {
        Subsystems::alike(false)
    }

    /// The set of all subsystems.
    pub fn all() -> Subsystems
        ensures { result ≡ all }
    {
        Subsystems::alike(true)
    }

    fn alike(held: bool) -> Subsystems
        ensures { result ≡ each_alike held }
    {
        Subsystems {
            database: held,
            update: held,
            stored_playlist: held,
            playlist: held,
            player: held,
            mixer: held,
            output: held,
            options: held,
            sticker: held,
            subscription: held,
            message: held,
            partition: held,
        }
    }

    /// What either set holds.
    pub fn union(self, other: Subsystems) -> Subsystems
        ensures { result ≡ union self other }
    {
        Subsystems {
            database: self.database | other.database,
            update: self.update | other.update,
            stored_playlist: self.stored_playlist | other.stored_playlist,
            playlist: self.playlist | other.playlist,
            player: self.player | other.player,
            mixer: self.mixer | other.mixer,
            output: self.output | other.output,
            options: self.options | other.options,
            sticker: self.sticker | other.sticker,
            subscription: self.subscription | other.subscription,
            message: self.message | other.message,
            partition: self.partition | other.partition,
        }
    }

    /// What both sets hold.
    pub fn meet(self, other: Subsystems) -> Subsystems
        ensures { result ≡ meet self other }
    {
        Subsystems {
            database: self.database & other.database,
            update: self.update & other.update,
            stored_playlist: self.stored_playlist & other.stored_playlist,
            playlist: self.playlist & other.playlist,
            player: self.player & other.player,
            mixer: self.mixer & other.mixer,
            output: self.output & other.output,
            options: self.options & other.options,
            sticker: self.sticker & other.sticker,
            subscription: self.subscription & other.subscription,
            message: self.message & other.message,
            partition: self.partition & other.partition,
        }
    }

    /// The set with one more subsystem.
    pub fn with(self, subsystem: Subsystem) -> Subsystems
        ensures { result ≡ with_one self subsystem }
    {
        let mut set = self;
        match subsystem {
            Subsystem::Database => set.database = true,
            Subsystem::Update => set.update = true,
            Subsystem::StoredPlaylist => set.stored_playlist = true,
            Subsystem::Playlist => set.playlist = true,
            Subsystem::Player => set.player = true,
            Subsystem::Mixer => set.mixer = true,
            Subsystem::Output => set.output = true,
            Subsystem::Options => set.options = true,
            Subsystem::Sticker => set.sticker = true,
            Subsystem::Subscription => set.subscription = true,
            Subsystem::Message => set.message = true,
            Subsystem::Partition => set.partition = true,
        }
        set
    }

    /// Whether the set holds a subsystem.
    pub fn has(self, subsystem: Subsystem) -> bool
        ensures { result ≡ has self subsystem }
    {
        match subsystem {
            Subsystem::Database => self.database,
            Subsystem::Update => self.update,
            Subsystem::StoredPlaylist => self.stored_playlist,
            Subsystem::Playlist => self.playlist,
            Subsystem::Player => self.player,
            Subsystem::Mixer => self.mixer,
            Subsystem::Output => self.output,
            Subsystem::Options => self.options,
            Subsystem::Sticker => self.sticker,
            Subsystem::Subscription => self.subscription,
            Subsystem::Message => self.message,
            Subsystem::Partition => self.partition,
        }
    }

    /// Whether the set holds nothing.
    pub fn is_empty(self) -> bool
        ensures { result ≡ not (is_nonempty self) }
    {
        !(self.database
            | self.update
            | self.stored_playlist
            | self.playlist
            | self.player
            | self.mixer
            | self.output
            | self.options
            | self.sticker
            | self.subscription
            | self.message
            | self.partition)
    }

    /// Writes the lines `changed: SUBSYSTEM` of a notice, in the order of [`SUBSYSTEMS`].
    pub fn push_lines(self, answer: &mut Answer) -> Result<(), AllocError>
        ensures { OnOk result (answer.new ≡ answer.old ++ changed_lines self) }
    {
        push_each(answer, self, &SUBSYSTEMS)
    }
}

/// Writes the lines of these subsystems, where the set has them.
fn push_each(
    answer: &mut Answer,
    set: Subsystems,
    subsystems: &[Subsystem],
) -> Result<(), AllocError>
    ensures { OnOk result (answer.new ≡ answer.old ++ flat_map (line_in set) subsystems.now) }
{
    for subsystem in subsystems {
        push_line(answer, set, *subsystem)?;
    }
    Ok(())
}

/// Writes the line of one subsystem, where the set has it.
fn push_line(answer: &mut Answer, set: Subsystems, subsystem: Subsystem) -> Result<(), AllocError>
    ensures { OnOk result (answer.new ≡ answer.old ++ line_in set subsystem) }
{
    if set.has(subsystem) {
        answer.pair("changed", subsystem.text())?;
    }
    Ok(())
}

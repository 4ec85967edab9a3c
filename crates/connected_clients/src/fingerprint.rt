//! What tells, before an event and after it, what it changed.
ghost use Rattle.std.specs.Prelude.{◌≡◌, ◌↔◌, ◌&&◌, not, map, IfOk, IsTrue};
ghost use Rattle.std.specs.Option.{option_copied};
ghost use Rattle.connected_clients.specs.Clients.{bytes_of, consume_number as consume_number_lem, id_number as id_number_lem, is_this as is_this_lem, options as options_lem, output_flags as output_flags_lem, playback_number as playback_number_lem, playing as playing_lem, same_flags as same_flags_lem, same_error as same_error_lem, same_playing as same_playing_lem, same_options as same_options_lem, same_outputs as same_outputs_lem, single_number as single_number_lem};
ghost use Rattle.connected_clients.specs.UpToDate.{nothing};
ghost use Rattle.connected_clients.specs.Fingerprint.{changes_subscriptions as changes_subscriptions_lem, common_by_fingerprint, begins_in, fingerprint, has_beyond as has_beyond_lem, has_messages_in, is_among as is_among_lem, is_bringing as is_bringing_lem, is_quiet as is_quiet_lem, messages_begin as messages_begin_lem, outputs_at as outputs_at_lem, outputs_before as outputs_before_lem, outputs_differ as outputs_differ_lem, outputs_differ_elsewhere as outputs_differ_elsewhere_lem, outputs_in as outputs_in_lem, own_by_readings, raised_by_fingerprint, raised_in, readings};
ghost use Rattle.partition_table.specs.Parts.{part_at};

use idle_notes::{Channels, Subsystems};
use partition_table::{Crossing, Parts};
use play_order::{Consume, Modes, Single};
use player_core::{Playback, Player};
use player_state::{Client, CommandEffect, Effect, Library, Outputs, Part};
use std::alloc::{AllocError, Global};
use std::marker::Model;
use transitions::ShelfWrite;

/// Readings before an event, by which it is told afterwards what the event changed: of what is common to all
/// partitions, of the partition of the event, if it is there, and of all partitions which outputs are there and
/// enabled, where an output goes from one to another.
pub struct Fingerprint {
    scans: bool,
    count: usize,
    index: u8,
    own: Option<Readings>,
    outputs: Vec<OutputsAt>,
}

// Written out, so that a proof goes through one call where it lets one go (docs/DECISIONS.md).
impl Drop for Fingerprint {
    fn drop(self) {
        let Fingerprint {
            scans: _,
            count: _,
            index: _,
            own: _,
            outputs: _,
        } = self;
    }
}

impl Model for Fingerprint {
    ghost use Rattle.connected_clients.specs.Fingerprint.{FingerprintData, fingerprint_from};

    ghost Value = { FingerprintData };

    ghost view = { λ s. fingerprint_from s.scans s.count s.index s.own s.outputs.items };
}

/// Readings of one partition.
struct Readings {
    parity: bool,
    playing: PlayingFingerprint,
    volume: u8,
    outputs: OutputFlags,
    options: Options,
    /// The clients for which messages wait.
    having: Vec<u32>,
}

// Written out, so that a proof goes through one call where it lets one go (docs/DECISIONS.md).
impl Drop for Readings {
    fn drop(self) {
        let Readings {
            parity: _,
            playing: _,
            volume: _,
            outputs: _,
            options: _,
            having: _,
        } = self;
    }
}

impl Model for Readings {
    ghost use Rattle.connected_clients.specs.Fingerprint.{PartReadings, readings_from};

    ghost Value = { PartReadings };

    ghost view = { λ s. readings_from s.parity s.playing s.volume s.outputs s.options s.having.items };
}

/// Which of eight outputs are in a partition, and which of these are enabled.
#[derive(Clone, Copy, PartialEq, Eq)]
pub struct OutputFlags {
    pub here: [bool; 8],
    pub enabled: [bool; 8],
}

/// Which outputs are there and enabled in the partition of a number.
#[derive(Clone, Copy, PartialEq, Eq)]
pub struct OutputsAt {
    pub index: u8,
    pub flags: OutputFlags,
}

/// What tells whether what is played changed.
#[derive(Drop)]
struct PlayingFingerprint {
    playback: Playback,
    current: Option<u32>,
    starts: u64,
    cuts: u64,
    error: Option<String>,
}

impl Model for PlayingFingerprint {
    ghost use Rattle.connected_clients.specs.Clients.{Playing, bytes_of, playing_from};

    ghost Value = { Playing };

    ghost view = { λ p. playing_from p.playback p.current p.starts p.cuts (bytes_of p.error) };
}

/// The modes of a player, and the seconds of a fade.
#[derive(Clone, Copy, PartialEq, Eq)]
pub struct Options {
    pub modes: Modes,
    pub crossfade: u32,
}

impl Fingerprint {
    /// The readings before an event of the partition of a number, by which this passes between partitions.
    pub fn of(
        alloc: Global,
        crossing: &Crossing,
        index: u8,
        parts: &Parts,
        library: &Library,
    ) -> Result<Fingerprint, AllocError>
        ensures { IfOk result (λ read. read ≡ fingerprint crossing.now index parts.now library.now) }
    {
        let own = match parts.at(index) {
            Some(part) => Some(Readings::of(alloc, part)?),
            None => None,
        };
        Ok(Fingerprint {
            scans: library.scan.running().is_some(),
            count: parts.len(),
            index,
            own,
            outputs: outputs_before(alloc, crossing, parts)?,
        })
    }

    /// What an event raised, where this client goes to another partition by it, the songs and the
    /// subscriptions differ or not, and this is written to the shelf.
    pub fn changed<'a>(
        &'a self,
        moved_client: Option<u32>,
        database: bool,
        subscription: bool,
        written: &ShelfWrite,
        parts: &'a Parts,
        library: &Library,
    ) -> Raised<'a>
        ensures { result ≡ raised_by_fingerprint moved_client database subscription written.now self.now parts.now library.now }
    {
        let common = self.changed_for_all(database, written, parts, library);
        Raised {
            moved_client,
            common,
            own: own_changes(
                subscription,
                self.own.as_ref(),
                parts.at(self.index),
                common,
            ),
            before: self,
            parts,
        }
    }

    fn changed_for_all(
        &self,
        database: bool,
        written: &ShelfWrite,
        parts: &Parts,
        library: &Library,
    ) -> Subsystems
        ensures { result ≡ common_by_fingerprint database written.now self.now parts.now library.now }
    {
        Subsystems {
            database,
            update: self.scans != library.scan.running().is_some(),
            stored_playlist: written.changes_lists(),
            sticker: written.changes_stickers(),
            partition: self.count != parts.len(),
            ..Subsystems::none()
        }
    }
}

impl Readings {
    fn of(alloc: Global, part: &Part) -> Result<Readings, AllocError>
        ensures { IfOk result (λ read. read ≡ readings part.now) }
    {
        Ok(Readings {
            parity: part.queue.parity(),
            playing: PlayingFingerprint::of(alloc, &part.player)?,
            volume: part.volume.percent(),
            outputs: output_flags(&part.outputs),
            options: options_of(&part.player),
            having: part.channels.clients_with_messages(alloc)?,
        })
    }
}

/// What all hear, and what differs in the event's partition, if it was there before and is there now.
fn own_changes(
    subscription: bool,
    before: Option<&Readings>,
    part: Option<&Part>,
    common: Subsystems,
) -> Subsystems
    ensures { result ≡ own_by_readings subscription (option_copied before.entry) (option_copied part.entry) common }
{
    match (before, part) {
        (Some(before), Some(part)) => Subsystems {
            playlist: before.parity != part.queue.parity(),
            player: !before.playing.are_of(&part.player),
            mixer: before.volume != part.volume.percent(),
            output: !same_outputs(before.outputs, output_flags(&part.outputs)),
            options: !same_options(before.options, options_of(&part.player)),
            subscription,
            ..common
        },
        _ => common,
    }
}

/// Of all partitions which outputs are there and enabled, where an output goes from one to another.
fn outputs_before(
    alloc: Global,
    crossing: &Crossing,
    parts: &Parts,
) -> Result<Vec<OutputsAt>, AllocError>
    ensures { IfOk result (λ list. list.items ≡ outputs_before_lem crossing.now parts.now) }
{
    if is_bringing(crossing) {
        return list_outputs(alloc, parts.items());
    }
    Ok(Vec::new(alloc))
}

fn is_bringing(crossing: &Crossing) -> bool
    ensures { result ≡ is_bringing_lem crossing.now }
{
    matches!(crossing, Crossing::Brings(_, _))
}

fn list_outputs(alloc: Global, parts: &[Part]) -> Result<Vec<OutputsAt>, AllocError>
    ensures { IfOk result (λ list. list.items ≡ map outputs_in_lem parts.now) }
{
    let mut list = Vec::with_capacity(alloc, parts.len())?;
    for part in parts {
        list.push(outputs_in(part))?;
    }
    Ok(list)
}

fn outputs_in(part: &Part) -> OutputsAt
    ensures { result ≡ outputs_in_lem part.now }
{
    OutputsAt {
        index: part.index,
        flags: output_flags(&part.outputs),
    }
}

fn output_flags(outputs: &Outputs) -> OutputFlags
    ensures { result ≡ output_flags_lem outputs.now }
{
    OutputFlags {
        here: outputs.here(),
        enabled: outputs.enabled(),
    }
}

/// What an event raised.
#[derive(Drop)]
pub struct Raised<'a> {
    /// The client that goes to another partition by it.
    moved_client: Option<u32>,
    /// For all.
    common: Subsystems,
    /// For those in the event's partition, messages aside.
    own: Subsystems,
    before: &'a Fingerprint,
    parts: &'a Parts,
}

impl<'a> Model for Raised<'a> {
    ghost use Rattle.connected_clients.specs.Fingerprint.{RaisedData, raised_from};

    ghost Value = { RaisedData };

    ghost view = { λ r. raised_from r.moved_client r.common r.own r.before.now r.parts.now };
}

impl<'a> Raised<'a> {
    /// What it raised for a client.
    pub(crate) fn for_client(&self, client: &Client) -> Subsystems
        ensures { result ≡ raised_in self.now client.now }
    {
        if is_this(self.moved_client, client.number) {
            return Subsystems::all();
        }
        let before = self.before;
        if client.index == before.index {
            return Subsystems {
                message: self.begins_to_have(client.number),
                ..self.own
            };
        }
        Subsystems {
            output: outputs_differ(client.index, &before.outputs, self.parts),
            ..self.common
        }
    }

    /// Whether the first message waits for a client in the event's partition.
    fn begins_to_have(&self, number: u32) -> bool
        ensures { result ≡ begins_in self.now number }
    {
        let before = self.before;
        let part = self.parts.at(before.index);
        match &before.own {
            Some(own) => !is_among(number, &own.having) && has_messages(part, number),
            None => false,
        }
    }

    /// Whether it raised nothing for any client.
    #[tactic(auto, using(crate::proofs::Quiet::quiet_nothing))]
    pub fn is_nothing(&self) -> bool
        ensures quiet { result ≡ is_quiet_lem self.now }
        ensures nothing { IsTrue result ↔ (raised_in self.now ≡ nothing) }
    {
        self.is_quiet()
    }

    fn is_quiet(&self) -> bool
        ensures { result ≡ is_quiet_lem self.now }
    {
        if self.moved_client.is_some() {
            return false;
        }
        let own = Subsystems {
            message: false,
            ..self.own
        };
        let common = Subsystems {
            output: false,
            ..self.common
        };
        own.is_empty()
            && !self.messages_begin()
            && common.is_empty()
            && !self.outputs_differ_elsewhere()
    }

    /// Whether messages wait in the event's partition for clients for which none waited.
    fn messages_begin(&self) -> bool
        ensures { result ≡ messages_begin_lem self.now }
    {
        let before = self.before;
        let part = self.parts.at(before.index);
        match &before.own {
            Some(own) => has_beyond(part, &own.having),
            None => false,
        }
    }

    /// Whether outputs went or came in a partition other than the event's.
    fn outputs_differ_elsewhere(&self) -> bool
        ensures { result ≡ outputs_differ_elsewhere_lem self.now }
    {
        let before = self.before;
        before.outputs.iter().any(|at| {
            at.index != before.index && outputs_differ(at.index, &before.outputs, self.parts)
        })
    }
}

fn is_this(moved_client: Option<u32>, number: u32) -> bool
    ensures { result ≡ is_this_lem moved_client number }
{
    match moved_client {
        Some(this) => this == number,
        None => false,
    }
}

/// Whether messages wait for a client in a partition, if that is there.
fn has_messages(part: Option<&Part>, number: u32) -> bool
    ensures { result ≡ has_messages_in number (option_copied part.entry) }
{
    match part {
        Some(part) => part.channels.has_messages(number),
        None => false,
    }
}

fn has_beyond(part: Option<&Part>, having: &[u32]) -> bool
    ensures { result ≡ has_beyond_lem having.now (option_copied part.entry) }
{
    match part {
        Some(part) => part.channels.has_messages_beyond(having),
        None => false,
    }
}

/// Whether other outputs are in a partition now, or others are enabled in it.
fn outputs_differ(index: u8, before: &[OutputsAt], parts: &Parts) -> bool
    ensures { result ≡ outputs_differ_lem index before.now parts.now }
{
    match (outputs_at(index, before), parts.at(index)) {
        (Some(flags), Some(part)) => !same_outputs(flags, output_flags(&part.outputs)),
        _ => false,
    }
}

/// Which outputs were there and enabled in the first partition of a number.
fn outputs_at(index: u8, before: &[OutputsAt]) -> Option<OutputFlags>
    ensures { result ≡ outputs_at_lem index before.now }
{
    for at in before {
        if at.index == index {
            return Some(at.flags);
        }
    }
    None
}

/// Whether an event makes other clients listen, or to other channels.
pub fn changes_subscriptions(channels: &Channels, effect: &Effect) -> bool
    ensures { result ≡ changes_subscriptions_lem channels.now effect.now }
{
    match effect {
        Effect::ByCommand(CommandEffect::Subscribes(_, _)) => true,
        Effect::ByCommand(CommandEffect::Unsubscribes(client, channel)) => channels.listens(
            *client,
            channel.as_str(),
        ),
        Effect::ByCommand(CommandEffect::Leaves(client)) => channels.is_listening(*client),
        _ => false,
    }
}

fn is_among(number: u32, numbers: &[u32]) -> bool
    ensures { result ≡ is_among_lem number numbers.now }
{
    numbers.iter().any(|other| *other == number)
}

impl PlayingFingerprint {
    fn of(alloc: Global, player: &Player) -> Result<PlayingFingerprint, AllocError>
        ensures { IfOk result (λ read. read ≡ playing_lem player.now) }
    {
        let error = match player.error() {
            Some(text) => Some(String::from_str(alloc, text)?),
            None => None,
        };
        Ok(PlayingFingerprint {
            playback: player.playback(),
            current: player.current(),
            starts: player.starts(),
            cuts: player.cuts(),
            error,
        })
    }

    /// Whether they are a player's now.
    fn are_of(&self, player: &Player) -> bool
        ensures { result ≡ same_playing_lem self.now (playing_lem player.now) }
    {
        playback_number(self.playback) == playback_number(player.playback())
            && id_number(self.current) == id_number(player.current())
            && self.starts == player.starts()
            && self.cuts == player.cuts()
            && same_error(self.error.as_ref(), player.error())
    }
}

fn playback_number(playback: Playback) -> u8
    ensures { result ≡ playback_number_lem playback }
{
    match playback {
        Playback::Stop => 0,
        Playback::Play => 1,
        Playback::Pause => 2,
    }
}

fn id_number(id: Option<u32>) -> u64
    ensures { result ≡ id_number_lem id }
{
    match id {
        Some(id) => u64::from(id) + 1,
        None => 0,
    }
}

fn same_error(first: Option<&String>, second: Option<&str>) -> bool
    ensures { result ≡ same_error_lem (bytes_of (option_copied first.entry)) (option_copied second.entry) }
{
    match (first, second) {
        (None, None) => true,
        (Some(first), Some(second)) => first.as_str() == second,
        _ => false,
    }
}

fn same_outputs(first: OutputFlags, second: OutputFlags) -> bool
    ensures { result ≡ same_outputs_lem first second }
{
    same_flags(&first.here, &second.here) && same_flags(&first.enabled, &second.enabled)
}

#[tactic(auto, unfolding(crate::specs::Clients::same_flags))]
fn same_flags(first: &[bool], second: &[bool]) -> bool
    ensures { result ≡ same_flags_lem first.now second.now }
{
    let mut ones = first;
    let mut others = second;
    while let ([one, more_ones @ ..], [other, more_others @ ..]) = (ones, others) {
        if *one != *other {
            return false;
        }
        ones = more_ones;
        others = more_others;
    }
    ones.is_empty() && others.is_empty()
}

fn options_of(player: &Player) -> Options
    ensures { result ≡ options_lem player.now }
{
    Options {
        modes: player.modes(),
        crossfade: player.crossfade(),
    }
}

fn same_options(first: Options, second: Options) -> bool
    ensures { result ≡ same_options_lem first second }
{
    first.modes.repeat == second.modes.repeat
        && first.modes.random == second.modes.random
        && single_number(first.modes.single) == single_number(second.modes.single)
        && consume_number(first.modes.consume) == consume_number(second.modes.consume)
        && first.crossfade == second.crossfade
}

fn single_number(single: Single) -> u8
    ensures { result ≡ single_number_lem single }
{
    match single {
        Single::Off => 0,
        Single::On => 1,
        Single::Oneshot => 2,
    }
}

fn consume_number(consume: Consume) -> u8
    ensures { result ≡ consume_number_lem consume }
{
    match consume {
        Consume::Off => 0,
        Consume::On => 1,
        Consume::Oneshot => 2,
    }
}

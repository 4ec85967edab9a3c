//! What is kept of a player. Texts are as the player writes them.
ghost use Rattle.std.specs.Prelude.{◌≡◌, false, map, slice_index_or};
ghost use Rattle.kept_state.specs.Outputs.{turned_on};

use mpd_text::Text;

/// A song of the queue.
#[derive(Drop)]
pub struct KeptEntry {
    /// Which song.
    pub uri: Text,
    /// Its priority, 0 to 255.
    pub priority: u32,
}

/// Whether the current song is played, and from where.
#[derive(Drop)]
pub enum KeptPlayback {
    /// It is not.
    Stop,
    /// It is, and so many seconds of it were.
    Play(Text),
    /// It stands still after so many seconds.
    Pause(Text),
}

/// The current song.
#[derive(Drop)]
pub struct KeptSong {
    pub entry: KeptEntry,
    pub playback: KeptPlayback,
}

/// An output.
#[derive(Clone, Copy)]
pub struct KeptOutput {
    /// Its number, from 0.
    pub number: u32,
    /// Whether it is on.
    pub is_on: bool,
}

/// The volume, the modes and the cross-fade.
#[derive(Drop)]
pub struct KeptOptions {
    /// 0 to 100.
    pub volume: Text,
    /// Whether the queue begins anew at its end, 0 or 1.
    pub repeat: Text,
    /// Whether the order is random, 0 or 1.
    pub random: Text,
    /// Whether it ends after a song: 0, 1 or `oneshot`.
    pub single: Text,
    /// Whether a song that was played leaves the queue: 0, 1 or `oneshot`.
    pub consume: Text,
    /// How many seconds songs are faded into one another.
    pub crossfade: Text,
}

/// What is kept of a player.
#[derive(Drop)]
pub struct Kept {
    pub options: KeptOptions,
    pub outputs: Vec<KeptOutput>,
    /// The songs of the queue before the current one; where there is no current one, all of them.
    pub before: Vec<KeptEntry>,
    pub song: Option<KeptSong>,
    /// The songs after the current one.
    pub after: Vec<KeptEntry>,
}

impl Kept {
    ghost use Rattle.std.specs.Prelude.{◌≡◌, map};
    ghost use Rattle.kept_state.specs.Outputs.{turned_on, plays};

    /// Whether a song is played.
    pub fn is_played(&self) -> bool
        ensures { result ≡ plays self.now.song }
    {
        match &self.song {
            Some(song) => matches!(&song.playback, KeptPlayback::Play(_)),
            None => false,
        }
    }

    /// Has the outputs on that are named, by their numbers.
    pub fn switch_on(&mut self, named: [bool; 8])
        ensures outputs { self.new.outputs.items ≡ map (turned_on named) self.old.outputs.items }
        ensures others { self.new ≡ record self.old { outputs = self.new.outputs } }
    {
        switch_all(&mut self.outputs, &named);
    }
}

fn switch_all(outputs: &mut [KeptOutput], named: &[bool; 8])
    ensures { outputs.new ≡ map (turned_on named.now) outputs.old }
{
    for output in outputs.iter_mut() {
        turn_on(output, named);
    }
}

fn turn_on(output: &mut KeptOutput, named: &[bool; 8])
    ensures { output.new ≡ turned_on named.now output.old }
{
    output.is_on = output.is_on || is_named(named, output.number as usize);
}

fn is_named(named: &[bool; 8], number: usize) -> bool
    ensures { result ≡ slice_index_or named.now number false }
{
    named.get(number).copied().unwrap_or(false)
}

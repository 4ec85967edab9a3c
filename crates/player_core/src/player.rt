//! The player, what can be read of it, and its plain settings.
ghost use Rattle.std.specs.Prelude.{◌≡◌, ◌<◌, IfOk, true};
ghost use Rattle.std.specs.Option.{option_copied};
ghost use Rattle.song_queue.specs.State.{queue_of};
ghost use Rattle.rand_core.specs.Pcg32Seed.{pcg32_seed};
ghost use Rattle.rand_pcg.specs.Pcg.{pcg32_of_seed};
ghost use Rattle.player_core.specs.Player as player;
ghost use Rattle.player_core.specs.Steps as steps;

mod decoding;
mod edits;
mod endings;
mod entries;
mod fades;
mod starts;
mod transport;

use crate::state::{Fade, Job, Playback};
use play_order::{Consume, Modes, Round, Single, entry_with};
use song_queue::{Entry, Queue};
use std::alloc::{AllocError, Global};
use std::marker::Model;

/// A player beside the queue that it plays. A clause sees a record: modes, round, playback, current song,
/// offset, numbers of starts, cuts and jobs, job, fade and error.
#[derive(Drop)]
pub struct Player {
    alloc: Global,
    modes: Modes,
    round: Round,
    crossfade: u32,
    playback: Playback,
    current: Option<u32>,
    offset: u64,
    starts: u64,
    cuts: u64,
    error: Option<String>,
    jobs: u64,
    job: Option<Job>,
    fade: Option<Fade>,
    gave_up: bool,
    max_cut: u64,
}

impl Model for Player {
    ghost use Rattle.player_core.specs.Fields.{state_in};
    ghost use Rattle.player_core.specs.Player.{PlayerState, IsPlayer};

    ghost Value = { PlayerState };

    ghost view = { state_in };

    ghost invariant = { λ p. IsPlayer (state_in p) };
}

impl Player {
    /// A stopped player beside an empty queue, whose ranks are drawn by a generator made of this seed. Its
    /// numbers of cuts, starts and jobs are at most `max_cut`.
    pub fn new(alloc: Global, seed: u64, max_cut: u64) -> Player
        requires { max_cut < 9223372036854775808 }
        ensures { result ≡ player.opened max_cut (pcg32_of_seed (pcg32_seed 16 seed)) }
    {
        Player {
            alloc,
            modes: Modes {
                repeat: false,
                random: false,
                single: Single::Off,
                consume: Consume::Off,
            },
            round: Round::new(alloc, seed),
            crossfade: 0,
            playback: Playback::Stop,
            current: None,
            offset: 0,
            starts: 0,
            cuts: 0,
            error: None,
            jobs: 0,
            job: None,
            fade: None,
            gave_up: false,
            max_cut,
        }
    }

    /// The player a second time: what becomes of either leaves the other as it is.
    pub fn image(&self) -> Result<Player, AllocError>
        ensures { IfOk result (λ image. image ≡ self.now) }
    {
        let error = match &self.error {
            Some(error) => Some(error.clone()?),
            None => None,
        };
        Ok(Player {
            alloc: self.alloc,
            modes: self.modes,
            round: self.round.image()?,
            crossfade: self.crossfade,
            playback: self.playback,
            current: self.current,
            offset: self.offset,
            starts: self.starts,
            cuts: self.cuts,
            error,
            jobs: self.jobs,
            job: self.job,
            fade: self.fade,
            gave_up: self.gave_up,
            max_cut: self.max_cut,
        })
    }

    /// How the player goes through the queue.
    pub fn modes(&self) -> Modes
        ensures { result ≡ self.now.modes }
    {
        self.modes
    }

    /// Whether songs are played.
    pub fn playback(&self) -> Playback
        ensures { result ≡ self.now.playback }
    {
        self.playback
    }

    /// The id of the current song.
    pub fn current(&self) -> Option<u32>
        ensures { result ≡ self.now.current }
    {
        self.current
    }

    /// How many frames of the current song were accepted.
    pub fn offset(&self) -> u64
        ensures { result ≡ self.now.offset }
    {
        self.offset
    }

    /// What went wrong, until a song starts or it is cleared.
    pub fn error(&self) -> Option<&str>
        ensures { option_copied result ≡ self.now.error }
    {
        match &self.error {
            Some(error) => Some(error.as_str()),
            None => None,
        }
    }

    /// The seconds of a fade; 0 for none.
    pub fn crossfade(&self) -> u32
        ensures { result ≡ self.now.crossfade }
    {
        self.crossfade
    }

    /// How often frames that were handed on were no longer to be heard.
    pub fn cuts(&self) -> u64
        ensures cuts { result ≡ self.now.cuts }

        // Numbers are within their limit.
        ensures legal { player.is_within self.now ≡ true }
        ensures limit { self.now.max_cut < 9223372036854775808 }
    {
        self.cuts
    }

    /// The greatest number of cuts, starts and jobs.
    pub fn max_cut(&self) -> u64
        ensures { result ≡ self.now.max_cut }
    {
        self.max_cut
    }

    /// How many songs have started.
    pub fn starts(&self) -> u64
        ensures { result ≡ self.now.starts }
    {
        self.starts
    }

    /// The number of the last job.
    pub fn jobs(&self) -> u64
        ensures { result ≡ self.now.jobs }
    {
        self.jobs
    }

    /// What the natural end of the current song would start, where no new round is needed. It takes no
    /// memory.
    pub fn peek<'a>(&self, queue: &'a Queue) -> Option<&'a Entry>
        ensures { option_copied result ≡ steps.peek self.now (queue_of queue.now) }
    {
        match self.current {
            Some(id) => self.round.peek(self.modes, queue, id),
            None => None,
        }
    }

    /// The entry of the current song, if it is in the queue.
    pub fn current_entry<'a>(&self, queue: &'a Queue) -> Option<&'a Entry>
        ensures { option_copied result ≡ steps.current_entry self.now (queue_of queue.now) }
    {
        match self.current {
            Some(id) => entry_with(queue, id),
            None => None,
        }
    }

    /// Whether the order begins anew at its end.
    pub fn set_repeat(&mut self, on: bool)
        ensures { self.new ≡ steps.set_repeat self.old on }
    {
        self.modes.repeat = on;
    }

    /// Whether the player stops after a song.
    pub fn set_single(&mut self, single: Single)
        ensures { self.new ≡ steps.set_single self.old single }
    {
        self.modes.single = single;
    }

    /// Whether a song that ends is taken out of the queue.
    pub fn set_consume(&mut self, consume: Consume)
        ensures { self.new ≡ steps.set_consume self.old consume }
    {
        self.modes.consume = consume;
    }

    /// The seconds of fades that are fixed from now on; 0 for none.
    pub fn set_crossfade(&mut self, seconds: u32)
        ensures { self.new ≡ steps.set_crossfade self.old seconds }
    {
        self.crossfade = seconds;
    }

    /// Nothing went wrong.
    pub fn clear_error(&mut self)
        ensures { self.new ≡ steps.clear_error self.old }
    {
        self.error = None;
    }
}

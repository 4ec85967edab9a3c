//! The steps that clients make while the queue stays.
ghost use Rattle.std.specs.Prelude.{◌≡◌, is_some, IsOkUnless, OnOk, OnErr};
ghost use Rattle.std.specs.Option.{option_copied};
ghost use Rattle.song_queue.specs.State.{queue_of};
ghost use Rattle.play_order.specs.Order.{opening_of};
ghost use Rattle.player_core.specs.declared.state.Playback.TheVariants.{Play};
ghost use Rattle.player_core.specs.Player as player;
ghost use Rattle.player_core.specs.Player.{IsRefusedAtLimit};
ghost use Rattle.player_core.specs.Steps as steps;

use crate::fault::PlayerFault;
use crate::player::Player;
use crate::state::Playback;
use play_order::{Modes, entry_with};
use song_queue::{Entry, Queue};
use std::alloc::AllocError;

impl Player {
    /// The player stops. It takes no memory.
    pub fn stop(&mut self) -> Result<(), PlayerFault>
        ensures ok { OnOk result (self.new ≡ steps.stop self.old) }
        ensures limit { IsRefusedAtLimit result (steps.stop self.old) }
        ensures faults { IsOkUnless result PlayerFault.CutsAtLimit }
        ensures err { OnErr result (self.new ≡ self.old) }
    {
        if self.playback == Playback::Stop {
            return Ok(());
        }
        if self.ends_cuts(false) {
            return Err(PlayerFault::CutsAtLimit);
        }
        self.halt(self.current);
        self.cut();
        Ok(())
    }

    /// Pauses, or plays on.
    pub fn pause(&mut self, on: bool)
        ensures { self.new ≡ steps.pause self.old on }
    {
        if self.playback != Playback::Stop {
            self.playback = if on { Playback::Pause } else { Playback::Play };
        }
    }

    /// Pauses where the player plays, and plays on where it is paused.
    pub fn toggle_pause(&mut self)
        ensures { self.new ≡ steps.toggle_pause self.old }
    {
        let is_paused = self.playback == Playback::Pause;
        self.pause(!is_paused);
    }

    /// An entry of the queue starts.
    pub fn play_entry(&mut self, entry: &Entry) -> Result<(), PlayerFault>
        ensures ok { OnOk result (self.new ≡ steps.play_entry self.old entry.now) }
        ensures limit { IsRefusedAtLimit result (steps.play_entry self.old entry.now) }
        ensures err { OnErr result (self.new ≡ self.old) }
    {
        self.start(Playback::Play, entry.id, 0)
    }

    /// Seeks to a frame of an entry of the queue, at most to its end.
    pub fn seek(&mut self, entry: &Entry, frame: u64) -> Result<(), PlayerFault>
        ensures ok { OnOk result (self.new ≡ steps.seek self.old entry.now frame) }
        ensures limit { IsRefusedAtLimit result (steps.seek self.old entry.now frame) }
        ensures err { OnErr result (self.new ≡ self.old) }
    {
        let offset = frame.min(entry.song.song().frames());
        let playback = playing_or_paused(self.playback);
        if self.current != Some(entry.id) {
            return self.start(playback, entry.id, offset);
        }
        if self.ends_cuts(false) {
            return Err(PlayerFault::CutsAtLimit);
        }
        self.cuts += 1;
        self.playback = playback;
        self.offset = offset;
        self.job = None;
        self.fade = None;
        self.gave_up = false;
        Ok(())
    }

    /// Plays on, or begins with the current song, or where the order does.
    pub fn play(&mut self, queue: &Queue) -> Result<(), PlayerFault>
        ensures ok { OnOk result (self.new ≡ steps.play self.old (queue_of queue.now)) }
        ensures limit { IsRefusedAtLimit result (steps.play self.old (queue_of queue.now)) }
        ensures err { OnErr result (self.new ≡ self.old) }
    {
        match self.playback {
            Playback::Stop => self.begin(queue),
            Playback::Play | Playback::Pause => {
                self.playback = Playback::Play;
                Ok(())
            }
        }
    }

    /// Begins with the current song, or where the order does.
    fn begin(&mut self, queue: &Queue) -> Result<(), PlayerFault>
        ensures ok { OnOk result (self.new ≡ steps.begin self.old (queue_of queue.now) self.old.current) }
        ensures limit { IsRefusedAtLimit result (steps.begin self.old (queue_of queue.now) self.old.current) }
        ensures err { OnErr result (self.new ≡ self.old) }
    {
        match self.current {
            Some(id) => self.start_found(entry_with(queue, id)),
            None => self.open_order(queue),
        }
    }

    /// Starts an entry that was looked for.
    fn start_found(&mut self, entry: Option<&Entry>) -> Result<(), PlayerFault>
        ensures ok { OnOk result (self.new ≡ steps.start_found self.old Play (option_copied entry.entry)) }
        ensures limit { IsRefusedAtLimit result (steps.start_found self.old Play (option_copied entry.entry)) }
        ensures err { OnErr result (self.new ≡ self.old) }
    {
        // A field is read, so that the numbers are known to be within their limit.
        let _ = &self.max_cut;
        match entry {
            Some(entry) => self.play_entry(entry),
            None => Ok(()),
        }
    }

    /// Begins where the order does.
    fn open_order(&mut self, queue: &Queue) -> Result<(), PlayerFault>
        ensures ok { OnOk result (self.new ≡ steps.open_order self.old (queue_of queue.now)) }
        ensures limit { IsRefusedAtLimit result (steps.open_order self.old (queue_of queue.now)) }
        ensures err { OnErr result (self.new ≡ self.old) }
    {
        if self.ends_by_hand(self.opens(queue)) {
            return Err(PlayerFault::CutsAtLimit);
        }
        let starts = self.round.opening(self.modes, queue)?;
        self.start_by_hand(Playback::Play, starts, 0);
        Ok(())
    }

    /// Whether there is an entry to begin with. An opening is what comes next with repeat when nothing is
    /// taken out.
    fn opens(&self, queue: &Queue) -> bool
        ensures { result ≡ is_some (opening_of self.now.modes self.now.round (queue_of queue.now)) }
    {
        let repeating = Modes {
            repeat: true,
            ..self.modes
        };
        self.round.starts_after_removal(repeating, queue, 0..0)
    }

    /// Plays what is before the current song; nothing where there is none.
    pub fn previous(&mut self, queue: &Queue) -> Result<(), PlayerFault>
        ensures ok { OnOk result (self.new ≡ steps.previous self.old (queue_of queue.now)) }
        ensures limit { IsRefusedAtLimit result (steps.previous self.old (queue_of queue.now)) }
        ensures err { OnErr result (self.new ≡ self.old) }
    {
        let Some(id) = self.current else {
            return Ok(());
        };
        let starts = self.round.before(self.modes, queue, id).is_some();
        if self.ends_by_hand(starts) {
            return Err(PlayerFault::CutsAtLimit);
        }
        let starts = self.round.after_previous(self.modes, queue, id)?;
        self.start_by_hand(Playback::Play, starts, 0);
        Ok(())
    }

    /// Turns random order on or off; where it is as wished, nothing changes.
    pub fn set_random(&mut self, queue: &Queue, on: bool) -> Result<(), AllocError>
        ensures ok { OnOk result (self.new ≡ steps.random self.old (queue_of queue.now) on) }
        ensures err { OnErr result (self.new ≡ self.old) }
    {
        if on == self.modes.random {
            return Ok(());
        }
        if on {
            self.round.randomized(queue, self.current)?;
        } else {
            self.round.emptied();
        }
        self.modes.random = on;
        Ok(())
    }
}

fn playing_or_paused(playback: Playback) -> Playback
    ensures { result ≡ player.playing_or_paused playback }
{
    match playback {
        Playback::Stop | Playback::Play => Playback::Play,
        Playback::Pause => Playback::Pause,
    }
}

//! How songs start and stop: the parts of steps.
ghost use Rattle.std.specs.Prelude.{◌≡◌, ◌<◌, false, is_some, OnOk, OnErr};
ghost use Rattle.player_core.specs.Player as player;
ghost use Rattle.player_core.specs.Player.{IsRefusedAtLimit};
ghost use Rattle.player_core.specs.Steps as steps;
ghost use Rattle.player_core.specs.Limits as limits;

use crate::fault::PlayerFault;
use crate::player::Player;
use crate::state::Playback;

impl Player {
    /// Whether a cut, with a start or without, would raise a number above its limit.
    pub(super) fn ends_cuts(&self, starts: bool) -> bool
        ensures { result ≡ limits.ends_cuts self.now starts }
    {
        self.cuts == self.max_cut || self.ends_starts(starts)
    }

    /// Whether a start, if there is one, would raise a number above its limit.
    pub(super) fn ends_starts(&self, starts: bool) -> bool
        ensures { result ≡ limits.ends_starts self.now starts }
    {
        starts && self.starts == self.max_cut
    }

    /// Whether a start by hand, if there is one, would raise a number above its limit.
    pub(super) fn ends_by_hand(&self, starts: bool) -> bool
        ensures { result ≡ limits.ends_by_hand self.now starts }
    {
        starts && self.ends_cuts(true)
    }

    /// The entry with an id starts at an offset.
    fn set_current(&mut self, playback: Playback, id: u32, offset: u64)
        requires { self.old.starts < self.old.max_cut }
        ensures { self.new ≡ player.started self.old playback id offset }
    {
        self.playback = playback;
        self.current = Some(id);
        self.offset = offset;
        self.starts += 1;
        self.error = None;
        self.job = None;
        self.fade = None;
        self.gave_up = false;
    }

    /// The player stops, with this current song.
    pub(super) fn halt(&mut self, current: Option<u32>)
        ensures { self.new ≡ player.halted self.old current }
    {
        self.playback = Playback::Stop;
        self.current = current;
        self.job = None;
        self.fade = None;
    }

    /// Frames that were handed on are no longer to be heard.
    pub(super) fn cut(&mut self)
        requires { self.old.cuts < self.old.max_cut }
        ensures { self.new ≡ player.cut self.old }
    {
        self.cuts += 1;
    }

    /// A fade is given up.
    pub(super) fn give_up_fade(&mut self)
        ensures { self.new ≡ player.given_up self.old }
    {
        self.job = None;
        self.fade = None;
        self.gave_up = true;
    }

    /// An entry starts at an offset, or the player stops where there is none.
    pub(super) fn go_on(
        &mut self,
        playback: Playback,
        starts: Option<u32>,
        offset: u64,
        current: Option<u32>,
    )
        requires { limits.ends_starts self.old (is_some starts) ≡ false }
        ensures { self.new ≡ player.goes_on self.old playback starts offset current }
    {
        // A field is read, so that the numbers are known to be within their limit.
        let _ = &self.max_cut;
        match starts {
            Some(id) => self.set_current(playback, id, offset),
            None => self.halt(current),
        }
    }

    /// An entry starts by hand, if there is one.
    pub(super) fn start_by_hand(&mut self, playback: Playback, starts: Option<u32>, offset: u64)
        requires { limits.ends_by_hand self.old (is_some starts) ≡ false }
        ensures { self.new ≡ player.starts_by_hand self.old playback starts offset }
    {
        // A field is read, so that the numbers are known to be within their limit.
        let _ = &self.max_cut;
        if let Some(id) = starts {
            self.set_current(playback, id, offset);
            self.cut();
        }
    }

    /// The entry with an id starts by hand.
    pub(super) fn start(
        &mut self,
        playback: Playback,
        id: u32,
        offset: u64,
    ) -> Result<(), PlayerFault>
        ensures ok { OnOk result (self.new ≡ steps.start self.old playback id offset) }
        ensures limit { IsRefusedAtLimit result (steps.start self.old playback id offset) }
        ensures err { OnErr result (self.new ≡ self.old) }
    {
        if self.ends_by_hand(true) {
            return Err(PlayerFault::CutsAtLimit);
        }
        self.round.started(self.modes, id)?;
        self.start_by_hand(playback, Some(id), offset);
        Ok(())
    }
}

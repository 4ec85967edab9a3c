//! How songs end, by `next` or by themselves.
ghost use Rattle.std.specs.Prelude.{◌≡◌, OnOk, OnErr};
ghost use Rattle.player_core.specs.Player.{IsRefusedAtLimit};
ghost use Rattle.player_core.specs.Steps as steps;

use crate::fault::PlayerFault;
use crate::player::Player;
use crate::state::Playback;
use song_queue::Queue;

impl Player {
    /// Ends the current song as if single were off, and plays what follows.
    pub fn next(&mut self, queue: &mut Queue) -> Result<(), PlayerFault>
        ensures ok { OnOk result (self.new ≡ (steps.after_next self.old queue.old).player) }
        ensures queue { OnOk result (queue.new ≡ (steps.after_next self.old queue.old).queue) }
        ensures limit { IsRefusedAtLimit result (steps.after_next self.old queue.old).player }
        ensures err { OnErr result (self.new ≡ self.old) }
        ensures err_queue { OnErr result (queue.new ≡ queue.old) }
    {
        let Some(id) = self.current else {
            return Ok(());
        };
        let starts = self.round.starts_after_next(self.modes, queue, id);
        if self.ends_cuts(starts) {
            return Err(PlayerFault::CutsAtLimit);
        }
        let ending = self.round.after_next(self.modes, queue, id)?;
        self.modes = ending.modes;
        self.go_on(Playback::Play, ending.starts, 0, ending.current);
        self.cut();
        Ok(())
    }

    /// The current song, which has this id, ends by itself, and what follows starts at an offset. So many
    /// frames of the song were accepted.
    pub(super) fn end(
        &mut self,
        queue: &mut Queue,
        id: u32,
        accepted: u64,
        offset: u64,
    ) -> Result<(), PlayerFault>
        ensures ok { OnOk result (self.new ≡ (steps.after_end self.old queue.old accepted id offset).player) }
        ensures queue { OnOk result (queue.new ≡ (steps.after_end self.old queue.old accepted id offset).queue) }
        ensures limit { IsRefusedAtLimit result (steps.after_end self.old queue.old accepted id offset).player }
        ensures err { OnErr result (self.new ≡ self.old) }
        ensures err_queue { OnErr result (queue.new ≡ queue.old) }
    {
        let starts = self.round.starts_after_end(self.modes, queue, id);
        if self.ends_starts(starts) {
            return Err(PlayerFault::CutsAtLimit);
        }
        let ending = self.round.after_end(self.modes, queue, id)?;
        self.modes = ending.modes;
        self.job = None;
        self.offset = accepted;
        self.go_on(self.playback, ending.starts, offset, ending.current);
        Ok(())
    }
}

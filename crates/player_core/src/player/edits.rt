//! Edits of the queue that the order of play takes part in.
ghost use Rattle.std.specs.Prelude.{◌≡◌, ◌≤◌, length, OnOk, OnErr};
ghost use Rattle.song_queue.specs.State.{queue_of, inserted as inserted_in, removed as removed_from};
ghost use Rattle.song_queue.specs.declared.edit.Edit.TheVariants.{Insert};
ghost use Rattle.song_queue.specs.Laws.{Takes};
ghost use Rattle.play_order.specs.Queues.{shuffled_by};
ghost use Rattle.player_core.specs.Player.{IsRefusedAtLimit};
ghost use Rattle.player_core.specs.Steps as steps;

use crate::fault::PlayerFault;
use crate::player::Player;
use crate::player::entries::holds_current;
use crate::state::Playback;
use mpd_text::Sequence;
use song_db::SharedSong;
use song_queue::Queue;
use std::alloc::AllocError;
use std::ops::Range;

impl Player {
    /// Puts songs into a queue that can take them, and each of the new entries draws a rank. Where memory runs
    /// out, nothing changes.
    pub fn insert(
        &mut self,
        queue: &mut Queue,
        at: usize,
        songs: Sequence<SharedSong>,
    ) -> Result<(), AllocError>
        requires { Takes queue.old (Insert at songs) }
        ensures ok { OnOk result (self.new ≡ steps.inserted self.old queue.old songs) }
        ensures queue { OnOk result (queue.new ≡ inserted_in queue.old at songs) }
        ensures err { OnErr result (self.new ≡ self.old) }
        ensures err_queue { OnErr result (queue.new ≡ queue.old) }
    {
        self.round.insert(queue, at, songs)
    }

    /// Shuffles the entries of a range of the queue. Where memory runs out, nothing changes.
    pub fn shuffle(&mut self, queue: &mut Queue, range: Range<usize>) -> Result<(), AllocError>
        requires order { range.start ≤ range.end }
        requires within { range.end ≤ length (queue_of queue.old) }
        ensures ok { OnOk result (self.new ≡ steps.shuffled self.old range.start range.end) }
        ensures queue { OnOk result (queue.new ≡ shuffled_by self.old.round queue.old range.start range.end) }
        ensures err { OnErr result (self.new ≡ self.old) }
        ensures err_queue { OnErr result (queue.new ≡ queue.old) }
    {
        self.round.shuffle(queue, range)
    }

    /// Takes the entries of a range out of the queue. Where the current song is among them, what comes next
    /// starts, or the player stops.
    pub fn remove(&mut self, queue: &mut Queue, range: Range<usize>) -> Result<(), PlayerFault>
        requires order { range.start ≤ range.end }
        requires within { range.end ≤ length (queue_of queue.old) }
        ensures ok { OnOk result (self.new ≡ steps.removed self.old (queue_of queue.old) range.start range.end) }
        ensures queue { OnOk result (queue.new ≡ removed_from queue.old range.start range.end) }
        ensures limit { IsRefusedAtLimit result (steps.removed self.old (queue_of queue.old) range.start range.end) }
        ensures err { OnErr result (self.new ≡ self.old) }
        ensures err_queue { OnErr result (queue.new ≡ queue.old) }
    {
        let Range { start, end } = range;
        if holds_current(queue, self.current, start, end) {
            return self.remove_current(queue, start, end);
        }
        self.round.remove(queue, start..end)?;
        Ok(())
    }

    /// Takes the entries from a position up to another out of the queue, of which one is the current song.
    fn remove_current(
        &mut self,
        queue: &mut Queue,
        start: usize,
        end: usize,
    ) -> Result<(), PlayerFault>
        requires order { start ≤ end }
        requires within { end ≤ length (queue_of queue.old) }
        ensures ok { OnOk result (self.new ≡ steps.goes_on_without self.old (queue_of queue.old) start end) }
        ensures queue { OnOk result (queue.new ≡ removed_from queue.old start end) }
        ensures limit { IsRefusedAtLimit result (steps.goes_on_without self.old (queue_of queue.old) start end) }
        ensures err { OnErr result (self.new ≡ self.old) }
        ensures err_queue { OnErr result (queue.new ≡ queue.old) }
    {
        if self.playback == Playback::Stop {
            self.round.remove(queue, start..end)?;
            self.current = None;
            return Ok(());
        }
        let starts = self
            .round
            .starts_after_removal(self.modes, queue, start..end);
        if self.ends_cuts(starts) {
            return Err(PlayerFault::CutsAtLimit);
        }
        let starts = self.round.after_removal(self.modes, queue, start..end)?;
        self.go_on(self.playback, starts, 0, None);
        self.cut();
        Ok(())
    }
}

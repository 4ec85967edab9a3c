//! Edits of the queue as values, so that what is to be done can be found out before it is done.
ghost use Rattle.std.specs.Prelude.{◌≡◌, OnOk, OnErr};
ghost use Rattle.song_queue.specs.Laws.{Takes, state_after_edit};

use crate::queue::{Queue, QueueFault};
use mpd_text::Sequence;
use song_db::SharedSong;
use std::alloc::AllocError;
use std::ops::Range;

/// An edit of the queue.
#[derive(Drop)]
pub enum Edit {
    /// Songs are put in before the entry at a position, or at the end.
    Insert(usize, Sequence<SharedSong>),
    /// The entries from a start up to an end are taken out.
    Remove(usize, usize),
    /// The entries from a start up to an end are put back at a position of the queue without them.
    Move(usize, usize, usize),
    /// The entries in some ranges get a priority.
    Prioritize(Sequence<Range<usize>>, u8),
    /// The entries at two positions change round.
    Swap(usize, usize),
    /// The entries from a start up to an end are shuffled by words.
    Shuffle(usize, usize, Sequence<u32>),
}

impl Queue {
    /// Makes an edit that the queue can take. It fails only for memory, and then changes nothing.
    pub fn edit(&mut self, edit: Edit) -> Result<(), AllocError>
        requires { Takes self.old edit }
        ensures ok { OnOk result (self.new ≡ state_after_edit self.old edit) }
        ensures err { OnErr result (self.new ≡ self.old) }
    {
        let made = match edit {
            Edit::Insert(at, songs) => self.insert(at, songs.into_items()),
            Edit::Remove(start, end) => self.remove(start..end),
            Edit::Move(start, end, to) => self.move_range(start..end, to),
            Edit::Prioritize(ranges, priority) => self.set_prio(ranges.items(), priority),
            Edit::Swap(a, b) => self.swap(a, b),
            Edit::Shuffle(start, end, words) => self.shuffle(start..end, words.items()),
        };
        match made {
            Ok(()) => Ok(()),
            Err(QueueFault::NoMemory) => Err(AllocError),
            Err(_) => unreachable!(),
        }
    }
}

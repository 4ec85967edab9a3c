//! Songs that are open of a partition, while another has its turn.
ghost use Rattle.std.specs.Prelude.{ℕ, ◌≡◌, ◌<◌, IfSome, None, false, length, true, vec_capacity, vec_len};
ghost use Rattle.crew_steps.specs.OpenSongs.{AreMeant, AreNone, ExchangesMeant, StayMeant};
ghost use Rattle.crew_steps.specs.Rounds.{has_number};

use crate::open_song::OpenSong;
use crate::rounds::is_there;
use counted_devices::Media;
use std::mem;

/// The current song of a partition and its partner in a fade, as far as they are open.
#[derive(Drop)]
pub(crate) struct PartSongs<M: Media + Drop> {
    /// The number of the partition.
    pub(crate) index: u8,
    pub(crate) current: Option<OpenSong<M>>,
    pub(crate) partner: Option<OpenSong<M>>,
}

impl<M: Media + Drop> PartSongs<M> {
    /// None is open.
    pub(crate) fn none(index: u8) -> PartSongs<M>
        ensures { (result.current ≡ None) × (result.partner ≡ None) }
    {
        PartSongs {
            index,
            current: None,
            partner: None,
        }
    }
}

/// Where the songs of the partition of a number are, if they are there.
fn position_of<M: Media + Drop>(songs: &[PartSongs<M>], index: u8) -> Option<usize>
    ensures { IfSome result (λ at. at < length songs.now) }
{
    songs.iter().position(|songs| songs.index == index)
}

/// Puts songs to the others, and takes out those of the partition of a number, if some are there. There is room.
pub(crate) fn exchange<M: Media + Drop>(
    others: &mut Vec<PartSongs<M>>,
    left: PartSongs<M>,
    index: u8,
) -> PartSongs<M>
    requires { vec_len others.old < vec_capacity others.old }
    ensures { ExchangesMeant others.old.items left others.new.items result }
{
    match position_of(others, index) {
        Some(at) => mem::replace(&mut others[at], left),
        None => {
            others.push_reserved(left);
            PartSongs::none(index)
        }
    }
}

/// Closes the songs of the partitions that are gone: of sixteen numbers these are of one.
pub(crate) fn close_gone<M: Media + Drop>(
    others: &mut Vec<PartSongs<M>>,
    present_partitions: [bool; 16],
)
    ensures { StayMeant others.old.items others.new.items }
{
    for i in 0..others.len() {
        close_one_gone(&mut others[i], present_partitions);
    }
}

/// Closes the songs of a partition if it is gone.
fn close_one_gone<M: Media + Drop>(songs: &mut PartSongs<M>, present_partitions: [bool; 16])
    ensures closed { has_number present_partitions songs.old.index ≡ false → AreNone songs.new }
    ensures kept { has_number present_partitions songs.old.index ≡ true → songs.new ≡ songs.old }
    ensures meant { (rate : ℕ) → AreMeant rate songs.old → AreMeant rate songs.new }
{
    if is_there(present_partitions, songs.index) {
        return;
    }
    songs.current = None;
    songs.partner = None;
}

//! A command list under the lock, with room for the notices that it gives.
ghost use Rattle.std.specs.Prelude.{◌≡◌, [], IfErr, IfOk, map, slice_index_or};
ghost use Rattle.house.specs.Counts.{MayFind, done_in};
ghost use Rattle.house.specs.Seats.{after_events};
ghost use Rattle.house.specs.Lists.{StopsAmid, TellsAll, notices_in, unbegun as unbegun_lem};
ghost use Rattle.house.specs.Player.{Halts, KeepsFrames, Runs};
ghost use Rattle.house.specs.Waiting.{HasRoomFor};

use crate::ledgers::Ledgers;
use crate::player::Core;
use crate::seat::Seat;
use command_lists::ListForm;
use mpd_command::Request;
use partition::{ListFault, ListOutcome, PartitionFault, first_name};
use shelf::Shelf;
use std::alloc::Global;

impl<L: Ledgers> Core<L> {
    /// The commands of a client's list. There is room for their notices after those that wait, and they bring
    /// no frames.
    pub(crate) fn run_list<S: Shelf>(
        &mut self,
        alloc: Global,
        seat: &mut Seat<L>,
        shelf: &mut S,
        client: u32,
        form: ListForm,
        list: Vec<Request>,
    ) -> Result<ListOutcome, ListFault>
        ensures found { MayFind seat.old self.old.counted }
        ensures ok { Runs S.Shelf self.old self.new shelf.old shelf.new seat.old client form list result }
        ensures err { Halts S.Shelf self.old self.new shelf.old shelf.new seat.old client form list result }
        ensures made { seat.new ≡ after_events seat.old (done_in result) }
        ensures books { KeepsFrames self.old.counted self.new.counted }
        ensures waiting { self.new.waiting.items ≡ self.old.waiting.items }
        ensures room { IfOk result (λ tolds. HasRoomFor self.new.waiting (notices_in tolds)) }
        ensures room_then { IfErr result (λ stop. HasRoomFor self.new.waiting (notices_in stop.tolds)) }
        ensures somewhere { IfOk result (TellsAll S.Shelf shelf.old shelf.new seat.old client form list) }
        ensures stopped { IfErr result (StopsAmid S.Shelf shelf.old shelf.new seat.old client form list) }
    {
        if self.begin(seat).is_err() {
            return Err(unbegun(alloc, &list));
        }
        self.counted.run_list(seat, shelf, client, form, list)
    }
}

/// A list that stops before its first command, for lack of memory.
fn unbegun(alloc: Global, requests: &[Request]) -> ListFault
    ensures { result ≡ unbegun_lem requests.now }
{
    ListFault {
        done: 0,
        outcomes: Vec::new(alloc),
        command: first_name(requests),
        cause: PartitionFault::NoMemory,
    }
}

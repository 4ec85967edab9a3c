//! Command lists under one taking of the lock.
use crate::answered::AnsweredList;
use crate::changes::note_change;
use crate::held::Held;
use crate::ledgers::Ledgers;
use crate::seat::Seat;
use crate::waiting::{put_each, take_first};
use command_lists::ListForm;
use mpd_command::Request;
use partition::ListFault;
use shelf::Shelf;

impl<L: Ledgers> Held<L> {
    ghost use Rattle.house.specs.Views.{KeepsBooks};
    ghost use Rattle.std.specs.Prelude.{◌≡◌, length, IfErr, IfOk, IfSome};
    ghost use Rattle.partition.specs.Legal.{IsPast};
    ghost use Rattle.house.specs.Lists.{Halts, HandsAll, Runs, StopsAmid};
    ghost use Rattle.house.specs.Lists.{WaitAfterList, WaitAfterStop};
    ghost use Rattle.house.specs.Seats.{after_events};
    ghost use Rattle.house.specs.Counts.{IsCounted};
    ghost use Rattle.house.specs.Waiting.{first_for};

    /// The commands of a client's list, one after the other in the history with no other event between them,
    /// up to the first that ends the list. The client's waiting notice is handed out in front of the answers.
    ///
    /// # Errors
    ///
    /// As [`Partition::run_list`]: the commands before the one that was refused stand, and a notice that
    /// waits goes on waiting.
    pub fn list<S: Shelf>(
        &mut self,
        seat: &mut Seat<L>,
        shelf: &mut S,
        client: u32,
        form: ListForm,
        list: Vec<Request>,
    ) -> Result<AnsweredList, ListFault>
        ensures found { IsCounted seat.old self.old.player }
        ensures legal { IsPast self.old.player }
        ensures ok { Runs S.Shelf self.old self.new shelf.old shelf.new seat.old client form list result }
        ensures err { Halts S.Shelf self.old self.new shelf.old shelf.new seat.old client form list result }
        ensures front { IfOk result (λ a. a.front ≡ first_for client self.old.waiting) }
        ensures own { IfOk result (λ a. IfSome a.front (λ notice. notice.client ≡ client)) }
        ensures waiting { IfOk result (WaitAfterList client self.old.waiting self.new.waiting) }
        ensures kept { IfErr result (WaitAfterStop self.old.waiting self.new.waiting) }
        ensures made { IfOk result (λ a. seat.new ≡ after_events seat.old (length a.tolds)) }
        ensures done { IfErr result (λ stop. seat.new ≡ after_events seat.old stop.done) }
        ensures books { KeepsBooks self.old self.new }
        ensures somewhere { IfOk result (HandsAll S.Shelf shelf.old shelf.new seat.old client form list) }
        ensures stopped { IfErr result (StopsAmid S.Shelf shelf.old shelf.new seat.old client form list) }
    {
        let core = &mut self.core;
        let end = core.run_list(self.alloc, seat, shelf, client, form, list);
        note_change(&mut core.changes, &mut core.seen, &core.counted, false);
        match end {
            Ok(outcome) => {
                let front = take_first(&mut core.waiting, client);
                put_each(&mut core.waiting, outcome.outcomes());
                Ok(AnsweredList { front, outcome })
            }
            Err(fault) => {
                put_each(&mut core.waiting, &fault.outcomes);
                Err(fault)
            }
        }
    }
}

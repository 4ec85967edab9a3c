//! What a session does, over its parts.
//!
//! Bytes come as a socket gives them, and go as it takes them, so a turn of a conversation may stop at any
//! of them: within a line, within a list, within an answer. What is in between is kept in four places: a
//! piece that was read and is not split, lines that are not run, the commands of a list that is not
//! complete, and the bytes that are not written. The invariant is that these, with what was answered, are
//! all that the client sent, in its order: no cut of the bytes into pieces changes what is answered.
//!
//! Memory may lack at each of these steps. Then what was done stays done and the rest waits in its place
//! for the next turn: a line is run once, whatever becomes of its answer. No more is read while lines wait,
//! and no more is run while the client takes too little, so one that asks and never reads costs a bounded
//! piece of memory, and is closed.
ghost use Rattle.std.specs.Prelude.{◌≡◌, ◌≢◌, ◌<◌, ◌≤◌, ◌+◌, []};
ghost use Rattle.std.specs.Prelude.{Some, None, true, false, OnOk, OnErr, IfOk, is_ok, length, take};
ghost use Rattle.std.specs.Io.KnownBytes.{Appends, Consumes};
ghost use Rattle.mpd_text.specs.Lines.Cut.{split_from};
ghost use Rattle.mpd_session.specs.Answers.{Answers, caller};
ghost use Rattle.mpd_session.specs.Owing.{is_nothing, waits_after};
ghost use Rattle.mpd_session.specs.Requests.{is_over};
ghost use Rattle.mpd_session.specs.declared.end.End.{End};
ghost use Rattle.mpd_session.specs.Conversations.{AreLinesOf, HasFailedIf, IsEndOfFault};
ghost use Rattle.mpd_session.specs.Conversations.{IsUnsplitOrUnasked, SaysBy, SendsFrom, WritesUnsent};
ghost use Rattle.mpd_session.specs.Conversations.{WritesWhole};
ghost use Rattle.mpd_session.specs.Devices.{EndsByReader, NeverFails, ReadEnds, StaysSound};
ghost use Rattle.mpd_session.specs.Devices.{is_given_up as is_given_up_lem};
ghost use Rattle.mpd_session.specs.Sessions.{Blames, BlamesNone, BlamesReader, BlamesWriter};
ghost use Rattle.mpd_session.specs.Sessions.{EndsByWrite, EndsForLongLine, EndsWithoutBytes, FailsOnlyBy};
ghost use Rattle.mpd_session.specs.Sessions.{FailsAsItsWriter, HasMore, HasNoLongLine, StopsShort};
ghost use Rattle.mpd_session.specs.Sessions.{KeepsAllButRead, KeepsAllButSplit, KeepsAllButTold, ReadsInto};
ghost use Rattle.mpd_session.specs.Sessions.{Runs, TellsOf, Turns};
ghost use Rattle.mpd_session.specs.Sessions.{coming, held_of, pending_of, session_of, side};
ghost use Rattle.mpd_session.specs.Sessions.{end_by as end_by_lem, end_in_list as end_in_list_lem};

use crate::asker::Asker;
use crate::asking::ask;
use crate::end::End;
use crate::gatherer::Gatherer;
use crate::owed::Owed;
use crate::unsent::Unsent;
use counted_devices::{Sink, Source};
use house::{House, Ledgers, Seat};
use mpd_text::{Line, SplitFault, Splitter};
use shelf::Shelf;
use std::alloc::{AllocError, Global};
use std::collections::VecDeque;
use std::io::ErrorKind;
use std::sync::Wait;
use transitions::Next;

/// The most bytes that are held unsent after a turn (this profile's).
const MAX_UNSENT: usize = 16_777_216;

/// How many bytes a turn reads at most. What the lines in so many bytes ask for is what others may have to
/// wait for.
const PIECE: usize = 4_096;

/// What a session has: of its client's bytes what is not answered, and of its answers what is not written.
pub(crate) struct Conversation {
    pub(crate) alloc: Global,
    pub(crate) asker: Asker,
    /// What was read and is not split, for lack of memory.
    pub(crate) piece: Vec<u8>,
    pub(crate) splitter: Splitter,
    /// Lines that are not run, for lack of memory.
    pub(crate) lines: VecDeque<Line>,
    pub(crate) gatherer: Gatherer,
    pub(crate) owed: Owed,
    pub(crate) unsent: Unsent,
    pub(crate) ended: Option<End>,
    /// Whether its client may wait for a notice.
    pub(crate) waits: bool,
}

// Written out, so that a proof goes through one call where it lets one go (docs/DECISIONS.md).
impl Drop for Conversation {
    fn drop(self) {
        let Conversation {
            alloc: _,
            asker: _,
            piece: _,
            splitter: _,
            lines: _,
            gatherer: _,
            owed: _,
            unsent: _,
            ended: _,
            waits: _,
        } = self;
    }
}

impl Conversation {
    /// Reads once, and runs the lines that this ends.
    pub(crate) fn hear<L: Ledgers, I: Source, O: Sink, S: Shelf, R: Wait>(
        &mut self,
        rt: &R,
        reader: &mut I,
        writer: &mut O,
        house: &House<L>,
        seat: &mut Seat<L>,
        shelf: &mut S,
    ) -> Result<(), AllocError>
        requires goes { self.old.ended ≡ None }
        requires open { is_over self.old.gatherer ≡ false }
        ensures asker { self.new.asker ≡ self.old.asker }
        ensures open { self.new.ended ≡ None → is_over self.new.gatherer ≡ false }
        ensures nothing { is_ok result ≡ true → is_nothing self.new.owed ≡ true }
        ensures long { is_ok result ≡ true → HasNoLongLine self.new }
        ensures more { OnErr result (StopsShort I.call_counts self.new reader.old reader.new) }
        ensures turns { Turns (Answers S.standing S.failed self.old.asker)
            (side (held_of self.old) seat.old shelf.old (I.remaining reader.old) (O.contents writer.old))
            (side (held_of self.new) seat.new shelf.new (I.remaining reader.new) (O.contents writer.new)) }
        ensures all { OnOk result (self.new.ended ≡ None → self.new.lines.items ≡ []) }
        ensures calm { (O.call_counts writer.old).failures ≤ (O.call_counts writer.new).failures }
        ensures blamed { Blames self.new.ended
            (I.call_counts reader.old) (I.call_counts reader.new)
            (O.call_counts writer.old) (O.call_counts writer.new) }
        ensures reader { EndsByReader self.new.ended (I.call_counts reader.old) (I.call_counts reader.new) }
        ensures sound { StaysSound self.new.ended (O.call_counts writer.old) (O.call_counts writer.new) }
    {
        self.flush()?;
        self.tell(rt, house)?;
        self.take_in(reader)?;
        if self.ended.is_some() {
            return Ok(());
        }
        self.run(rt, writer, house, seat, shelf)
    }

    /// Reads once where nothing waits, and splits what was read.
    fn take_in<I: Source>(&mut self, reader: &mut I) -> Result<(), AllocError>
        requires { self.old.ended ≡ None }
        ensures frame { KeepsAllButRead self.old self.new }
        ensures more { OnErr result (IsUnsplitOrUnasked I.call_counts self.new reader.old reader.new) }
        ensures reads { ReadsInto self.old (I.remaining reader.old) self.new (I.remaining reader.new) }
        ensures blamed { BlamesReader self.new.ended (I.call_counts reader.old) (I.call_counts reader.new) }
        ensures reader { EndsByReader self.new.ended (I.call_counts reader.old) (I.call_counts reader.new) }
    {
        if !self.lines.is_empty() {
            return Ok(());
        }
        self.read(reader)?;
        self.split()
    }

    /// Reads once, but not where a piece waits to be split.
    fn read<I: Source>(&mut self, reader: &mut I) -> Result<(), AllocError>
        requires goes { self.old.ended ≡ None }
        requires lines { self.old.lines.items ≡ [] }
        ensures frame { self.new ≡ record self.old { piece = self.new.piece; ended = self.new.ended } }
        ensures unasked { OnErr result (I.call_counts reader.new ≡ I.call_counts reader.old) }
        ensures reads { ReadsInto self.old (I.remaining reader.old) self.new (I.remaining reader.new) }
        ensures blamed { BlamesReader self.new.ended (I.call_counts reader.old) (I.call_counts reader.new) }
        ensures reader { EndsByReader self.new.ended (I.call_counts reader.old) (I.call_counts reader.new) }
    {
        if !self.piece.is_empty() {
            return Ok(());
        }
        self.piece.resize(PIECE, 0)?;
        let Got { count, end } = read_some(reader, self.piece.as_mut_slice());
        self.piece.truncate(count);
        self.ended = end;
        Ok(())
    }

    /// Puts what is owed after the unsent bytes.
    pub(crate) fn flush(&mut self) -> Result<(), AllocError>
        ensures frame { self.new ≡ record self.old { unsent = self.new.unsent; owed = self.new.owed } }
        ensures held { held_of self.new ≡ held_of self.old }
        ensures owes { OnErr result (is_nothing self.new.owed ≡ false) }
        ensures nothing { OnOk result (is_nothing self.new.owed ≡ true) }
    {
        self.unsent.push(&self.owed)?;
        self.owed = Owed::Nothing;
        Ok(())
    }

    /// Takes the notice that waits; where its client waits for none, no lock is taken for it.
    fn tell<L: Ledgers, R: Wait>(&mut self, rt: &R, house: &House<L>) -> Result<(), AllocError>
        requires { is_nothing self.old.owed ≡ true }
        ensures frame { KeepsAllButTold self.old self.new }
        ensures told { TellsOf (held_of self.old).unsent (held_of self.new).unsent }
        ensures owes { OnErr result (is_nothing self.new.owed ≡ false) }
        ensures nothing { OnOk result (is_nothing self.new.owed ≡ true) }
    {
        if !self.waits {
            return Ok(());
        }
        let notice = house.outbox(rt, self.asker.client);
        self.waits = notice.is_none();
        self.owed = Owed::of_notice(notice);
        self.flush()
    }

    /// Splits what was read into lines.
    fn split(&mut self) -> Result<(), AllocError>
        requires { self.old.lines.items ≡ [] }
        ensures frame { KeepsAllButSplit self.old self.new }
        ensures coming { coming (pending_of self.new) ≡ coming (pending_of self.old) }
        ensures all { OnOk result (self.new.piece.items ≡ []) }
        ensures more { OnErr result (self.new.piece.items ≢ []) }
    {
        if self.piece.is_empty() {
            return Ok(());
        }
        let lines = split_piece(&mut self.splitter, self.piece.as_slice())?;
        self.lines = VecDeque::from(lines);
        self.piece.clear();
        Ok(())
    }

    /// Runs the lines that wait.
    fn run<L: Ledgers, O: Sink, S: Shelf, R: Wait>(
        &mut self,
        rt: &R,
        writer: &mut O,
        house: &House<L>,
        seat: &mut Seat<L>,
        shelf: &mut S,
    ) -> Result<(), AllocError>
        requires goes { self.old.ended ≡ None }
        requires open { is_over self.old.gatherer ≡ false }
        requires nothing { is_nothing self.old.owed ≡ true }
        ensures asker { self.new.asker ≡ self.old.asker }
        ensures open { self.new.ended ≡ None → is_over self.new.gatherer ≡ false }
        ensures nothing { OnOk result (is_nothing self.new.owed ≡ true) }
        ensures long { OnOk result (HasNoLongLine self.new) }
        ensures more { OnErr result (HasMore (session_of self.new)) }
        ensures runs { Runs (Answers S.standing S.failed self.old.asker)
            (held_of self.old) (caller seat.old shelf.old) (O.contents writer.old)
            (held_of self.new) (caller seat.new shelf.new) (O.contents writer.new) }
        ensures all { OnOk result (self.new.ended ≡ None → self.new.lines.items ≡ []) }
        ensures calm { (O.call_counts writer.old).failures ≤ (O.call_counts writer.new).failures }
        ensures blamed { BlamesWriter self.new.ended (O.call_counts writer.old) (O.call_counts writer.new) }
        ensures sound { StaysSound self.new.ended (O.call_counts writer.old) (O.call_counts writer.new) }
    {
        while self.has_work() {
            self.step(rt, house, seat, shelf)?;
            if self.unsent.as_slice().len() > MAX_UNSENT {
                self.send(writer);
            }
        }
        self.end_lines();
        Ok(())
    }

    /// Whether a line waits in an open session.
    fn has_work(&self) -> bool
        ensures works { result ≡ true → (self.now.ended ≡ None) × (self.now.lines.items ≢ []) }
        ensures rests { result ≡ false → self.now.ended ≡ None → self.now.lines.items ≡ [] }
    {
        self.ended.is_none() && !self.lines.is_empty()
    }

    /// Closes an open session where a line was too long, once all lines before it are run.
    fn end_lines(&mut self)
        requires { self.old.ended ≡ None → self.old.lines.items ≡ [] }
        ensures frame { self.new ≡ record self.old { ended = self.new.ended } }
        ensures long { HasNoLongLine self.new }
        ensures ends { EndsForLongLine self.old self.new }
    {
        if self.ended.is_none() && self.piece.is_empty() && self.splitter.is_closed() {
            self.ended = Some(End::LongLine);
        }
    }

    /// Takes the first line that waits, and runs what it completes.
    fn step<L: Ledgers, S: Shelf, R: Wait>(
        &mut self,
        rt: &R,
        house: &House<L>,
        seat: &mut Seat<L>,
        shelf: &mut S,
    ) -> Result<(), AllocError>
        requires goes { self.old.ended ≡ None }
        requires open { is_over self.old.gatherer ≡ false }
        requires nothing { is_nothing self.old.owed ≡ true }
        requires some { self.old.lines.items ≢ [] }
        ensures asker { self.new.asker ≡ self.old.asker }
        ensures open { self.new.ended ≡ None → is_over self.new.gatherer ≡ false }
        ensures says { SaysBy S.Shelf self.old self.new seat.old seat.new shelf.old shelf.new }
        ensures nothing { OnOk result (is_nothing self.new.owed ≡ true) }
        ensures shorter { OnOk result (length self.new.lines.items + 1 ≡ length self.old.lines.items) }
        ensures piece { self.new.piece ≡ self.old.piece }
        ensures more { OnErr result (HasMore (session_of self.new)) }
        ensures blameless { BlamesNone self.new.ended }
    {
        let Some(asked) = self.gatherer.take(self.alloc, &mut self.lines)? else {
            self.ended = end_in_list(self.gatherer.is_over());
            return Ok(());
        };
        let owed = ask(rt, self.alloc, house, seat, shelf, self.asker, &asked);
        wait_on(&mut self.waits, &owed);
        self.ended = end_by(owed.next());
        self.owed = owed;
        self.flush()
    }

    /// Writes until the writer would block, but not where that was given up.
    pub(crate) fn send<O: Sink>(&mut self, writer: &mut O)
        ensures frame { self.new ≡ record self.old { unsent = self.new.unsent; ended = self.new.ended } }
        ensures stays { self.new.ended ≡ None → self.old.ended ≡ None }
        ensures few { self.new.ended ≡ None → length self.new.unsent ≤ 16777216 }
        ensures sends { SendsFrom self.old (O.contents writer.old) self.new (O.contents writer.new) }
        ensures failed { FailsAsItsWriter O.call_counts self.old self.new writer.old writer.new }
        ensures calm { (O.call_counts writer.old).failures ≤ (O.call_counts writer.new).failures }
        ensures sound { StaysSound self.new.ended (O.call_counts writer.old) (O.call_counts writer.new) }
        ensures writes { WritesUnsent self.new (O.call_counts writer.old) (O.call_counts writer.new) }
    {
        if is_given_up(self.ended) {
            return;
        }
        let Sent { count, failed } = send_some(writer, self.unsent.as_slice());
        self.unsent.drop_front(count);
        self.ended = end_after(self.ended, failed, self.unsent.as_slice());
    }
}

/// How many bytes a reader gave, and whether it ended or failed.
#[derive(Clone, Copy)]
struct Got {
    count: usize,
    end: Option<End>,
}

/// Reads once. To read nothing from a reader that would block is no fault.
fn read_some<I: Source>(reader: &mut I, buf: &mut [u8]) -> Got
    ensures count { result.count ≤ length buf.new }
    ensures bytes { Consumes (I.remaining reader.old) (I.remaining reader.new) (take result.count buf.new) }
    ensures ends { EndsWithoutBytes result.count result.end }
    ensures blamed { BlamesReader result.end (I.call_counts reader.old) (I.call_counts reader.new) }
    ensures cause { ReadEnds result.count result.end (I.call_counts reader.old) (I.call_counts reader.new) }
{
    match reader.read_some(buf) {
        Ok(0) => Got {
            count: 0,
            end: Some(End::NoPeer),
        },
        Ok(count) => Got { count, end: None },
        Err(fault) => Got {
            count: 0,
            end: end_of_fault(fault.kind()),
        },
    }
}

/// The end by a read that failed so.
fn end_of_fault(fault: ErrorKind) -> Option<End>
    ensures { IsEndOfFault fault result }
{
    if is_failure(fault) {
        Some(End::ReadFault)
    } else {
        None
    }
}

/// Whether a device failed, and did not only have to wait.
fn is_failure(fault: ErrorKind) -> bool
    ensures failed { result ≡ true → fault ≢ ErrorKind.WouldBlock }
    ensures waits { result ≡ false → fault ≡ ErrorKind.WouldBlock }
{
    fault != ErrorKind::WouldBlock
}

/// The lines that the piece ends, also where a longer one comes after them.
fn split_piece(splitter: &mut Splitter, piece: &[u8]) -> Result<Vec<Line>, AllocError>
    ensures lines { IfOk result (AreLinesOf splitter.old piece.now) }
    ensures next { OnOk result (splitter.new ≡ (split_from splitter.old piece.now).next) }
    ensures err { OnErr result (splitter.new ≡ splitter.old) }
{
    match splitter.feed(piece) {
        Ok(lines) => Ok(lines),
        Err(SplitFault::LineTooLong(lines)) => Ok(lines),
        Err(SplitFault::NoMemory) => Err(AllocError),
    }
}

/// Whether nothing more is written to a session's client.
fn is_given_up(ended: Option<End>) -> bool
    ensures writes { result ≡ false → ended ≢ Some End.Unsent }
    ensures closed { result ≡ true → ended ≢ None }
    ensures given_up { result ≡ is_given_up_lem ended }
{
    matches!(ended, Some(End::Unsent | End::WriteFault))
}

/// Whether a client waits for a notice after an answer: an empty list neither begins nor ends a wait.
fn wait_on(waits: &mut bool, owed: &Owed)
    ensures { waits.new ≡ waits_after owed.now waits.old }
{
    *waits = owed.leaves_waiting(*waits);
}

/// The end of a session by what becomes of its client after an answer.
fn end_by(next: Next) -> Option<End>
    ensures end { result ≡ end_by_lem next }
    ensures blameless { BlamesNone result }
{
    match next {
        Next::Goes | Next::Waits => None,
        Next::Closes => Some(End::Left),
        Next::Kills => Some(End::Killed),
    }
}

/// The end of a session by a list that is too large.
fn end_in_list(is_over: bool) -> Option<End>
    ensures end { result ≡ end_in_list_lem is_over }
    ensures blameless { BlamesNone result }
{
    if is_over { Some(End::LargeList) } else { None }
}

/// The end of a session after a write that leaves these bytes.
fn end_after(ended: Option<End>, failed: bool, left: &[u8]) -> Option<End>
    ensures stays { result ≡ None → ended ≡ None }
    ensures few { result ≡ None → length left.now ≤ 16777216 }
    ensures end { EndsByWrite ended result left.now }
    ensures failed { FailsOnlyBy failed ended result }
    ensures fails { failed ≡ true → ended ≡ None → result ≡ Some End.WriteFault }
{
    if ended.is_some() {
        return ended;
    }
    if failed {
        return Some(End::WriteFault);
    }
    if left.len() > MAX_UNSENT {
        return Some(End::Unsent);
    }
    None
}

/// How many bytes a writer took, and whether it failed then.
#[derive(Clone, Copy)]
struct Sent {
    count: usize,
    failed: bool,
}

/// Writes until the writer would block or fails.
fn send_some<O: Sink>(writer: &mut O, bytes: &[u8]) -> Sent
    ensures count { result.count ≤ length bytes.now }
    ensures written { Appends (O.contents writer.old) (O.contents writer.new) (take result.count bytes.now) }
    ensures failed { HasFailedIf result.failed (O.call_counts writer.old) (O.call_counts writer.new) }
    ensures calm { (O.call_counts writer.old).failures ≤ (O.call_counts writer.new).failures }
    ensures sound { result.failed ≡ false →
        NeverFails (O.call_counts writer.old) (O.call_counts writer.new) }
    ensures all { WritesWhole O.call_counts result.count bytes.now writer.old writer.new }
{
    let mut count = 0;
    while count < bytes.len() {
        match writer.write_some(&bytes[count..]) {
            Ok(0) => return Sent {
                count,
                failed: true,
            },
            Ok(n) => count += n,
            Err(fault) => {
                let failed = is_failure(fault.kind());
                return Sent { count, failed };
            }
        }
    }
    Sent {
        count,
        failed: false,
    }
}

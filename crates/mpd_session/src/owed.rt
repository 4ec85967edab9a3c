//! What a session owes its client and has not yet put after its unsent bytes, for lack of memory.
ghost use Rattle.std.specs.Prelude.{◌≡◌, ◌++◌, false, IfOk, OnErr, OnOk};
ghost use Rattle.mpd_session.specs.Answers.{list_end};
ghost use Rattle.mpd_session.specs.Notices.{notice_bytes, notice_text};
ghost use Rattle.mpd_session.specs.Owing.{AddsFault, Grows, line_bytes, list_bytes, next_by, owed_bytes};
ghost use Rattle.mpd_session.specs.Owing.{is_nothing as is_nothing_lem, waits_after};

use connected_clients::Notice;
use house::{Answered, AnsweredList};
use mpd_text::{Answer, ErrorNumber};
use partition::{ListFault, PartitionFault};
use std::alloc::{AllocError, Global};
use transitions::Next;

/// Bytes for the client. To hold them takes no memory.
pub enum Owed {
    Nothing,
    /// A notice alone.
    Notice(Notice),
    /// The answer to a line.
    Line(Answered),
    /// The answer to a list, and the place of the first of its lines that could not be read for lack of
    /// memory.
    List(AnsweredList, Option<usize>),
    /// An empty list is answered without an event.
    EmptyList,
    /// Why a line, which names this command if it names one, made no event.
    LineFault(&'static str, PartitionFault),
    /// Why a list stopped.
    ListFault(ListFault),
}

// Written out, so that a proof goes through one call where it lets one go (docs/DECISIONS.md).
impl Drop for Owed {
    fn drop(self) {
        match self {
            Owed::Nothing
            | Owed::Notice(_)
            | Owed::Line(_)
            | Owed::List(_, _)
            | Owed::EmptyList
            | Owed::LineFault(_, _)
            | Owed::ListFault(_) => {}
        }
    }
}

impl Owed {
    pub fn of_notice(notice: Option<Notice>) -> Owed
        ensures { owed_bytes result ≡ notice_bytes notice }
    {
        match notice {
            Some(notice) => Owed::Notice(notice),
            None => Owed::Nothing,
        }
    }

    pub fn is_nothing(&self) -> bool
        ensures { result ≡ is_nothing_lem self.now }
    {
        matches!(self, Owed::Nothing)
    }

    /// What becomes of its client.
    pub fn next(&self) -> Next
        ensures { result ≡ next_by self.now }
    {
        match self {
            Owed::Line(answered) => answered.reply().next(),
            Owed::List(answered, _) => answered.answers().next(),
            Owed::Nothing
            | Owed::Notice(_)
            | Owed::EmptyList
            | Owed::LineFault(_, _)
            | Owed::ListFault(_) => Next::Goes,
        }
    }

    /// Whether its client waits for a notice once this is its answer; whether it waited before is given.
    pub fn leaves_waiting(&self, waited: bool) -> bool
        ensures { result ≡ waits_after self.now waited }
    {
        match self {
            Owed::Line(answered) => matches!(answered.reply().next(), Next::Waits),
            _ => waited,
        }
    }

    /// Its bytes, after others. Without memory nothing changes.
    pub fn push_to(&self, alloc: Global, bytes: &mut Vec<u8>) -> Result<(), AllocError>
        ensures ok { OnOk result (bytes.new.items ≡ bytes.old.items ++ owed_bytes self.now) }
        ensures err { OnErr result (bytes.new.items ≡ bytes.old.items) }
        ensures some { OnErr result (is_nothing_lem self.now ≡ false) }
    {
        let before = bytes.len();
        let pushed = self.push_some_to(alloc, bytes);
        if pushed.is_err() {
            bytes.truncate(before);
        }
        pushed
    }

    /// The same, but that without memory the first of them may stand there.
    fn push_some_to(&self, alloc: Global, bytes: &mut Vec<u8>) -> Result<(), AllocError>
        ensures ok { OnOk result (bytes.new.items ≡ bytes.old.items ++ owed_bytes self.now) }
        ensures err { OnErr result (Grows bytes.old.items bytes.new.items) }
        ensures some { OnErr result (is_nothing_lem self.now ≡ false) }
    {
        match self {
            Owed::Nothing => Ok(()),
            Owed::Notice(notice) => push_notice(alloc, *notice, bytes),
            Owed::Line(answered) => push_line(alloc, answered, bytes),
            Owed::List(answered, unread) => push_list(alloc, answered, *unread, bytes),
            Owed::EmptyList => bytes.extend_from_slice(b"OK\n"),
            Owed::LineFault(command, fault) => push_fault(alloc, command, *fault, bytes),
            Owed::ListFault(fault) => fault.push_text(alloc, bytes),
        }
    }
}

fn push_notice(alloc: Global, notice: Notice, bytes: &mut Vec<u8>) -> Result<(), AllocError>
    ensures ok { OnOk result (bytes.new.items ≡ bytes.old.items ++ notice_text notice) }
    ensures err { OnErr result (bytes.new.items ≡ bytes.old.items) }
{
    let mut answer = Answer::new(alloc);
    notice.names.push_lines(&mut answer)?;
    answer.ok()?;
    bytes.extend_from_slice(answer.bytes())
}

/// The notice that waited, if one did.
fn push_front(alloc: Global, front: Option<Notice>, bytes: &mut Vec<u8>) -> Result<(), AllocError>
    ensures ok { OnOk result (bytes.new.items ≡ bytes.old.items ++ notice_bytes front) }
    ensures err { OnErr result (bytes.new.items ≡ bytes.old.items) }
{
    match front {
        Some(notice) => push_notice(alloc, notice, bytes),
        None => Ok(()),
    }
}

/// The answer to a line, with the notice that waited in front.
fn push_line(alloc: Global, answered: &Answered, bytes: &mut Vec<u8>) -> Result<(), AllocError>
    ensures ok { OnOk result (bytes.new.items ≡ bytes.old.items ++ line_bytes answered.now) }
    ensures err { OnErr result (Grows bytes.old.items bytes.new.items) }
{
    let front = answered.front();
    push_front(alloc, front, bytes)?;
    bytes.extend_from_slice(answered.reply().text().as_bytes())
}

/// The answers of a list, with the notice that waited in front, and after them their end where all succeeded.
fn push_list(
    alloc: Global,
    answered: &AnsweredList,
    unread: Option<usize>,
    bytes: &mut Vec<u8>,
) -> Result<(), AllocError>
    ensures ok { OnOk result (bytes.new.items ≡ bytes.old.items ++ list_bytes answered.now unread) }
    ensures err { OnErr result (Grows bytes.old.items bytes.new.items) }
{
    let end = end_of(alloc, unread)?;
    push_front(alloc, answered.front(), bytes)?;
    answered.answers().push_text_with(end.as_str(), bytes)
}

/// What follows the answers of a list where all succeed.
fn end_of(alloc: Global, unread: Option<usize>) -> Result<Answer, AllocError>
    ensures { IfOk result (λ end. end ≡ list_end unread) }
{
    let mut end = Answer::new(alloc);
    match unread {
        Some(place) => end.ack(
            ErrorNumber::System,
            place,
            "",
            PartitionFault::NoMemory.text(),
        )?,
        None => end.ok()?,
    }
    Ok(end)
}

/// The line of a line that made no event.
fn push_fault(
    alloc: Global,
    command: &str,
    fault: PartitionFault,
    bytes: &mut Vec<u8>,
) -> Result<(), AllocError>
    ensures ok { OnOk result (AddsFault bytes.old.items bytes.new.items command.now fault) }
    ensures err { OnErr result (bytes.new.items ≡ bytes.old.items) }
{
    let mut answer = Answer::new(alloc);
    answer.ack(ErrorNumber::System, 0, command, fault.text())?;
    bytes.extend_from_slice(answer.bytes())
}

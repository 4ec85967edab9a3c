//! What a session asks the house.
ghost use Rattle.std.specs.Prelude.{◌≡◌, IfOk, OnErr, OnOk};
ghost use Rattle.std.specs.Option.{option_copied};
ghost use Rattle.mpd_session.specs.Answers.{AddsRead, IsRead, read_line as read_line_of};
ghost use Rattle.mpd_session.specs.Owing.{Owes, OwesLine, OwesList};
ghost use Rattle.mpd_session.specs.Requests.{asking_of};

use crate::asker::Asker;
use crate::gatherer::{ClientRequest, text_of};
use crate::owed::Owed;
use command_lists::{CommandList, ListLine};
use house::{House, Ledgers, Seat};
use mpd_command::{Ack, CommandSet, Request};
use mpd_text::{ErrorNumber, Text};
use partition::PartitionFault;
use shelf::Shelf;
use std::alloc::{AllocError, Global};
use std::sync::Wait;

/// Asks the house, and gives what is owed for that.
pub fn ask<L: Ledgers, S: Shelf, R: Wait>(
    rt: &R,
    alloc: Global,
    house: &House<L>,
    seat: &mut Seat<L>,
    shelf: &mut S,
    asker: Asker,
    asked: &ClientRequest,
) -> Owed
    ensures { Owes S.Shelf asker seat.old shelf.old (asking_of asked.now) result seat.new shelf.new }
{
    match asked {
        ClientRequest::Single(line) => ask_line(
            rt,
            alloc,
            house,
            seat,
            shelf,
            asker,
            text_of(line),
        ),
        ClientRequest::Whole(list) => ask_list(rt, alloc, house, seat, shelf, asker, list),
    }
}

/// Asks for the answer to a line; `None` is one that is not UTF-8. Where there is no memory to read it, that
/// is the answer.
fn ask_line<L: Ledgers, S: Shelf, R: Wait>(
    rt: &R,
    alloc: Global,
    house: &House<L>,
    seat: &mut Seat<L>,
    shelf: &mut S,
    asker: Asker,
    line: Option<&str>,
) -> Owed
    ensures { OwesLine S.Shelf asker seat.old shelf.old (option_copied line.entry) result seat.new shelf.new }
{
    let Ok(request) = read_line(alloc, asker.commands, line) else {
        return Owed::LineFault("", PartitionFault::NoMemory);
    };
    let name = request.name();
    match house.command(rt, seat, shelf, asker.client, request) {
        Ok(answered) => Owed::Line(answered),
        Err(fault) => Owed::LineFault(name, fault),
    }
}

/// Asks for the answer to a list. An empty one makes no event.
fn ask_list<L: Ledgers, S: Shelf, R: Wait>(
    rt: &R,
    alloc: Global,
    house: &House<L>,
    seat: &mut Seat<L>,
    shelf: &mut S,
    asker: Asker,
    list: &CommandList,
) -> Owed
    ensures { OwesList S.Shelf asker seat.old shelf.old list.now result seat.new shelf.new }
{
    let lines = list.lines.items();
    if lines.is_empty() {
        return Owed::EmptyList;
    }
    let (requests, unread) = read_all(alloc, asker.commands, lines);
    match house.list(rt, seat, shelf, asker.client, list.form, requests) {
        Ok(answered) => Owed::List(answered, unread),
        Err(fault) => Owed::ListFault(fault),
    }
}

/// What a line asks for; `None` is one that is not UTF-8.
fn read_line(alloc: Global, set: CommandSet, line: Option<&str>) -> Result<Request, AllocError>
    ensures { IfOk result (λ request. request ≡ read_line_of set (option_copied line.entry)) }
{
    match line {
        Some(text) => Request::of_line(alloc, text, set),
        None => Ok(Request::Refused(Ack {
            number: ErrorNumber::Argument,
            command: None,
            text: Text::new(alloc, "line is not UTF-8")?,
        })),
    }
}

/// What the lines of a list ask for, up to the first that there is no memory to read, and the place of that.
fn read_all(alloc: Global, set: CommandSet, lines: &[ListLine]) -> (Vec<Request>, Option<usize>)
    ensures { IsRead lines.now set result.0.items result.1 }
{
    let mut requests = Vec::new(alloc);
    for (place, line) in lines.iter().enumerate() {
        let Ok(()) = push_request(alloc, set, &mut requests, line) else {
            return (requests, Some(place));
        };
    }
    (requests, None)
}

/// Puts what a line of a list asks for after other requests.
fn push_request(
    alloc: Global,
    set: CommandSet,
    requests: &mut Vec<Request>,
    line: &ListLine,
) -> Result<(), AllocError>
    ensures ok { OnOk result (AddsRead set requests.old.items requests.new.items line.now) }
    ensures err { OnErr result (requests.new.items ≡ requests.old.items) }
{
    let text = match line {
        ListLine::Text(text) => Some(text.as_str()),
        ListLine::NotText => None,
    };
    let request = read_line(alloc, set, text)?;
    Ok(requests.push(request)?)
}

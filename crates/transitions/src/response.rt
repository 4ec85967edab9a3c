//! What an event answers, made before anything changes, since it can fail for memory.
ghost use Rattle.std.specs.Prelude.{◌≡◌, OnOk, ◌++◌, codes};
ghost use Rattle.std.specs.String.{string_bytes};
ghost use Rattle.mpd_command.specs.Requests.{text_of_name};
ghost use Rattle.transitions.specs.Answers.{Responds, ending, refuses as refuses_lem, refuses_command, response_of, disconnects as disconnects_lem, shut_down as shut_down_lem, silence as silence_lem, stays, succeeds as succeeds_lem, tells as tells_lem};

use crate::asked::{Asked, ListPlace};
use crate::reply::{Move, Next, Reply};
use command_lists::ListForm;
use mpd_command::Name;
use mpd_text::{Answer, ErrorNumber};
use std::alloc::{AllocError, Global};
use std::marker::Model;

/// What an event answers, and what its client does.
pub struct Response {
    reply: Reply,
    client_move: Move,
}

// Written out, so that a proof goes through one call where it lets one go (docs/DECISIONS.md).
impl Drop for Response {
    fn drop(self) {
        let Response {
            reply: _,
            client_move: _,
        } = self;
    }
}

impl Model for Response {
    ghost use Rattle.transitions.specs.Answers.{ResponseData};

    ghost Value = { ResponseData };

    ghost view = { λ t. record { answer = t.reply; move = t.client_move } };
}

impl Response {
    pub fn of(text: String, next: Next, refused: bool, client_move: Move) -> Response
        ensures { result ≡ response_of (string_bytes text) next refused client_move }
    {
        Response {
            reply: Reply {
                text,
                next,
                refused,
            },
            client_move,
        }
    }

    pub fn next(&self) -> Next
        ensures { result ≡ self.now.answer.next }
    {
        self.reply.next
    }

    pub fn client_move(&self) -> Move
        ensures { result ≡ self.now.move }
    {
        self.client_move
    }

    pub fn into_reply(self) -> Reply
        ensures { result ≡ self.answer }
    {
        let Response {
            reply,
            client_move: _,
        } = self;
        reply
    }
}

/// These lines, after which the client's next line may come.
pub fn tells(text: String, client_move: Move) -> Response
    ensures { result ≡ record { answer = tells_lem (string_bytes text); move = client_move } }
{
    Response::of(text, Next::Goes, false, client_move)
}

/// A success that shows no lines.
pub fn succeeds(alloc: Global, asked: Asked) -> Result<Response, AllocError>
    ensures { Responds result (stays (succeeds_lem asked.list_place (codes ""))) }
{
    shows(asked, Answer::new(alloc))
}

/// A success that shows no lines, by which the client that asks does this.
pub fn succeeds_and(alloc: Global, asked: Asked, client_move: Move) -> Result<Response, AllocError>
    ensures { Responds result (record { answer = succeeds_lem asked.list_place (codes ""); move = client_move }) }
{
    let mut nothing = Answer::new(alloc);
    end(&mut nothing, asked.list_place)?;
    Ok(tells(nothing.into_string(), client_move))
}

/// A success that shows these lines.
pub fn shows(asked: Asked, lines: Answer) -> Result<Response, AllocError>
    ensures { Responds result (stays (succeeds_lem asked.list_place lines)) }
{
    let mut lines = lines;
    end(&mut lines, asked.list_place)?;
    Ok(tells(lines.into_string(), Move::Stay))
}

/// Ends the lines of a success.
fn end(lines: &mut Answer, list_place: ListPlace) -> Result<(), AllocError>
    ensures { OnOk result (lines.new ≡ lines.old ++ ending list_place) }
{
    match list_place {
        ListPlace::Alone => lines.ok(),
        ListPlace::InList(ListForm::Plain, _) => Ok(()),
        ListPlace::InList(ListForm::ListOk, _) => lines.list_ok(),
    }
}

/// A refusal of a command.
pub fn refuses(
    alloc: Global,
    asked: Asked,
    number: ErrorNumber,
    text: &str,
) -> Result<Response, AllocError>
    ensures { Responds result (stays (refuses_command asked number text.now)) }
{
    refuses_line(alloc, asked.list_place, Some(asked.name), number, text)
}

/// A refusal of a line, which may name no command.
pub fn refuses_line(
    alloc: Global,
    list_place: ListPlace,
    name: Option<Name>,
    number: ErrorNumber,
    text: &str,
) -> Result<Response, AllocError>
    ensures { Responds result (stays (refuses_lem list_place name number text.now)) }
{
    let mut answer = Answer::new(alloc);
    let place = list_place.place();
    answer.ack(number, place, name_text(name), text)?;
    Ok(Response::of(answer.into_string(), Next::Goes, true, Move::Stay))
}

fn name_text(name: Option<Name>) -> &'static str
    ensures { result.now ≡ text_of_name name }
{
    match name {
        Some(name) => name.text(),
        None => "",
    }
}

/// Closed, without bytes.
pub fn disconnects(alloc: Global) -> Response
    ensures { result ≡ stays disconnects_lem }
{
    silence(alloc, Next::Closes)
}

/// Closed, without bytes, where the daemon ends as well.
pub fn shut_down(alloc: Global) -> Response
    ensures { result ≡ stays shut_down_lem }
{
    silence(alloc, Next::Kills)
}

/// No bytes, and what becomes of the client.
fn silence(alloc: Global, next: Next) -> Response
    ensures { result ≡ stays (silence_lem next) }
{
    Response::of(String::new(alloc), next, false, Move::Stay)
}

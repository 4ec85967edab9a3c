//! Lines that are said together, and their answers.
ghost use Rattle.std.specs.Prelude.{◌≡◌, IfOk, map, option_map, string_bytes};
ghost use Rattle.std.specs.Str.Lines.{lines};
ghost use Rattle.mpd_command.specs.Names.{fewest};
ghost use Rattle.mpd_command.specs.Requests.{request_of};
ghost use Rattle.own_lines.specs.Answered.{answers_in, goes as goes_lem};

use mpd_command::{CommandSet, Request};
use player_events::Outcome;
use std::alloc::{AllocError, Global};
use transitions::Next;

/// What lines ask for. An own client says commands of the base profile, and none that ends the daemon.
pub fn requests_of(alloc: Global, text: &str) -> Result<Vec<Request>, AllocError>
    ensures { IfOk result (λ requests. requests.items ≡ map (λ line. request_of line fewest) (lines text.now)) }
{
    let mut requests = Vec::new(alloc);
    'each_line: for line in text.lines() {
        requests.push(Request::of_line(alloc, line, CommandSet::base())?)?;
    }
    Ok(requests)
}

/// What was answered, all of it; none where a line was refused, or the client does not simply go on: such an answer
/// must not be taken for one that says nothing.
pub fn answers_of(alloc: Global, outcomes: &[Outcome]) -> Result<Option<String>, AllocError>
    ensures { IfOk result (λ text. option_map string_bytes text ≡ answers_in outcomes.now) }
{
    let mut text = String::new(alloc);
    'heard: for outcome in outcomes {
        if !goes(outcome) {
            return Ok(None);
        }
        text.push_str(outcome.reply().text())?;
    }
    Ok(Some(text))
}

/// Whether an answer is no refusal, and lets the client go on.
fn goes(outcome: &Outcome) -> bool
    ensures { result ≡ goes_lem outcome.now }
{
    outcome.reply().next() == Next::Goes && !outcome.reply().is_refusal()
}

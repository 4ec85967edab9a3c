//! What a client's lines ask for.
ghost use Rattle.std.specs.Prelude.{◌≡◌, option_map};
ghost use Rattle.std.specs.Option.{option_copied};
ghost use Rattle.command_lists.specs.Lists.{is_too_large as is_too_large_in};
ghost use Rattle.mpd_text.specs.Lines.Split.{view};
ghost use Rattle.mpd_session.specs.Requests.{askings_of, completes};

use command_lists::{CommandList, ListCollector, Taken};
use mpd_text::Line;
use std::alloc::{AllocError, Global};
use std::collections::VecDeque;
use std::marker::Model;

/// What is answered as one.
#[derive(Drop)]
pub enum ClientRequest {
    /// A line that is in no list.
    Single(Line),
    /// A whole list.
    Whole(CommandList),
}

/// Takes a client's lines, and gives what they ask for. A clause sees what has come of a list.
#[derive(Drop)]
pub struct Gatherer {
    collector: ListCollector,
    /// Whether a list was too large. Then no further line counts.
    is_over: bool,
}

impl Model for Gatherer {
    ghost use Rattle.mpd_session.specs.Requests.{ListState, state_of};

    ghost Value = { ListState };

    ghost view = { λ g. state_of g.is_over g.collector };
}

impl Gatherer {
    ghost use Rattle.std.specs.Prelude.{◌≡◌, None, false, IfOk, IfSome, OnErr, OnOk};
    ghost use Rattle.mpd_session.specs.Requests.{HasOneLess, TakesFirst, Within, is_over as is_over_in};

    /// A gatherer to which no line came.
    pub fn new() -> Gatherer
        ensures { result ≡ Within None }
    {
        Gatherer {
            collector: ListCollector::new(),
            is_over: false,
        }
    }

    /// Whether a list was too large.
    pub fn is_over(&self) -> bool
        ensures { result ≡ is_over_in self.now }
    {
        self.is_over
    }

    /// Takes the first of the lines that wait, and gives what it completes. Without memory nothing is taken.
    pub fn take(
        &mut self,
        alloc: Global,
        lines: &mut VecDeque<Line>,
    ) -> Result<Option<ClientRequest>, AllocError>
        ensures ok { IfOk result (TakesFirst self.old lines.old.items self.new lines.new.items) }
        ensures shorter { OnOk result (HasOneLess lines.old.items lines.new.items) }
        ensures open { IfOk result (λ asked. IfSome asked (λ _. is_over_in self.new ≡ false)) }
        ensures err { OnErr result ((self.new ≡ self.old) × (lines.new.items ≡ lines.old.items)) }
    {
        if self.is_over {
            let _ignored = lines.pop_front();
            return Ok(None);
        }
        let Some(line) = lines.front() else {
            return Ok(None);
        };
        let taken = self.collector.take(alloc, text_of(line))?;
        self.is_over = is_too_large(&taken);
        Ok(completed(taken, lines.pop_front()))
    }
}

/// The text of a line; `None` where it is not UTF-8.
pub(crate) fn text_of(line: &Line) -> Option<&str>
    ensures { option_copied result ≡ view line.now }
{
    match line {
        Line::Text(text) => Some(text.as_str()),
        Line::NotText => None,
    }
}

fn is_too_large(taken: &Taken) -> bool
    ensures { result ≡ is_too_large_in taken.now }
{
    matches!(taken, Taken::TooLarge)
}

/// What a line completes that was taken so.
fn completed(taken: Taken, line: Option<Line>) -> Option<ClientRequest>
    ensures { askings_of result ≡ completes taken (option_map view line) }
{
    match (taken, line) {
        (Taken::Alone, Some(line)) => Some(ClientRequest::Single(line)),
        (Taken::Ended(list), _) => Some(ClientRequest::Whole(list)),
        _ => None,
    }
}

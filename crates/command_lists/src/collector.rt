//! The collector of a client's command list.
ghost use Rattle.std.specs.Prelude.{◌≡◌, true, IfOk, OnErr};
ghost use Rattle.std.specs.Option.{option_copied};
ghost use Rattle.command_lists.specs.declared.collector.Taken.TheVariants.{Collected};
ghost use Rattle.command_lists.specs.Lists.{ends, fits, list_word, outcome_with, with_line};

use crate::list::{CommandList, OpenList};
use crate::word::ListWord;
use std::alloc::{AllocError, Global};
use std::marker::Model;

/// What a line was taken as.
#[derive(Drop)]
pub enum Taken {
    /// It is in no list.
    Alone,
    /// It begins a list.
    Begun,
    /// It is the next line of the open list.
    Collected,
    /// It ends the open list, which is this.
    Ended(CommandList),
    /// With it the open list would have more than 2,097,152 bytes. The list is dropped, and the client is to
    /// be closed.
    TooLarge,
}

/// Collects the lines of a client's command list. A clause sees the open list, if one is open.
#[derive(Drop)]
pub struct ListCollector {
    open_list: Option<OpenList>,
}

impl Model for ListCollector {
    ghost use Rattle.std.specs.Prelude.{Option};
    ghost use Rattle.command_lists.specs.declared.list.CommandList.{CommandList};

    ghost Value = { Option CommandList };

    ghost view = { λ c. c.open_list };
}

impl ListCollector {
    ghost use Rattle.std.specs.Prelude.{◌≡◌, None, IfOk, OnErr, is_some};
    ghost use Rattle.std.specs.Option.{option_copied};
    ghost use Rattle.command_lists.specs.declared.collector.Taken.TheVariants.{Collected};
    ghost use Rattle.command_lists.specs.Lists.{TakesLine, outcome_of, is_too_large};

    /// A collector without an open list.
    pub fn new() -> ListCollector
        ensures { result ≡ None }
    {
        ListCollector { open_list: None }
    }

    /// Takes a client's next line; `None` is a line that is not UTF-8. Only a line that is collected takes
    /// memory; without memory nothing changes, as if the line had not come.
    pub fn take(&mut self, alloc: Global, line: Option<&str>) -> Result<Taken, AllocError>
        ensures ok { IfOk result (λ t. TakesLine self.old self.new (option_copied line.entry) t) }
        ensures err { OnErr result (self.new ≡ self.old) }
        ensures memory { OnErr result ((outcome_of self.old (option_copied line.entry)).taken ≡ Collected) }
    {
        let word = line.and_then(ListWord::of_line);
        if let (Some(list), false) = (&mut self.open_list, is_end_word(word)) {
            let taken = collect(list, alloc, line)?;
            if matches!(taken, Taken::TooLarge) {
                self.open_list = None;
            }
            return Ok(taken);
        }
        match (self.open_list.take(), word) {
            (None, Some(ListWord::Begin(form))) => {
                self.open_list = Some(OpenList::new(alloc, form));
                Ok(Taken::Begun)
            }
            (None, _) => Ok(Taken::Alone),
            (Some(list), _) => Ok(Taken::Ended(list.into_list())),
        }
    }

    /// Whether the open list would be too large with a line. Asked before [`ListCollector::take`], it lets a
    /// caller close the client first, and keep the list where it could not. What the line says is looked at
    /// only where there is no room.
    pub fn is_too_large_with(&self, line: Option<&str>) -> bool
        ensures { result ≡ is_too_large (outcome_of self.now (option_copied line.entry)).taken }
    {
        match &self.open_list {
            Some(list) if !list.has_room(line) => !is_end(line),
            _ => false,
        }
    }

    /// Drops the open list, if one is open.
    pub fn drop_list(&mut self)
        ensures { self.new ≡ None }
    {
        self.open_list = None;
    }

    /// Whether a list is open.
    pub fn is_open(&self) -> bool
        ensures { result ≡ is_some self.now }
    {
        self.open_list.is_some()
    }
}

/// Puts a line into the open list, where it stands, if it is not too large with it.
fn collect(list: &mut OpenList, alloc: Global, line: Option<&str>) -> Result<Taken, AllocError>
    ensures taken { IfOk result (λ t. t ≡ (outcome_with (with_line list.old (option_copied line.entry))).taken) }
    ensures list { IfOk result (λ t. t ≡ Collected → list.new ≡ with_line list.old (option_copied line.entry)) }
    ensures err { OnErr result (list.new ≡ list.old) }
    ensures memory { OnErr result (fits (with_line list.old (option_copied line.entry)) ≡ true) }
{
    if !list.has_room(line) {
        return Ok(Taken::TooLarge);
    }
    list.push(alloc, line)?;
    Ok(Taken::Collected)
}

/// Whether a line is the word that ends a list.
fn is_end(line: Option<&str>) -> bool
    ensures { result ≡ ends (list_word (option_copied line.entry)) }
{
    is_end_word(line.and_then(ListWord::of_line))
}

fn is_end_word(word: Option<ListWord>) -> bool
    ensures { result ≡ ends word }
{
    matches!(word, Some(ListWord::End))
}

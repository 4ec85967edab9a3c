//! Command lists, and what has come of one that is open.
ghost use Rattle.std.specs.Prelude.{◌≡◌, IfOk};
ghost use Rattle.std.specs.Option.{option_copied};
ghost use Rattle.command_lists.specs.Lists.{kept, line_bytes};

use crate::word::ListForm;
use mpd_text::{Sequence, Text};
use std::alloc::{AllocError, Global};
use std::marker::Model;

/// The most bytes of a command list's lines, each with its newline (this profile's).
pub const MAX_LIST: usize = 2_097_152;

/// A line of a command list.
#[derive(Drop)]
pub enum ListLine {
    /// The line, which is UTF-8.
    Text(Text),
    /// A line that is not UTF-8.
    NotText,
}

/// A command list: the lines between the word that begins it and the word that ends it, in order.
#[derive(Drop)]
pub struct CommandList {
    pub form: ListForm,
    pub lines: Sequence<ListLine>,
}

/// A list that has not ended, and the bytes of its lines. A clause sees the list.
#[derive(Drop)]
pub struct OpenList {
    list: CommandList,
    bytes: usize,
}

impl Model for OpenList {
    ghost use Rattle.std.specs.Prelude.{◌≡◌, ◌≤◌};
    ghost use Rattle.command_lists.specs.declared.list.CommandList.{CommandList};
    ghost use Rattle.command_lists.specs.Lists.{list_bytes};

    ghost Value = { CommandList };

    ghost view = { λ o. o.list };

    ghost invariant = { λ o. (o.bytes ≡ list_bytes o.list.lines) × (o.bytes ≤ 2097152) };
}

impl OpenList {
    ghost use Rattle.std.specs.Prelude.{◌≡◌, [], OnOk, OnErr, true};
    ghost use Rattle.std.specs.Option.{option_copied};
    ghost use Rattle.command_lists.specs.Lists.{with_line, fits};

    /// A list that has begun. Takes no memory.
    pub fn new(alloc: Global, form: ListForm) -> OpenList
        ensures { result ≡ record { form = form; lines = [] } }
    {
        OpenList {
            list: CommandList {
                form,
                lines: Sequence::new(alloc),
            },
            bytes: 0,
        }
    }

    /// Whether the list is not too large with one more line.
    pub fn has_room(&self, line: Option<&str>) -> bool
        ensures { result ≡ fits (with_line self.now (option_copied line.entry)) }
    {
        line_len(line) <= MAX_LIST - self.bytes
    }

    /// Puts a line after the others. Without memory nothing changes.
    pub fn push(&mut self, alloc: Global, line: Option<&str>) -> Result<(), AllocError>
        requires { fits (with_line self.old (option_copied line)) ≡ true }
        ensures ok { OnOk result (self.new ≡ with_line self.old (option_copied line.entry)) }
        ensures err { OnErr result (self.new ≡ self.old) }
    {
        let kept = kept_line(alloc, line)?;
        self.list.lines.push(kept)?;
        self.bytes += line_len(line);
        Ok(())
    }

    /// The list, which ends so.
    pub fn into_list(self) -> CommandList
        ensures { result ≡ self }
    {
        self.list
    }
}

/// The bytes of a line, with its newline.
fn line_len(line: Option<&str>) -> usize
    ensures { result ≡ line_bytes (kept (option_copied line.entry)) }
{
    line.map_or(1, |text| text.len() + 1)
}

/// The line as a list has it.
fn kept_line(alloc: Global, line: Option<&str>) -> Result<ListLine, AllocError>
    ensures { IfOk result (λ l. l ≡ kept (option_copied line.entry)) }
{
    match line {
        Some(text) => Ok(ListLine::Text(Text::new(alloc, text)?)),
        None => Ok(ListLine::NotText),
    }
}

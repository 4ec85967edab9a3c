//! What a lent shelf is asked and answers, and what is written to it.
ghost use Rattle.std.specs.Prelude.{◌≡◌, Some, None, length, map, nat_eq, string_bytes};
ghost use Rattle.shelf.specs.Entries.{entry_texts};
ghost use Rattle.transitions.specs.declared.shelf_calls.Read.{Read};
ghost use Rattle.transitions.specs.declared.shelf_calls.ShelfWrite.{ShelfWrite};
ghost use Rattle.transitions.specs.Shelves.{changes_lists as changes_lists_lem, changes_stickers as changes_stickers_lem, is_written as is_written_lem};

use mpd_text::Text;
use shelf::{Entry, ShelfFault, StickerKind, UriList};
use std::marker::Model;

/// The names of stored playlists, as a shelf gave them.
#[derive(Drop)]
pub struct Names {
    names: Vec<String>,
}

impl Model for Names {
    ghost use Rattle.std.specs.Prelude.{List, ℕ, map, string_bytes};

    ghost Value = { List (List ℕ) };

    ghost view = { λ n. map string_bytes n.names.items };
}

impl Names {
    pub fn of(names: Vec<String>) -> Names
        ensures { result ≡ map string_bytes names.items }
    {
        Names { names }
    }

    pub fn as_slice(&self) -> &[String]
        ensures { map string_bytes result.now ≡ self.now }
    {
        &self.names
    }
}

/// Stickers, as a shelf gave them: the names of a target's with their values, or the targets that have one of
/// a name with its value.
#[derive(Drop)]
pub struct Entries {
    entries: Vec<Entry>,
}

impl Model for Entries {
    ghost use Rattle.std.specs.Prelude.{List, ℕ, map};
    ghost use Rattle.shelf.specs.Entries.{entry_texts};

    ghost Value = { List (List ℕ × List ℕ) };

    ghost view = { λ e. map entry_texts e.entries.items };
}

impl Entries {
    pub fn of(entries: Vec<Entry>) -> Entries
        ensures { result ≡ map entry_texts entries.items }
    {
        Entries { entries }
    }

    pub fn as_slice(&self) -> &[Entry]
        ensures { map entry_texts result.now ≡ self.now }
    {
        &self.entries
    }

    pub fn is_empty(&self) -> bool
        ensures { result ≡ nat_eq (length self.now) 0 }
    {
        self.entries.is_empty()
    }
}

/// What a shelf answered to the question of a line.
pub enum Read {
    /// It was not asked.
    Nothing,
    /// The names of all stored playlists.
    Names(Names),
    /// The URIs of a stored playlist.
    List(UriList),
    /// The value of a sticker.
    Value(Text),
    /// Stickers with their values.
    Entries(Entries),
    /// It refused.
    Refused(ShelfFault),
}

// Written out, so that a proof goes through one call where it lets one go (docs/DECISIONS.md).
impl Drop for Read {
    fn drop(self) {
        match self {
            Read::Nothing
            | Read::Names(_)
            | Read::List(_)
            | Read::Value(_)
            | Read::Entries(_)
            | Read::Refused(_) => {}
        }
    }
}

/// What a shelf answered to a line: to its question, and why it refused what was to be written, if it did.
#[derive(Drop)]
pub struct StoreReply {
    pub read: Read,
    pub refused: Option<ShelfFault>,
}

impl StoreReply {
    /// Nothing was asked, and nothing written.
    pub fn nothing() -> StoreReply
        ensures { result ≡ record { read = Read.Nothing; refused = None } }
    {
        StoreReply {
            read: Read::Nothing,
            refused: None,
        }
    }
}

/// What a line writes to the shelf.
pub enum ShelfWrite {
    Nothing,
    /// A stored playlist has these URIs, and whether it had others or was not there.
    Put(Text, UriList, bool),
    /// A new stored playlist has these URIs.
    Create(Text, UriList),
    /// A stored playlist gets another name, the second, and whether it has stickers, which go along.
    Rename(Text, Text, bool),
    /// A stored playlist goes, and whether it has stickers, which go too.
    Remove(Text, bool),
    /// The sticker of a target with a name has a value, and whether it had another or none.
    SetSticker {
        kind: StickerKind,
        target: Text,
        name: Text,
        value: Text,
        changes: bool,
    },
    /// The sticker of a target with a name goes.
    DeleteSticker(StickerKind, Text, Text),
    /// All stickers of a target go.
    DeleteStickers(StickerKind, Text),
}

// Written out, so that a proof goes through one call where it lets one go (docs/DECISIONS.md).
impl Drop for ShelfWrite {
    fn drop(self) {
        match self {
            ShelfWrite::Nothing
            | ShelfWrite::Put(_, _, _)
            | ShelfWrite::Create(_, _)
            | ShelfWrite::Rename(_, _, _)
            | ShelfWrite::Remove(_, _)
            | ShelfWrite::SetSticker {
                kind: _,
                target: _,
                name: _,
                value: _,
                changes: _,
            }
            | ShelfWrite::DeleteSticker(_, _, _)
            | ShelfWrite::DeleteStickers(_, _) => {}
        }
    }
}

impl ShelfWrite {
    pub fn is_written(&self) -> bool
        ensures { result ≡ is_written_lem self.now }
    {
        !matches!(self, ShelfWrite::Nothing)
    }

    /// Whether the stored playlists are others once it is written.
    pub fn changes_lists(&self) -> bool
        ensures { result ≡ changes_lists_lem self.now }
    {
        match self {
            ShelfWrite::Put(_, _, changes) => *changes,
            ShelfWrite::Create(_, _) | ShelfWrite::Rename(_, _, _) | ShelfWrite::Remove(_, _) =>
                true,
            _ => false,
        }
    }

    /// Whether the stickers are others once it is written.
    pub fn changes_stickers(&self) -> bool
        ensures { result ≡ changes_stickers_lem self.now }
    {
        match self {
            ShelfWrite::SetSticker { changes, .. } => *changes,
            ShelfWrite::Rename(_, _, has_stickers) | ShelfWrite::Remove(_, has_stickers) => {
                *has_stickers
            }
            ShelfWrite::DeleteSticker(_, _, _) | ShelfWrite::DeleteStickers(_, _) => true,
            _ => false,
        }
    }
}

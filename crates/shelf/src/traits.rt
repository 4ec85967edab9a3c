//! The calls of a shelf.

ghost use Rattle.shelf.specs.Maps.{Standing};
ghost use Rattle.shelf.specs.Calls.{Call, Lists, ListOf, Put, Create, Rename, Remove, StickerOf, SetSticker, DeleteSticker, DeleteStickers, StickersOf, FindStickers};
ghost use Rattle.shelf.specs.Shelf.{IsAnswerTo, LeavesWhatItShows, TellsEntries, TellsNames, TellsText, TellsUris, ChangesBy, texts_by_name, texts_by_target};

use crate::faults::{Entry, ShelfFault};
use crate::kinds::StickerKind;
use crate::uri_list::UriList;

/// Stored playlists and stickers, as two maps: a name has a list of URIs, and a kind, a target (a song's URI
/// or a stored playlist's name) and a name have a text.
///
/// Names are told apart, and listed, by their bytes. Each call is whole or changes nothing. A name that
/// cannot be a list's, or a sticker's, is looked at by the calls that would put it on the shelf, and is
/// missing for the others.
pub trait Shelf {
    /// The maps, and what is known of the store that keeps them.
    ghost standing: { Self → Standing };

    /// Why the call may be answered with `StoreFault`: the store failed between the two, or cannot do it.
    ghost failed: { Self → Self → Call → Type 0 };

    /// The names of the stored playlists, by rising bytes.
    fn lists(&mut self) -> Result<Vec<String>, ShelfFault>
        ensures answers { IsAnswerTo standing failed self.old self.new Lists result }
        ensures names { TellsNames (standing self.old) (standing self.new) result }
        ensures changes { ChangesBy standing self.old self.new Lists result };

    /// The URIs of a stored playlist. Refused: `NoSuchList`.
    fn list(&mut self, name: &str) -> Result<UriList, ShelfFault>
        ensures answers { IsAnswerTo standing failed self.old self.new (ListOf name.now) result }
        ensures uris { TellsUris (standing self.old) (standing self.new) name.now result }
        ensures changes { ChangesBy standing self.old self.new (ListOf name.now) result };

    /// Keeps the URIs under the name, in place of those it had. Refused: `BadName`.
    fn put(&mut self, name: &str, uris: &UriList) -> Result<(), ShelfFault>
        ensures answers { IsAnswerTo standing failed self.old self.new (Put name.now uris.now) result }
        ensures changes { ChangesBy standing self.old self.new (Put name.now uris.now) result };

    /// Keeps the URIs under a name that no list has. Refused, in this order: `Exists`, `BadName`.
    fn create(&mut self, name: &str, uris: &UriList) -> Result<(), ShelfFault>
        ensures answers { IsAnswerTo standing failed self.old self.new (Create name.now uris.now) result }
        ensures changes { ChangesBy standing self.old self.new (Create name.now uris.now) result };

    /// Gives a stored playlist another name, and its stickers with it. Refused, in this order: `NoSuchList`,
    /// `Exists` (also for its own name), `BadName`.
    fn rename(&mut self, name: &str, new_name: &str) -> Result<(), ShelfFault>
        ensures answers { IsAnswerTo standing failed self.old self.new (Rename name.now new_name.now) result }
        ensures changes { ChangesBy standing self.old self.new (Rename name.now new_name.now) result };

    /// Takes a stored playlist away, and its stickers with it. Refused: `NoSuchList`.
    fn remove(&mut self, name: &str) -> Result<(), ShelfFault>
        ensures answers { IsAnswerTo standing failed self.old self.new (Remove name.now) result }
        ensures changes { ChangesBy standing self.old self.new (Remove name.now) result };

    /// The text of a sticker. Refused, in this order: `NoSuchList` where it is a stored playlist's that is
    /// not there, `NoSticker`.
    fn sticker(&mut self, kind: StickerKind, target: &str, name: &str) -> Result<String, ShelfFault>
        ensures answers { IsAnswerTo standing failed self.old self.new (StickerOf kind target.now name.now) result }
        ensures value { TellsText (standing self.old) (standing self.new) kind target.now name.now result }
        ensures changes { ChangesBy standing self.old self.new (StickerOf kind target.now name.now) result };

    /// Keeps a text under the target and the name, in place of the one it had. Refused, in this order:
    /// `NoSuchList` where the target is a stored playlist that is not there, `BadName`.
    fn set_sticker(
        &mut self,
        kind: StickerKind,
        target: &str,
        name: &str,
        text: &str,
    ) -> Result<(), ShelfFault>
        ensures answers { IsAnswerTo standing failed self.old self.new (SetSticker kind target.now name.now text.now) result }
        ensures changes { ChangesBy standing self.old self.new (SetSticker kind target.now name.now text.now) result };

    /// Takes a sticker away. Refused, in this order: `NoSuchList` where it is a stored playlist's that is
    /// not there, `NoSticker`.
    fn delete_sticker(
        &mut self,
        kind: StickerKind,
        target: &str,
        name: &str,
    ) -> Result<(), ShelfFault>
        ensures answers { IsAnswerTo standing failed self.old self.new (DeleteSticker kind target.now name.now) result }
        ensures changes { ChangesBy standing self.old self.new (DeleteSticker kind target.now name.now) result };

    /// Takes all stickers of a target away. Refused, in this order: `NoSuchList` where the target is a stored
    /// playlist that is not there, `NoSticker` where it has none.
    fn delete_stickers(&mut self, kind: StickerKind, target: &str) -> Result<(), ShelfFault>
        ensures answers { IsAnswerTo standing failed self.old self.new (DeleteStickers kind target.now) result }
        ensures changes { ChangesBy standing self.old self.new (DeleteStickers kind target.now) result };

    /// The names and texts of a target's stickers, by rising bytes of the names. Refused: `NoSuchList` where
    /// the target is a stored playlist that is not there.
    fn stickers_of(&mut self, kind: StickerKind, target: &str) -> Result<Vec<Entry>, ShelfFault>
        ensures answers { IsAnswerTo standing failed self.old self.new (StickersOf kind target.now) result }
        ensures entries { TellsEntries (standing self.old) (standing self.new) (texts_by_name kind target.now) result }
        ensures changes { ChangesBy standing self.old self.new (StickersOf kind target.now) result };

    /// The targets of a kind that have a sticker of the name, with its text, by rising bytes of the targets.
    fn find_stickers(&mut self, kind: StickerKind, name: &str) -> Result<Vec<Entry>, ShelfFault>
        ensures answers { IsAnswerTo standing failed self.old self.new (FindStickers kind name.now) result }
        ensures entries { TellsEntries (standing self.old) (standing self.new) (texts_by_target kind name.now) result }
        ensures changes { ChangesBy standing self.old self.new (FindStickers kind name.now) result };

    /// While the store is open, a stop leaves the maps that it shows.
    ghost settled: { (s : Self) → LeavesWhatItShows (standing s) };
}

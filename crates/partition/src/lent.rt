//! What is written to the lent shelf.
ghost use Rattle.partition.specs.Lent.{AnswersWrite, ChangesByWrite};

use shelf::{Shelf, ShelfFault};
use transitions::ShelfWrite;

/// Writes to the shelf.
pub(crate) fn write<S: Shelf>(shelf: &mut S, written: &ShelfWrite) -> Result<(), ShelfFault>
    ensures changes { ChangesByWrite S.standing shelf.old shelf.new written.now result }
    ensures answers { AnswersWrite S.standing S.failed shelf.old shelf.new written.now result }
{
    match written {
        ShelfWrite::Nothing => Ok(()),
        ShelfWrite::Put(name, uris, _) => shelf.put(name.as_str(), uris),
        ShelfWrite::Create(name, uris) => shelf.create(name.as_str(), uris),
        ShelfWrite::Rename(name, new, _) => shelf.rename(name.as_str(), new.as_str()),
        ShelfWrite::Remove(name, _) => shelf.remove(name.as_str()),
        ShelfWrite::SetSticker {
            kind,
            target,
            name,
            value,
            ..
        } => { shelf.set_sticker(*kind, target.as_str(), name.as_str(), value.as_str()) }
        ShelfWrite::DeleteSticker(kind, target, name) => {
            shelf.delete_sticker(*kind, target.as_str(), name.as_str())
        }
        ShelfWrite::DeleteStickers(kind, target) => shelf.delete_stickers(*kind, target.as_str()),
    }
}

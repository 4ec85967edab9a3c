//! The law of stickers. A caller that calls it may use it; it does nothing.
ghost use Rattle.library_laws.specs.Stickers.{StickersAreAsSet, StickersAreSet, StickersAreShown};

/// `sticker get` shows what `sticker set` set, and is refused after `sticker delete`; no other sticker is another
/// by these.
pub fn stickers_are_as_set()
    ensures shown { StickersAreShown }
    ensures set { StickersAreSet }
    ensures after { StickersAreAsSet }
{}

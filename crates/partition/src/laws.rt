//! Laws of the definitions. A caller that calls one may use it; each does nothing.
ghost use Rattle.partition.specs.Legal.{FoldsAreUnseen, ReadsPending, ReplaysWorlds};
ghost use Rattle.partition.specs.Lists.{EntriesAre};

/// A replay from a player to which nothing happened is the image of the trace with every past queue and every
/// transition.
pub fn replays_worlds()
    ensures { ReplaysWorlds }
{}

/// After any events, with folds between any two, the present state is the image of the trace after all of
/// them.
pub fn folds_are_unseen()
    ensures { FoldsAreUnseen }
{}

/// What is read as pending for a client is everything that was raised since its connect or last notice.
pub fn reads_pending()
    ensures { ReadsPending }
{}

/// The entries that a list makes, request by request, are those that are told of them as a whole.
pub fn entries_are_whole()
    ensures { EntriesAre }
{}

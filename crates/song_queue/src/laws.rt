//! Laws of the definitions. A caller that calls one may use it; each does nothing.
ghost use Rattle.song_queue.specs.Laws.{EditsFollowPast, IdsAreDistinct, IdsNeverReturn, MovesKeepEntries, ParityTellsChanges, PastsKeepQueues, PatchesGivePresent, ShufflesPermute, StatesFollowPasts};

/// A past ends in the queue that the last event left, and its state has that queue.
pub fn pasts_keep_queues()
    ensures { PastsKeepQueues }
{}

/// After an edit the version, stamps, marks and greatest id of a queue are those of its longer past.
pub fn edits_follow_past()
    ensures { EditsFollowPast }
{}

/// After any edits the version, stamps, marks and greatest id of a queue are those of its past.
pub fn states_follow_pasts()
    ensures { StatesFollowPasts }
{}

/// Two readings of the parity, before an edit and after it, differ exactly where it changed the queue.
pub fn parity_tells_changes()
    ensures { ParityTellsChanges }
{}

/// A client that knows an earlier queue and patches it has the present one, while versions have not begun
/// anew.
pub fn patches_give_present()
    ensures { PatchesGivePresent }
{}

/// After any edits the ids of the present queue are distinct.
pub fn ids_are_distinct()
    ensures { IdsAreDistinct }
{}

/// A move keeps each entry, puts the moved ones where they are to be, and leaves the order of the others.
pub fn moves_keep_entries()
    ensures { MovesKeepEntries }
{}

/// A shuffle keeps each entry, and leaves those outside of its range at their positions.
pub fn shuffles_permute()
    ensures { ShufflesPermute }
{}

/// An id that was given, and that no entry has any more, never comes back.
pub fn ids_never_return()
    ensures { IdsNeverReturn }
{}

//! Laws of commands that change something. A caller that calls one may use it; each does nothing.
ghost use Rattle.queue_laws.specs.Edits.{AddIdTellsTheId, EditsKeepTheOthers, ShufflesTakeNumbers};
ghost use Rattle.queue_laws.specs.Options.{WhatIsSetIsShown};
ghost use Rattle.queue_laws.specs.Outputs.{OutputsAreShown};

/// Each command of the queue leaves of the entries that it names what the reference says, and all others in
/// their order, with their ids and priorities; a refused one leaves all as it was.
pub fn edits_keep_the_others()
    ensures edits { EditsKeepTheOthers }
    ensures told { AddIdTellsTheId }
    ensures drawn { ShufflesTakeNumbers }
{}

/// What is set is what `status` and `getvol` show, and all else is shown as before, except for the next song where
/// its order was set.
pub fn what_is_set_is_shown()
    ensures { WhatIsSetIsShown }
{}

/// An output that was turned on or off is shown so, and every other as before.
pub fn outputs_are_shown()
    ensures { OutputsAreShown }
{}

//! Laws of the definitions. A caller that calls one may use it; each does nothing.
ghost use Rattle.kept_state.specs.PlayerReading.{PartitionsGiveBack};
ghost use Rattle.kept_state.specs.Reading.{GivesBack};

/// The lines of a state, read in their order, give back what is kept; where some of its songs are not there
/// any more, all but these.
pub fn gives_back()
    ensures { GivesBack }
{}

/// The text of a player with all its partitions, read in its order by one that was just opened, gives back each partition
/// with what is kept of it, of the songs that there are, and each output in the partition in which it stood.
pub fn partitions_give_back()
    ensures { PartitionsGiveBack }
{}

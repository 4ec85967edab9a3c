//! The law of what lines ask for in the base profile. A caller that calls it may use it; it does nothing.
ghost use Rattle.command_laws.specs.Base.{BaseAsksForNoMore};

/// In the base profile each line asks for a command of the base profile, with arguments of the base profile,
/// or it is refused.
pub fn base_profile_asks_for_no_more()
    ensures { BaseAsksForNoMore }
{}

//! The law of `status`. A caller that calls it may use it; it does nothing.
ghost use Rattle.command_laws.specs.Shown.{StatusShowsWorld};

/// `status` shows of each field what the player and the library are, in one order of lines.
pub fn status_shows_world()
    ensures { StatusShowsWorld }
{}

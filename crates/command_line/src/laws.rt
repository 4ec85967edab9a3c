//! Laws of the definitions. A caller that calls one may use it; each does nothing.
ghost use Rattle.command_line.specs.Readings.{Readings};

/// What some command lines mean, word by word.
pub fn readings()
    ensures { Readings }
{}

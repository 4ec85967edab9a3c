//! Laws of the definitions. A caller that calls one may use it; each does nothing.
ghost use Rattle.settings.specs.OneLines.{OneLines};
ghost use Rattle.settings.specs.Readings.{Readings};
ghost use Rattle.settings.specs.Refusals.{OneCause};

/// Each text is settings or is refused, never both, and it is refused for one key alone.
pub fn one_cause()
    ensures { OneCause }
{}

/// What some texts are, and where the ranges end.
pub fn readings()
    ensures { Readings }
{}

/// What is told of a text has one line, and is the text itself where that has no control character.
pub fn one_lines()
    ensures { OneLines }
{}

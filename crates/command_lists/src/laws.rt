//! Laws of the definitions. A caller that calls one may use it; each does nothing.
ghost use Rattle.command_lists.specs.Grammar.{WordsAreAlone, AnyCut, PartsAreTaken, LinesAreParts};

/// A line is read as a list word exactly where it is that word alone, with spaces and tabs before and after
/// it.
pub fn words_are_alone()
    ensures { WordsAreAlone }
{}

/// Where lines are cut does not matter.
pub fn any_cut()
    ensures { AnyCut }
{}

/// Lines are taken as the parts that they are: lines alone, lists, and lists that are too large. So each list
/// is handed out at its end with exactly the lines between its two words.
pub fn parts_are_taken()
    ensures { PartsAreTaken }
{}

/// Any lines are some parts, and then perhaps an open list.
pub fn lines_are_parts()
    ensures { LinesAreParts }
{}

//! Laws of what is asked, of what may be written for it, and of a session's turns. A caller that calls one may
//! use it; each does nothing.
ghost use Rattle.mpd_session.specs.Answers.{Answers, OutputsJoinSometime, OutputsJoinTimeless};
ghost use Rattle.mpd_session.specs.Output.{OutputsJoin};
ghost use Rattle.mpd_session.specs.Requests.{LinesAskFor, LinesInAnyCut};
ghost use Rattle.mpd_session.specs.Sessions.{BytesInAnyCut, TurnsJoin};
ghost use Rattle.mpd_session.specs.declared.asker.Asker.{Asker};

use mpd_text::any_cut;
use shelf::Shelf;

/// What is asked for by lines is read off whole lists of them.
pub fn lines_ask_for()
    ensures { LinesAskFor }
{
    command_lists::parts_are_taken();
}

/// Where lines are cut does not matter.
pub fn any_cut_of_lines()
    ensures { LinesInAnyCut }
{}

/// What is written for some of what is asked, and then for the rest, is what is written for all of it.
pub fn outputs_join<S: Shelf>()
    ensures { (asker : Asker) → OutputsJoin (Answers S.standing S.failed asker) }
{}

/// What turns write one after the other is written over many turns, whoever is served between them; also where time
/// passes, so that `stats` shows another number of seconds.
pub fn outputs_join_over<S: Shelf>()
    ensures timeless { OutputsJoinTimeless S.standing S.failed }
    ensures sometime { OutputsJoinSometime S.standing S.failed }
{}

/// What comes of bytes is the same in whatever pieces they are read.
pub fn any_cut_of_bytes()
    ensures { BytesInAnyCut }
{
    any_cut();
}

/// Two turns, one after the other, write what one turn may write that reads the bytes of both, where nobody
/// else was served between them.
pub fn turns_join<S: Shelf>()
    ensures { (asker : Asker) → TurnsJoin (Answers S.standing S.failed asker) }
{
    any_cut();
}

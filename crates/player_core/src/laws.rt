//! Laws of the definitions. A caller that calls one may use it; each does nothing.
ghost use Rattle.player_core.specs.Choices.{DeletionsGoOn, EndsStopForACause, NextGoesOn, PeekForetells, PlayBegins, PreviousConsumesNothing};
ghost use Rattle.player_core.specs.Laws.{FeedsAsAsked, FeedsOnce, NumbersRise};
ghost use Rattle.player_core.specs.Rounds.{PlayedStayQueued, RoundsPlayEachOnce};

/// Frames of a job are fed once.
pub fn feeds_once()
    ensures { FeedsOnce }
{}

/// Frames are fed with the cut that was when they were asked for.
pub fn feeds_as_asked()
    ensures { FeedsAsAsked }
{}

/// An event raises each number by one at most, and lowers none.
pub fn numbers_rise()
    ensures { NumbersRise }
{}

/// A song that ends leaves the queue by consume alone, and the player goes on, plays it again or stops for a
/// cause.
pub fn ends_stop_for_a_cause()
    ensures { EndsStopForACause }
{}

/// `next` goes on with what follows, whatever single is.
pub fn next_goes_on()
    ensures { NextGoesOn }
{}

/// `previous` plays what was before, and takes nothing out of the queue.
pub fn previous_consumes_nothing()
    ensures { PreviousConsumesNothing }
{}

/// A deletion goes past a song that is not deleted, and else goes on with what follows.
pub fn deletions_go_on()
    ensures { DeletionsGoOn }
{}

/// In random order each song that was not played in the round starts once, and none twice, `next` by `next`.
pub fn rounds_play_each_once()
    ensures { RoundsPlayEachOnce }
{}

/// What `peek` gives is what the natural end of the current song starts.
pub fn peek_foretells()
    ensures { PeekForetells }
{}

/// Each song that was played in a round stays one of the queue.
pub fn played_stay_queued()
    ensures { PlayedStayQueued }
{}

/// `play` starts the current song, or what the order begins with.
pub fn play_begins()
    ensures { PlayBegins }
{}

//! Laws of the definitions. A caller that calls one may use it; each does nothing.
ghost use Rattle.play_order.specs.Choices.{ChoosesUnplayed, ConsumesOne, FollowsPositions, OneFollows, PrecedesIsOrder, RoundsForgetGone, RoundsGoOn};

/// Of two entries with different ids one comes before the other, and none comes before itself.
pub fn precedes_is_order()
    ensures { PrecedesIsOrder }
{}

/// The rules name one entry that follows, or none.
pub fn one_follows()
    ensures { OneFollows }
{}

/// Consume takes out just the song that has ended.
pub fn consumes_one()
    ensures { ConsumesOne }
{}

/// In random order the least entry that was not played in the round follows.
pub fn chooses_unplayed()
    ensures { ChoosesUnplayed }
{}

/// Where the order is not random the entry at the next position follows.
pub fn follows_positions()
    ensures { FollowsPositions }
{}

/// In random order a round goes on until all entries were played in it.
pub fn rounds_go_on()
    ensures { RoundsGoOn }
{}

/// A round forgets the song that consume takes out, and the entries that are deleted, and no others.
pub fn rounds_forget_gone()
    ensures { RoundsForgetGone }
{}

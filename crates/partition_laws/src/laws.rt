//! Laws of daemons with several partitions. A caller that calls one may use it; each does nothing.
ghost use Rattle.partition_laws.specs.Apart.{EqualViewsHearTheSame, LeadsToLegal, OpensLegal, OthersMayBeLeftOut, StaysLegal};
ghost use Rattle.partition_laws.specs.Moves.{MovesRise, MovesTellSpots, OpensApart, StaysApart};
ghost use Rattle.partition_laws.specs.Owing.{FeedsNoNewcomer, FeedsOweNothing};
ghost use Rattle.partition_laws.specs.Reports.{FeedsNameMoves, KeepsOutputs, OpensWithOutputs, TurnsTellMoves};

/// A daemon that nothing happened to is legal, and a legal one is so after every event: so each is that some
/// history led to.
pub fn daemons_stay_legal()
    ensures opening { OpensLegal }
    ensures next { StaysLegal }
    ensures history { LeadsToLegal }
{}

/// Of two daemons that agree on a partition, an event that belongs to it in both is answered alike, each
/// client in it hears the same, and they go on agreeing.
pub fn equal_views_hear_the_same()
    ensures { EqualViewsHearTheSame }
{}

/// Events that belong to other partitions alone and leave what all share as it was may be left out: what is
/// heard in the partition stays.
pub fn others_may_be_left_out()
    ensures { OthersMayBeLeftOut }
{}

/// An event brings an output to another partition, where it was moved once more, or leaves it where it is,
/// moved as often as before. So an output that was moved as often as before is where it was.
pub fn moves_rise()
    ensures opening { OpensApart }
    ensures next { StaysApart }
    ensures rise { MovesRise }
    ensures tell { MovesTellSpots }
{}

/// The turn of an output is told how often the output was moved, and frames are fed to an output with how
/// often it was moved: those that were fed before a move have fewer moves than the turns after it.
pub fn reports_tell_moves()
    ensures opening { OpensWithOutputs }
    ensures next { KeepsOutputs }
    ensures turns { TurnsTellMoves }
    ensures feeds { FeedsNameMoves }
{}

/// A want says in the rings of which outputs frames wait. Where it is given a job, the frames of that job are
/// fed to none of these outputs, whatever happens before they are decoded: no ring that is handed them owed
/// any.
pub fn feeds_owe_nothing()
    ensures { FeedsOweNothing }
{}

/// Whatever happens between a want that is given a job and the have of its frames, these are fed to no output
/// that came to the partition in between, also where it was there before: each of those that they are fed to was
/// in it at the want, moved as often as at the have.
pub fn feeds_no_newcomer()
    ensures { FeedsNoNewcomer }
{}

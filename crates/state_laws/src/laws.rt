//! The laws of states. A caller that calls one may use it; each does nothing.
ghost use Rattle.state_laws.specs.Assumed.{AssumptionsAreMet, SettingsAreSetUp, SettingsLeaveRoom};
ghost use Rattle.state_laws.specs.Bytes.{BytesAreRead, LinesEnd, OpenedComesBack};
ghost use Rattle.state_laws.specs.Limits.{AllStayWithin, OpenedStaysWithin};
ghost use Rattle.state_laws.specs.Own.{OffsetsComeBack, PlayersComeBack};
ghost use Rattle.state_laws.specs.Partitions.{AllLinesHappen, AllPlayersComeBack, PartitionsComeBack};
ghost use Rattle.state_laws.specs.Saying.{LineIsRead, OpensEmpty, StateComesBack, StepsHappen};
ghost use Rattle.state_laws.specs.Telling.{LinesAreOfState, StepsAreTold, TextComesBack, TextIsSteps, ToldPlayersComeBack};
ghost use Rattle.state_laws.specs.Telling.{PlayerLinesAreOfState, PlayerTextComesBack, PlayerTextIsLines, ToldPartitionsComeBack};

/// A line of a state is to the player of one thread what it is to a reading of kept states. So a player with an
/// empty queue that is told all lines of a state has what is kept, of the songs that there are; what it is told are
/// events of its history; and it is told them where a teller goes through their bytes line by line.
pub fn states_come_back()
    ensures line { LineIsRead }
    ensures state { StateComesBack }
    ensures events { StepsHappen }
    ensures told { StepsAreTold }
{}

/// The bytes of a state's lines are read as the commands that these ask for. So a player that was just opened, and
/// is told the text of a state, has what is kept; and no line passes a limit, where there may be as many cuts.
pub fn texts_come_back()
    ensures opening { OpensEmpty }
    ensures ends { LinesEnd }
    ensures bytes { BytesAreRead }
    ensures opened { OpenedComesBack }
    ensures within { OpenedStaysWithin }
{}

/// A player that was just opened, and is told what another one told of itself, is as that one was, except for ids and
/// versions; an offset in a song may be up to a thousandth of a second earlier.
pub fn players_come_back()
    ensures offsets { OffsetsComeBack }
    ensures players { PlayersComeBack }
{}

/// The text of a state, read line by line, is the bytes of the state's lines, and none of them is refused for its
/// command. So a player that was just opened, and is told the text line by line, has what is kept; and is as the
/// player was that told the state of itself. No URI that a scan finds has a control in it.
pub fn told_texts_come_back()
    ensures known { LinesAreOfState }
    ensures text { TextIsSteps }
    ensures back { TextComesBack }
    ensures players { ToldPlayersComeBack }
{}

/// The same of a player with all its partitions. One that was just opened, and is told the lines of all partitions, has
/// each of them with what is kept of it, of the songs that there are, and each output in its own partition; where
/// another player told them of itself, each partition is as it was there. What it is told are events of its history;
/// and no line passes a limit, where there may be as many cuts and moves.
pub fn partitions_come_back()
    ensures kept { PartitionsComeBack }
    ensures players { AllPlayersComeBack }
    ensures events { AllLinesHappen }
    ensures within { AllStayWithin }
{}

/// The text of all partitions, read line by line, is the bytes of their lines, and none of them is refused for its
/// command. So a player that was just opened, and is told the text line by line, has all partitions as above.
pub fn told_partitions_come_back()
    ensures known { PlayerLinesAreOfState }
    ensures text { PlayerTextIsLines }
    ensures back { PlayerTextComesBack }
    ensures players { ToldPartitionsComeBack }
{}

/// Whatever its settings say, the daemon opens its player as these laws assume: with at most eight outputs, each of
/// another name, all in the first partition, none of which has failed or was moved; and with room for 16,384 songs in
/// a queue. There are settings and partitions of which all holds that the laws assume.
pub fn settings_are_set_up()
    ensures outputs { SettingsAreSetUp }
    ensures room { SettingsLeaveRoom }
    ensures met { AssumptionsAreMet }
{}

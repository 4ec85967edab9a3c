//! The laws of what clients are told of. A caller that calls one may use it; it does nothing.
ghost use Rattle.notice_laws.specs.ClientSteps.{EventsAreClientSteps};
ghost use Rattle.notice_laws.specs.Told.{ChannelsAreTold, DatabaseIsTold, HasLines, LinesAreTold, MessagesAreTold, OptionsAreTold, OutputsAreTold, PartitionsAreTold, PlaylistsAreTold, QueueIsTold, StatusIsTold, StickersAreTold};

/// Each event of a daemon is a step of each client that it leaves where it is: so all laws speak of it.
pub fn events_are_client_steps()
    ensures { EventsAreClientSteps }
{}

/// Two moments at which a command that asks is answered otherwise have a notice between them, of a subsystem
/// that tells of this command.
pub fn answers_are_told_of()
    ensures queue { QueueIsTold }
    ensures current { StatusIsTold }
    ensures options { OptionsAreTold }
    ensures outputs { OutputsAreTold }
    ensures channels { ChannelsAreTold }
    ensures partitions { PartitionsAreTold }
    ensures database { DatabaseIsTold }
    ensures playlists { PlaylistsAreTold }
    ensures stickers { StickersAreTold }
{}

/// `status` and `stats` are lines, of which each changes only with a notice of a subsystem that tells of it. No
/// notice tells of the time in a song, of how long was played, and of the song that comes next.
pub fn lines_are_told_of()
    ensures lines { HasLines }
    ensures told { LinesAreTold }
{}

/// Where no messages waited for a client, and some do, it is told so.
pub fn messages_are_told_of()
    ensures { MessagesAreTold }
{}

//! What the playback commands are read as.
//!
//! Each line of a text is read, and told as a command with its values or as the refusal.
use mpd_command::{
    Command, CommandSet, OptionCommand, OutputCommand, PlaybackCommand, QueueCommand, Request,
    StatusCommand,
};
use std::alloc::{AllocError, Global};
use std::test::Fail;
use test_texts::{Recorder, wants};

/// A command that has no argument.
fn bare(command: &Command) -> &'static str {
    match command {
        Command::Status(StatusCommand::ClearError) => "ClearError",
        Command::Status(StatusCommand::CurrentSong) => "CurrentSong",
        Command::Playback(PlaybackCommand::Next) => "Next",
        Command::Outputs(OutputCommand::Outputs) => "Outputs",
        Command::Playback(PlaybackCommand::Previous) => "Previous",
        Command::Playback(PlaybackCommand::Stop) => "Stop",
        _ => "another",
    }
}

/// Adds a command of an output or of the options, or one that has no argument.
fn add_option(recorder: &mut Recorder, command: &Command) {
    match command {
        Command::Outputs(OutputCommand::DisableOutput(output)) => {
            recorder.add(format_args!("DisableOutput({output})"));
        }
        Command::Outputs(OutputCommand::EnableOutput(output)) => {
            recorder.add(format_args!("EnableOutput({output})"));
        }
        Command::Outputs(OutputCommand::ToggleOutput(output)) => {
            recorder.add(format_args!("ToggleOutput({output})"));
        }
        Command::Options(OptionCommand::Consume(mode)) => {
            recorder.add(format_args!("Consume({mode:?})"));
        }
        Command::Options(OptionCommand::Random(on)) => recorder.add(format_args!("Random({on})")),
        Command::Options(OptionCommand::Single(mode)) => recorder.add(format_args!(
            "Single({mode:?})"
        )),
        Command::Queue(QueueCommand::Shuffle(range)) => recorder.add(format_args!(
            "Shuffle({range:?})"
        )),
        _ => recorder.add(bare(command)),
    }
}

/// Adds a command with its values.
fn add_command(recorder: &mut Recorder, command: &Command) {
    match command {
        Command::Playback(PlaybackCommand::Pause(on)) => recorder.add(format_args!(
            "Pause({on:?})"
        )),
        Command::Playback(PlaybackCommand::Play(position)) => recorder.add(format_args!(
            "Play({position:?})"
        )),
        Command::Playback(PlaybackCommand::PlayId(id)) => recorder.add(format_args!(
            "PlayId({id:?})"
        )),
        Command::Playback(PlaybackCommand::Seek(position, time)) => {
            recorder.add(format_args!("Seek({position}, {})", time.0));
        }
        Command::Playback(PlaybackCommand::SeekId(id, time)) => {
            recorder.add(format_args!("SeekId({id}, {})", time.0));
        }
        Command::Playback(PlaybackCommand::SeekCur(seeking)) => {
            recorder.add(format_args!("SeekCur({seeking:?})"));
        }
        _ => add_option(recorder, command),
    }
}

/// Adds what a line is read as.
fn add_read(recorder: &mut Recorder, alloc: Global, line: &str) {
    match &Request::of_line(alloc, line, CommandSet::base()) {
        Ok(Request::Run(_, command)) => add_command(recorder, command),
        Ok(Request::Refused(ack)) => recorder.add(ack.text.as_str()),
        Err(_) => recorder.fail(),
    }
    recorder.add("\n");
}

fn read_each(alloc: Global, lines: &str) -> Result<String, AllocError> {
    let mut recorder = Recorder::new(alloc);
    for line in lines.lines() {
        add_read(&mut recorder, alloc, line);
    }
    recorder.into_text()
}

const COMMANDS: &str = "clearerror
consume 1
consume oneshot
currentsong
disableoutput 0
enableoutput 1
next
outputs
pause
pause 1
pause 0
play
play 4294967295
playid
playid 7
previous
random 0
seek 2 12.5
seekcur 0.0019
seekcur +10
seekcur -1.25
seekid 7 999999999.999
shuffle
shuffle 1:3
single 0
single 1
single oneshot
stop
toggleoutput 4294967295
";

const COMMANDS_READ: &str = "ClearError
Consume(On)
Consume(Oneshot)
CurrentSong
DisableOutput(0)
EnableOutput(1)
Next
Outputs
Pause(None)
Pause(Some(true))
Pause(Some(false))
Play(None)
Play(Some(4294967295))
PlayId(None)
PlayId(Some(7))
Previous
Random(false)
Seek(2, 12500)
SeekCur(To(Millis(1)))
SeekCur(Forward(Millis(10000)))
SeekCur(Back(Millis(1250)))
SeekId(7, 999999999999)
Shuffle(None)
Shuffle(Some(Between(1, 3)))
Single(Off)
Single(On)
Single(Oneshot)
Stop
ToggleOutput(4294967295)
";

const REFUSED: &str = "next 1
consume
consume 2
pause 2
pause 1 1
play -1
play 4294967296
playid x
seek 1
seek x y
seek 1 -5
seek 1 1234567890
seekcur 123456789
seekcur 1234567890
seekcur +1234567890.5
seekcur +-1
seekcur +
seekcur 1.
seekcur .5
shuffle 3:1
single oneShot
single 2
single
enableoutput
toggleoutput -1
";

const REFUSED_READ: &str = "wrong number of arguments for \"next\"
wrong number of arguments for \"consume\"
bad argument \"2\"
bad argument \"2\"
wrong number of arguments for \"pause\"
bad argument \"-1\"
bad argument \"4294967296\"
bad argument \"x\"
wrong number of arguments for \"seek\"
bad argument \"x\"
bad argument \"-5\"
bad argument \"1234567890\"
SeekCur(To(Millis(123456789000)))
bad argument \"1234567890\"
bad argument \"+1234567890.5\"
bad argument \"+-1\"
bad argument \"+\"
bad argument \"1.\"
bad argument \".5\"
bad argument \"3:1\"
bad argument \"oneShot\"
bad argument \"2\"
wrong number of arguments for \"single\"
wrong number of arguments for \"enableoutput\"
bad argument \"-1\"
";

/// Commands, and arguments that are refused.
#[test]
fn playback_commands_are_read(rt: HostRuntime) -> Result<(), Fail> {
    wants(read_each(rt.alloc(), COMMANDS), COMMANDS_READ)?;
    wants(read_each(rt.alloc(), REFUSED), REFUSED_READ)
}

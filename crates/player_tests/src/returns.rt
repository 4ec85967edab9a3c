//! A player that is told the state of another, by the answers of both.
use crate::session::session_over;
use kept_state::{kept_of, state_text};
use std::alloc::{AllocError, Global};
use std::test::Fail;
use test_texts::{Recorder, wants_made};

const SONGS: &str = "a.wav\nb.wav\nc.wav";

const QUESTIONS: &str = "1 status\n1 outputs\n1 playlistinfo\n";

/// What the player of these tests has of its outputs from the start.
const OUTPUTS: &str = "enableoutput 0
enableoutput 1
enableoutput 2
enableoutput 3
enableoutput 4
enableoutput 5
enableoutput 6
disableoutput 7
";

const FIRST_OPTIONS: &str = "setvol 100\nrepeat 0\nrandom 0\nsingle 0\nconsume 0\ncrossfade 0\n";

/// The state of a player that was told these steps.
fn state_after(alloc: Global, uris: &str, steps: &str) -> Result<String, AllocError> {
    let steps = format!(in alloc; "comes 1\n{steps}{QUESTIONS}")?;
    let observed = session_over(alloc, uris, steps.as_str())?;
    state_text(alloc, &kept_of(alloc, observed.as_str())?)
}

/// The steps of a client that says these lines.
pub(crate) fn steps_of(alloc: Global, lines: &str) -> Result<String, AllocError> {
    let mut steps = Recorder::new(alloc);
    let mut is_in_list = false;
    for line in lines.lines() {
        if line == "command_list_begin" {
            is_in_list = true;
            steps.add("runs_plain ");
        } else if line == "command_list_end" {
            is_in_list = false;
            steps.add("ping\n");
        } else if is_in_list {
            steps.add(format_args!("{line};"));
        } else {
            steps.add(format_args!("1 {line}\n"));
        }
    }
    steps.into_text()
}

/// The state of a player over these songs that was told the state of another, which was told these steps.
fn state_again(alloc: Global, uris: &str, steps: &str) -> Result<String, AllocError> {
    let state = state_after(alloc, SONGS, steps)?;
    let lines = steps_of(alloc, state.as_str())?;
    state_after(alloc, uris, lines.as_str())
}

/// A paused player with priorities, another volume and other modes, and an output that is off.
const PAUSED: &str = "1 add a.wav
1 add b.wav
1 add c.wav
1 prio 7 0
1 prio 255 2
1 setvol 41
1 repeat 1
1 single oneshot
1 consume 1
1 crossfade 3
1 disableoutput 1
1 seek 1 0.5
1 pause 1
";

const PAUSED_OPTIONS: &str = "setvol 41
repeat 1
random 0
single oneshot
consume 1
crossfade 3
enableoutput 0
disableoutput 1
enableoutput 2
enableoutput 3
enableoutput 4
enableoutput 5
enableoutput 6
disableoutput 7
";

const PAUSED_LAST: &str = "command_list_begin
addid \"c.wav\" 0
prio 255 0
command_list_end
";

const PAUSED_SONG: &str = "command_list_begin
addid \"b.wav\" 0
seek 0 0.500
pause 1
command_list_end
";

const PAUSED_FIRST: &str = "command_list_begin
addid \"a.wav\" 0
prio 7 0
command_list_end
";

/// The lines of the state of that player, with those of these songs.
fn paused_tells(alloc: Global, songs: [&str; 3]) -> Result<String, AllocError> {
    let [last, song, first] = songs;
    format!(in alloc; "{PAUSED_OPTIONS}{last}{song}{first}")
}

// Songs that are gone take no others along: those have their own priorities and positions.
#[test]
fn a_paused_player_comes_back(rt: HostRuntime) -> Result<(), Fail> {
    let alloc = rt.alloc();
    let all = [PAUSED_LAST, PAUSED_SONG, PAUSED_FIRST];
    wants_made(state_after(alloc, SONGS, PAUSED), paused_tells(alloc, all))?;
    wants_made(state_again(alloc, SONGS, PAUSED), paused_tells(alloc, all))?;
    wants_made(
        state_again(alloc, "a.wav\nc.wav", PAUSED),
        paused_tells(alloc, [PAUSED_LAST, "", PAUSED_FIRST]),
    )?;
    wants_made(
        state_again(alloc, "b.wav", PAUSED),
        paused_tells(alloc, ["", PAUSED_SONG, ""]),
    )
}

/// Steps, and the lines of the state after those of volume, modes and outputs as they are at the start.
const PLAYERS: [(&str, &str); 5] = [
    ("", ""),
    (
        "1 add a.wav\n1 add b.wav\n",
        "addid \"b.wav\" 0\naddid \"a.wav\" 0\n",
    ),
    (
        "1 add a.wav\n1 add b.wav\n1 play 1\n1 stop\n",
        "command_list_begin\naddid \"b.wav\" 0\nplay 0\nstop\ncommand_list_end\naddid \"a.wav\" 0\n",
    ),
    (
        "1 add a.wav\n1 add a.wav\n1 prio 3 0\n1 seek 0 0.25\n",
        "addid \"a.wav\" 0\ncommand_list_begin\naddid \"a.wav\" 0\nprio 3 0\nseek 0 0.250\ncommand_list_end\n",
    ),
    (
        "1 add c.wav\n1 play 0\n1 clear\n1 add b.wav\n",
        "addid \"b.wav\" 0\n",
    ),
];

fn player_tells(alloc: Global, lines: &str) -> Result<String, AllocError> {
    format!(in alloc; "{FIRST_OPTIONS}{OUTPUTS}{lines}")
}

fn check_player(alloc: Global, steps: &str, lines: &str) -> Result<(), Fail> {
    wants_made(state_after(alloc, SONGS, steps), player_tells(alloc, lines))?;
    wants_made(state_again(alloc, SONGS, steps), player_tells(alloc, lines))
}

#[test]
fn players_come_back(rt: HostRuntime) -> Result<(), Fail> {
    for (steps, lines) in PLAYERS.iter() {
        check_player(rt.alloc(), steps, lines)?;
    }
    Ok(())
}

//! A player with partitions that is told the state of another, by the answers of both.
use crate::returns::steps_of;
use crate::session::session_over;
use kept_state::{partitions_of, player_text};
use std::alloc::{AllocError, Global};
use std::test::Fail;
use test_texts::wants_made;

const SONGS: &str = "a.wav\nb.wav\nc.wav";

/// A song that is played in the partition `default`; another partition with two outputs that are off and a paused song.
const STEPS: &str = "1 add a.wav
1 setvol 41
1 play 0
1 newpartition kitchen
1 partition kitchen
1 moveoutput \"room 1\"
1 moveoutput \"room 7\"
1 disableoutput 1
1 add b.wav
1 add c.wav
1 crossfade 2
1 seek 1 0.5
1 pause 1
";

const ASKED: &str = "1 listpartitions
1 partition default
1 status
1 outputs
1 playlistinfo
";

const ASKED_THERE: &str = "1 partition kitchen
1 status
1 outputs
1 playlistinfo
";

const DEFAULT: &str = "setvol 41
repeat 0
random 0
single 0
consume 0
crossfade 0
enableoutput 0
enableoutput 2
enableoutput 3
enableoutput 4
enableoutput 5
enableoutput 6
command_list_begin
addid \"a.wav\" 0
seek 0 0.000
command_list_end
";

const KITCHEN: &str = "newpartition \"kitchen\"
partition \"kitchen\"
moveoutput \"room 1\"
moveoutput \"room 7\"
setvol 100
repeat 0
random 0
single 0
consume 0
crossfade 2
disableoutput 1
disableoutput 7
";

const KITCHEN_SONG: &str = "command_list_begin
addid \"c.wav\" 0
seek 0 0.500
pause 1
command_list_end
";

/// The state of a player that was told these steps, and was asked these questions.
fn state_after(alloc: Global, uris: &str, steps: &str, asked: &str) -> Result<String, AllocError> {
    let steps = format!(in alloc; "comes 1\n{steps}{ASKED}{asked}")?;
    let observed = session_over(alloc, uris, steps.as_str())?;
    match partitions_of(alloc, observed.as_str())? {
        Some(partitions) => player_text(alloc, &partitions),
        None => String::from_str(alloc, "not all\n"),
    }
}

/// The state of that player, then of one that was told it, and of one that was told it where a song is gone; and what is
/// kept where one partition alone tells of itself.
fn states(alloc: Global) -> Result<String, AllocError> {
    let state = state_after(alloc, SONGS, STEPS, ASKED_THERE)?;
    let lines = steps_of(alloc, state.as_str())?;
    let again = state_after(alloc, SONGS, lines.as_str(), ASKED_THERE)?;
    let gone = state_after(alloc, "a.wav\nb.wav", lines.as_str(), ASKED_THERE)?;
    let one = state_after(alloc, SONGS, STEPS, "")?;
    format!(in alloc; "{state}{again}{gone}{one}")
}

fn expected_states(alloc: Global) -> Result<String, AllocError> {
    let others = "addid \"b.wav\" 0\n";
    let whole = format!(in alloc; "{DEFAULT}{KITCHEN}{KITCHEN_SONG}{others}")?;
    format!(in alloc; "{whole}{whole}{DEFAULT}{KITCHEN}{others}not all\n")
}

#[test]
fn partitions_come_back(rt: HostRuntime) -> Result<(), Fail> {
    let alloc = rt.alloc();
    wants_made(states(alloc), expected_states(alloc))
}

//! Sessions of clients that say a few lines, and what is observed of each.
use crate::days::{Step, observed_where};
use crate::wires::Takes;
use std::test::Fail;
use test_texts::wants;

/// A session in a house of its own.
struct Row<'a> {
    steps: &'a [Step<'a>],
    may_kill: bool,
    expected: &'a str,
}

const SESSIONS: &[Row<'_>] = &[
    // No line is run behind a close.
    Row {
        steps: &[
            Step::Comes(1, Takes::All),
            Step::Comes(2, Takes::All),
            Step::Says(1, b"ping\nclose\nadd a.wav\nping\n"),
            Step::Says(1, b"add b.wav\n"),
            Step::Says(2, b"plchangesposid 0\n"),
        ],
        may_kill: false,
        expected: "1 left
OK MPD 0.23.0
OK
2 open
OK MPD 0.23.0
OK
",
    },
    // A close ends a list.
    Row {
        steps: &[
            Step::Comes(1, Takes::All),
            Step::Says(
                1,
                b"command_list_ok_begin\nping\nclose\nping\ncommand_list_end\nping\n",
            ),
        ],
        may_kill: false,
        expected: "1 left
OK MPD 0.23.0
list_OK
",
    },
    // A kill is refused, or allowed.
    Row {
        steps: &[
            Step::Comes(1, Takes::All),
            Step::Says(1, b"ping\nkill\nping\n"),
        ],
        may_kill: false,
        expected: "1 open
OK MPD 0.23.0
OK
ACK [4@0] {kill} no permission for \"kill\"
OK
",
    },
    Row {
        steps: &[
            Step::Comes(1, Takes::All),
            Step::Says(1, b"ping\nkill\nping\n"),
        ],
        may_kill: true,
        expected: "1 killed
OK MPD 0.23.0
OK
",
    },
    // In a list the first kill ends the daemon; a close before it does not.
    Row {
        steps: &[
            Step::Comes(1, Takes::All),
            Step::Comes(2, Takes::All),
            Step::Says(
                1,
                b"command_list_ok_begin\nping\nclose\nkill\ncommand_list_end\n",
            ),
            Step::Says(
                2,
                b"command_list_ok_begin\nping\nkill\nkill\ncommand_list_end\n",
            ),
        ],
        may_kill: true,
        expected: "1 left
OK MPD 0.23.0
list_OK
2 killed
OK MPD 0.23.0
list_OK
",
    },
    // What came whole is answered where the peer sends no more; a started line is not.
    Row {
        steps: &[
            Step::Comes(1, Takes::UpTo(5)),
            Step::Says(1, b"ping\nping"),
            Step::Ends(1),
            Step::Says(1, b"\n"),
        ],
        may_kill: false,
        expected: "1 no peer\nOK MP",
    },
    // A reader fails.
    Row {
        steps: &[
            Step::Comes(1, Takes::All),
            Step::Says(1, b"ping\n"),
            Step::Fails(1),
            Step::Says(1, b"ping\n"),
        ],
        may_kill: false,
        expected: "read fault answered
1 read fault
OK MPD 0.23.0
OK
",
    },
    // What is unsent is written in the turn of a read fault, as far as the writer takes it.
    Row {
        steps: &[
            Step::Comes(1, Takes::Haltingly(9)),
            Step::Says(1, b"ping\n"),
            Step::Fails(1),
        ],
        may_kill: false,
        expected: "read fault answered
1 read fault
OK MPD 0.23.0
OK
",
    },
    // A line is no text, and another is empty.
    Row {
        steps: &[
            Step::Comes(1, Takes::All),
            Step::Says(1, b"\xff\nping\r\n\n"),
        ],
        may_kill: false,
        expected: "1 open
OK MPD 0.23.0
ACK [2@0] {} line is not UTF-8
OK
ACK [5@0] {} no command given
",
    },
    // A list stops at its first failure.
    Row {
        steps: &[
            Step::Comes(1, Takes::All),
            Step::Says(
                1,
                b"command_list_ok_begin\nping\nadd a.wav\nadd nosuch.wav\nadd b.wav\ncommand_list_end\n",
            ),
            Step::Says(1, b"plchangesposid 0\n"),
        ],
        may_kill: false,
        expected: "1 open
OK MPD 0.23.0
list_OK
list_OK
ACK [50@2] {add} no such song
cpos: 0
Id: 1
OK
",
    },
    // A list prints nothing until its end; what stands in no list is an unknown command; an empty list is
    // answered.
    Row {
        steps: &[
            Step::Comes(1, Takes::All),
            Step::Says(
                1,
                b"command_list_end\ncommand_list_begin\ncommand_list_end\n",
            ),
            Step::Says(
                1,
                b" command_list_ok_begin\t\nping\ncommand_list_begin\nping\n",
            ),
            Step::Says(1, b"command_list_end\nping\n"),
            Step::Says(1, b"command_list_begin\n\xff\ncommand_list_end\n"),
        ],
        may_kill: false,
        expected: "1 open
OK MPD 0.23.0
ACK [5@0] {} unknown command \"command_list_end\"
OK
list_OK
ACK [5@1] {} unknown command \"command_list_begin\"
OK
ACK [2@0] {} line is not UTF-8
",
    },
    // An open list prints nothing.
    Row {
        steps: &[
            Step::Comes(1, Takes::All),
            Step::Says(1, b"command_list_ok_begin\nping\nadd a.wav\n"),
        ],
        may_kill: false,
        expected: "1 open
OK MPD 0.23.0
",
    },
    // A list that is open where its client goes is not run.
    Row {
        steps: &[
            Step::Comes(1, Takes::All),
            Step::Comes(2, Takes::All),
            Step::Says(
                1,
                b"ping\ncommand_list_begin\nadd a.wav\nadd b.wav\ncommand_list_",
            ),
            Step::Ends(1),
            Step::Says(2, b"plchangesposid 0\n"),
        ],
        may_kill: false,
        expected: "1 no peer
OK MPD 0.23.0
OK
2 open
OK MPD 0.23.0
OK
",
    },
    // A notice is told at a turn, once.
    Row {
        steps: &[
            Step::Comes(1, Takes::All),
            Step::Comes(2, Takes::All),
            Step::Says(1, b"idle mixer player\n"),
            Step::Says(2, b"setvol 40\n"),
            Step::Waits(1),
            Step::Waits(1),
            Step::Says(1, b"ping\n"),
        ],
        may_kill: false,
        expected: "1 open
OK MPD 0.23.0
changed: mixer
OK
OK
2 open
OK MPD 0.23.0
OK
",
    },
    // A notice that waits stands in front of the answer to the next line, also where that line meets it on
    // its way.
    Row {
        steps: &[
            Step::Comes(1, Takes::All),
            Step::Comes(2, Takes::All),
            Step::Says(1, b"idle mixer\n"),
            Step::Says(2, b"setvol 41\n"),
            Step::Says(1, b"status\n"),
            Step::Says(1, b"idle mixer\n"),
            Step::Says(2, b"setvol 42\n"),
            Step::Says(1, b"noidle\ngetvol\n"),
        ],
        may_kill: false,
        expected: "1 open
OK MPD 0.23.0
changed: mixer
OK
volume: 41
repeat: 0
random: 0
single: 0
consume: 0
partition: default
playlist: 1
playlistlength: 0
state: stop
OK
changed: mixer
OK
volume: 42
OK
2 open
OK MPD 0.23.0
OK
OK
",
    },
    // An empty list leaves a client waiting; any other line closes it.
    Row {
        steps: &[
            Step::Comes(1, Takes::All),
            Step::Comes(2, Takes::All),
            Step::Says(1, b"idle\ncommand_list_begin\ncommand_list_end\n"),
            Step::Says(2, b"setvol 43\n"),
            Step::Waits(1),
            Step::Says(1, b"idle\nping\nping\n"),
            Step::Says(
                2,
                b"idle\nidle\ncommand_list_begin\nnoidle\ncommand_list_end\nping\n",
            ),
        ],
        may_kill: false,
        expected: "1 left
OK MPD 0.23.0
OK
changed: mixer
OK
2 left
OK MPD 0.23.0
OK
changed: mixer
OK
",
    },
];

#[test]
fn sessions_tell_what_is_expected(rt: HostRuntime) -> Result<(), Fail> {
    for row in SESSIONS {
        wants(
            observed_where(&rt, rt.alloc(), row.steps, row.may_kill),
            row.expected,
        )?;
    }
    Ok(())
}

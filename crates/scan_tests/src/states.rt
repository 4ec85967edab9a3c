//! What is kept of a player, as lines.
use kept_state::{kept_of, partitions_of, player_text, state_text};
use std::alloc::{AllocError, Global};
use std::test::Fail;
use test_texts::{wants, wants_made};

/// What a player with two partitions answered, the other one first.
const PARTITIONS: &str = "partition: bath
partition: default
volume: 30
partition: bath
state: stop
outputid: 1
outputname: a \"b\"
outputenabled: 0
outputid: 2
outputname: c
outputenabled: 1
file: b.wav
volume: 100
partition: default
state: stop
outputid: 0
outputname: d
outputenabled: 1
file: a.wav
";

const PARTITION_LINES: &str = "setvol 100
repeat 0
random 0
single 0
consume 0
crossfade 0
enableoutput 0
addid \"a.wav\" 0
newpartition \"bath\"
partition \"bath\"
moveoutput \"a \\\"b\\\"\"
moveoutput \"c\"
setvol 30
repeat 0
random 0
single 0
consume 0
crossfade 0
disableoutput 1
enableoutput 2
addid \"b.wav\" 0
";

const OPTIONS: &str = "setvol 100\nrepeat 0\nrandom 0\nsingle 0\nconsume 0\ncrossfade 0\n";

/// What a player answered, and the lines after those of volume and modes as they are at the start.
const ANSWERS: [(&str, &str); 8] = [
    ("", ""),
    (
        "state: stop\nfile: a.wav\nPos: 0\nId: 7\nfile: b.wav\nPos: 1\nId: 8\n",
        "addid \"b.wav\" 0\naddid \"a.wav\" 0\n",
    ),
    (
        "state: pause\nsong: 1\nelapsed: 4.500\nfile: a.wav\nTitle: state: play\nPos: 0\nId: 7\nPrio: 2\nfile: b \"x\".wav\nPos: 1\nId: 8\nPrio: 9\nfile: c.wav\nPos: 2\nId: 9\nPrio: 255\n",
        "command_list_begin\naddid \"c.wav\" 0\nprio 255 0\ncommand_list_end\ncommand_list_begin\naddid \"b \\\"x\\\".wav\" 0\nprio 9 0\nseek 0 4.500\npause 1\ncommand_list_end\ncommand_list_begin\naddid \"a.wav\" 0\nprio 2 0\ncommand_list_end\n",
    ),
    (
        "state: play\nsong: 0\nelapsed: 0.000\nfile: a.wav\n",
        "command_list_begin\naddid \"a.wav\" 0\nseek 0 0.000\ncommand_list_end\n",
    ),
    (
        "state: stop\nsong: 0\nfile: a.wav\n",
        "command_list_begin\naddid \"a.wav\" 0\nplay 0\nstop\ncommand_list_end\n",
    ),
    ("state: stop\nnextsong: 3\n", ""),
    ("state: play\nsong: 3\nfile: a.wav\n", "addid \"a.wav\" 0\n"),
    (
        "outputid: 0\noutputname: outputenabled: 0\noutputenabled: 1\noutputid: 1\noutputenabled: 0\n",
        "enableoutput 0\ndisableoutput 1\n",
    ),
];

fn text_of(alloc: Global, answers: &str) -> Result<String, AllocError> {
    let kept = kept_of(alloc, answers)?;
    state_text(alloc, &kept)
}

/// What is kept of a player that answered so is these lines.
fn gives(alloc: Global, answers: &str, lines: &str) -> Result<(), Fail> {
    wants_made(
        text_of(alloc, answers),
        format!(in alloc; "{OPTIONS}{lines}"),
    )
}

fn partitions_text(alloc: Global, answers: &str) -> Result<String, AllocError> {
    match partitions_of(alloc, answers)? {
        Some(partitions) => player_text(alloc, &partitions),
        None => String::from_str(alloc, "not all"),
    }
}

#[test]
fn partitions(rt: HostRuntime) -> Result<(), Fail> {
    wants(partitions_text(rt.alloc(), PARTITIONS), PARTITION_LINES)?;
    wants(
        partitions_text(
            rt.alloc(),
            "partition: bath\npartition: default\nvolume: 1\npartition: default\n",
        ),
        "not all",
    )
}

#[test]
fn states(rt: HostRuntime) -> Result<(), Fail> {
    for (answers, lines) in ANSWERS.iter() {
        gives(rt.alloc(), answers, lines)?;
    }
    wants(
        text_of(
            rt.alloc(),
            "volume: 7\nrepeat: 1\nrandom: 1\nsingle: oneshot\nconsume: 1\nplaylist: 4\nxfade: 12\n",
        ),
        "setvol 7\nrepeat 1\nrandom 1\nsingle oneshot\nconsume 1\ncrossfade 12\n",
    )
}

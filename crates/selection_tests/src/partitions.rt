//! Clients and outputs go from one partition to another, and partitions come and go.
use idle_notes::Pending;
use known_tags::TagSet;
use mpd_command::{Command, CommandSet, Name, PartitionCommand, Request};
use mpd_text::SharedText;
use partition_commands::run;
use partition_table::{Crossing, Greatest, Openings, Parts, opened};
use player_state::{Client, Outputs};
use std::alloc::{AllocError, Global};
use std::test::Fail;
use test_texts::{Recorder, wants};
use transitions::{Asked, ListPlace, Move, Transition};

/// The partitions of a daemon, and its two clients.
#[derive(Drop)]
struct Daemon {
    parts: Parts,
    clients: [Client; 2],
}

fn openings() -> Openings {
    let greatest = Greatest {
        max_queue: 100,
        max_version: 1000,
        max_id: 1000,
        max_cut: 1000,
    };
    Openings::new(greatest, 7)
}

/// Three outputs, of which the first and the last have one name. The second is off.
fn outputs(alloc: Global) -> Result<Outputs, AllocError> {
    let mut outputs = Outputs::none(alloc);
    outputs.add(SharedText::new(alloc, "out0")?, true)?;
    outputs.add(SharedText::new(alloc, "out1")?, false)?;
    outputs.add(SharedText::new(alloc, "out0")?, true)?;
    Ok(outputs)
}

fn opening(alloc: Global) -> Result<Daemon, AllocError> {
    let outputs = outputs(alloc)?;
    let name = SharedText::new(alloc, "default")?;
    let parts = Parts::open(alloc, opened(alloc, openings(), 0, name, outputs))?;
    let first = Client {
        number: 1,
        index: 0,
        tags: TagSet::all(),
        pending: Pending::new(),
    };
    let second = Client { number: 2, ..first };
    Ok(Daemon {
        parts,
        clients: [first, second],
    })
}

fn cross(parts: &mut Parts, crossing: Crossing) {
    if !parts.moves_beyond(18_446_744_073_709_551_615, &crossing) {
        parts.cross(crossing);
    }
}

/// Does it, and adds what the client at this index is answered.
fn tell_done(recorder: &mut Recorder, daemon: &mut Daemon, at: usize, transition: Transition) {
    let mut transition = transition;
    let crossing = std::mem::replace(&mut transition.crossing, Crossing::Stays);
    cross(&mut daemon.parts, crossing);
    let response = transition.into_telling().response;
    if let Move::Enter(index) = response.client_move() {
        daemon.clients[at.min(1)].index = index;
    }
    recorder.add(response.into_reply().text());
}

fn tell_run(
    recorder: &mut Recorder,
    alloc: Global,
    daemon: &mut Daemon,
    at: usize,
    name: Name,
    command: &PartitionCommand,
) {
    let own = daemon.clients[at.min(1)].index;
    let asked = Asked {
        client: daemon.clients[at.min(1)].number,
        tags: TagSet::all(),
        name,
        list_place: ListPlace::Alone,
    };
    let done = run(
        alloc,
        &daemon.parts,
        &daemon.clients,
        openings(),
        asked,
        own,
        command,
    );
    match done {
        Ok(transition) => tell_done(recorder, daemon, at, transition),
        Err(_) => recorder.fail(),
    }
}

/// Adds what a line of the client at this index is answered.
fn tell_answer(recorder: &mut Recorder, alloc: Global, daemon: &mut Daemon, at: usize, line: &str) {
    let Ok(request) = Request::of_line(alloc, line, CommandSet::base()) else {
        return recorder.fail();
    };
    match &request {
        Request::Run(name, Command::Partitions(command)) => {
            tell_run(recorder, alloc, daemon, at, *name, command);
        }
        _ => recorder.add("no command of partitions\n"),
    }
}

/// Adds where an output is, and how.
fn tell_output(recorder: &mut Recorder, parts: &Parts, output: usize) {
    for part in parts.items() {
        if part.outputs.is_output(output) {
            return recorder.add(format_args!(
                "in {}, on {}, moved {}\n",
                part.index,
                part.outputs.is_enabled(output),
                part.outputs.moves(output)
            ));
        }
    }
    recorder.add("nowhere\n");
}

/// Adds where an output is, or the number of a partition.
fn tell_seen(recorder: &mut Recorder, parts: &Parts, word: &str) {
    match word {
        "0" => tell_output(recorder, parts, 0),
        "1" => tell_output(recorder, parts, 1),
        "2" => tell_output(recorder, parts, 2),
        name => recorder.add(format_args!("{:?}\n", parts.index_named(name))),
    }
}

/// What each line of a client is answered, or what is there to be seen, one after the other.
fn all_observed(alloc: Global, lines: &str) -> Result<String, AllocError> {
    let mut daemon = opening(alloc)?;
    let mut recorder = Recorder::new(alloc);
    for line in lines.lines() {
        match line.split_once(' ') {
            Some(("1", rest)) => tell_answer(&mut recorder, alloc, &mut daemon, 0, rest),
            Some(("2", rest)) => tell_answer(&mut recorder, alloc, &mut daemon, 1, rest),
            Some(("see", word)) => tell_seen(&mut recorder, &daemon.parts, word),
            _ => recorder.add("no line\n"),
        }
    }
    recorder.into_text()
}

/// Names are refused first.
const REFUSED_NAMES: &str =
    "1 newpartition a.b\n1 newpartition \"\"\n1 partition \"x y\"\n1 delpartition é\n\
    1 newpartition 0123456789abcdef0123456789ABCDEF0123456789_-cdef0123456789abcdef0\n\
    1 newpartition 0123456789abcdef0123456789ABCDEF0123456789_-cdef0123456789abcdef\n\
    1 delpartition 0123456789abcdef0123456789ABCDEF0123456789_-cdef0123456789abcdef\n";

const REFUSED_NAMES_TELL: &str = "ACK [2@0] {newpartition} bad name \"a.b\"\n\
    ACK [2@0] {newpartition} bad name \"\"\n\
    ACK [2@0] {partition} bad name \"x y\"\n\
    ACK [2@0] {delpartition} bad name \"é\"\n\
    ACK [2@0] {newpartition} bad name \"0123456789abcdef0123456789ABCDEF0123456789_-cdef0123456789abcdef0\"\n\
    OK\nOK\n";

/// Clients and outputs are in use.
const IN_USE: &str =
    "1 newpartition default\n1 newpartition k\n1 newpartition k\n1 newpartition Z\n\
    1 listpartitions\nsee k\nsee Z\n\
    1 partition x\n1 partition default\n2 partition k\n\
    1 delpartition x\n1 delpartition default\n1 delpartition k\n\
    1 moveoutput nosuch\n2 moveoutput out0\n2 moveoutput out0\nsee 0\nsee 1\nsee 2\n\
    2 partition default\n1 delpartition k\n1 moveoutput out0\nsee 0\n\
    1 delpartition k\n1 delpartition k\n1 listpartitions\n1 newpartition b\nsee b\n";

const IN_USE_TELLS: &str = "ACK [56@0] {newpartition} partition exists\nOK\n\
    ACK [56@0] {newpartition} partition exists\nOK\n\
    partition: Z\npartition: default\npartition: k\nOK\nSome(1)\nSome(2)\n\
    ACK [50@0] {partition} no such partition\nOK\nOK\n\
    ACK [50@0] {delpartition} no such partition\n\
    ACK [2@0] {delpartition} partition is the default\n\
    ACK [52@0] {delpartition} partition is in use\n\
    ACK [50@0] {moveoutput} no such output\nOK\nOK\n\
    in 1, on true, moved 1\nin 0, on false, moved 0\nin 0, on true, moved 0\n\
    OK\nACK [52@0] {delpartition} partition is in use\nOK\nin 0, on true, moved 2\n\
    OK\nACK [50@0] {delpartition} no such partition\n\
    partition: Z\npartition: default\nOK\nOK\nSome(1)\n";

/// Sixteen partitions are the most.
const SIXTEEN: &str = "1 newpartition b\n1 newpartition c\n1 newpartition d\n1 newpartition e\n\
    1 newpartition f\n1 newpartition g\n1 newpartition h\n1 newpartition i\n\
    1 newpartition j\n1 newpartition k\n1 newpartition l\n1 newpartition m\n\
    1 newpartition n\n1 newpartition o\n1 newpartition p\nsee p\n\
    1 newpartition q\n1 newpartition p\n1 delpartition c\n1 newpartition q\nsee q\n";

const SIXTEEN_TELL: &str = "OK\nOK\nOK\nOK\nOK\nOK\nOK\nOK\nOK\nOK\nOK\nOK\nOK\nOK\nOK\nSome(15)\n\
    ACK [52@0] {newpartition} too many partitions\n\
    ACK [56@0] {newpartition} partition exists\nOK\nOK\nSome(2)\n";

/// Lines of a daemon that is just opened, and what is observed of them.
const SESSIONS: &[(&str, &str)] = &[
    (REFUSED_NAMES, REFUSED_NAMES_TELL),
    (IN_USE, IN_USE_TELLS),
    (SIXTEEN, SIXTEEN_TELL),
];

#[test]
fn partitions_come_and_go(rt: HostRuntime) -> Result<(), Fail> {
    for (lines, expected) in SESSIONS {
        wants(all_observed(rt.alloc(), lines), expected)?;
    }
    Ok(())
}

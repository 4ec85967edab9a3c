//! Sessions of a few clients in one house, told as steps.
ghost use Rattle.std.specs.Prelude.{◌≡◌};
ghost use Rattle.house.specs.Blanks.{AreFor};

use crate::wires::{Feed, Pipe, Takes, Then};
use counted_devices::Counting;
use house::{Blanks, House, Ledgers, News, Seat};
use mpd_command::CommandSet;
use mpd_session::{Asker, End, Session, SessionFault};
use shelf::MemShelf;
use std::alloc::{AllocError, Global};
use std::marker::Brand;
use std::sync::Wait;
use test_houses::opened;
use test_texts::Recorder;

/// A step of a day.
#[derive(Clone, Copy)]
pub(crate) enum Step<'a> {
    /// A client comes, whose socket takes bytes so.
    Comes(u32, Takes),
    /// A client says some bytes, which its session reads in as many turns as it takes.
    Says(u32, &'a [u8]),
    /// A client's session has a turn in which there is nothing to read.
    Waits(u32),
    /// A client sends no more.
    Ends(u32),
    /// A client's socket fails to be read.
    Fails(u32),
}

/// A client with its session, and what its session wrote.
#[derive(Drop)]
struct TestClient {
    client: u32,
    session: Session,
    wire: Counting<Pipe>,
}

/// Gives a session turns until all bytes are read, or it is closed.
fn reads<L: Ledgers>(
    rt: &impl Wait,
    alloc: Global,
    house: &House<L>,
    seat: &mut Seat<L>,
    shelf: &mut MemShelf,
    test_client: &mut TestClient,
    bytes: &[u8],
    then: Then,
) -> Option<SessionFault> {
    let mut feed = Counting::new(Feed::new(bytes, then));
    for _ in 0..1_000_000u32 {
        let left = test_client
            .session
            .turn(rt, &mut feed, &mut test_client.wire, house, seat, shelf);
        match left {
            Ok(None) if !feed.inner().is_empty() => {}
            Ok(_) => return None,
            Err(fault) => return Some(fault),
        }
    }
    None
}

/// The name of what a session is.
fn state(session: &Session) -> &'static str {
    match session.end() {
        None => "open",
        Some(End::Left) => "left",
        Some(End::Killed) => "killed",
        Some(End::LongLine) => "long line",
        Some(End::LargeList) => "large list",
        Some(End::Unsent) => "unsent",
        Some(End::NoPeer) => "no peer",
        Some(End::ReadFault) => "read fault",
        Some(End::WriteFault) => "write fault",
    }
}

fn fault_name(fault: SessionFault) -> &'static str {
    match fault {
        SessionFault::ReadFault => "read fault answered\n",
        SessionFault::WriteFault => "write fault answered\n",
        SessionFault::NoMemory => "no memory answered\n",
    }
}

/// The clients that came, and what was observed of faults.
#[derive(Drop)]
struct Log {
    test_clients: Vec<TestClient>,
    recorder: Recorder,
}

/// A client comes, and is one of the test clients.
fn greets<L: Ledgers>(
    rt: &impl Wait,
    alloc: Global,
    house: &House<L>,
    seat: &mut Seat<L>,
    log: &mut Log,
    client: u32,
    takes: Takes,
    may_kill: bool,
) {
    let commands = CommandSet {
        kill: may_kill,
        everyday: false,
        uptime: None,
    };
    let Ok(greeted) = house.notice(rt, seat, News::Comes(client)) else {
        log.recorder.fail();
        return;
    };
    let Ok(session) = Session::new(alloc, Asker { client, commands }, greeted.reply()) else {
        log.recorder.fail();
        return;
    };
    let test_client = TestClient {
        client,
        session,
        wire: Counting::new(Pipe::new(Vec::new(alloc), takes)),
    };
    if log.test_clients.push(test_client).is_err() {
        log.recorder.fail();
    }
}

/// A test client's session reads some bytes, and its fault is told.
fn reads_of<L: Ledgers>(
    rt: &impl Wait,
    alloc: Global,
    house: &House<L>,
    seat: &mut Seat<L>,
    shelf: &mut MemShelf,
    log: &mut Log,
    client: u32,
    bytes: &[u8],
    then: Then,
) {
    for test_client in &mut log.test_clients {
        if test_client.client == client {
            if let Some(fault) = reads(rt, alloc, house, seat, shelf, test_client, bytes, then) {
                log.recorder.add(fault_name(fault));
            }
        }
    }
}

/// Whose session has a turn in a step, what it reads, and what comes then; a client that comes has none.
fn turn_in<'a>(step: Step<'a>) -> (u32, &'a [u8], Then) {
    match step {
        Step::Says(client, bytes) => (client, bytes, Then::Blocks),
        Step::Comes(client, _) => (client, b"".as_slice(), Then::Blocks),
        Step::Waits(client) => (client, b"".as_slice(), Then::Blocks),
        Step::Ends(client) => (client, b"".as_slice(), Then::Ends),
        Step::Fails(client) => (client, b"".as_slice(), Then::Fails),
    }
}

fn step_of<L: Ledgers>(
    rt: &impl Wait,
    alloc: Global,
    house: &House<L>,
    seat: &mut Seat<L>,
    shelf: &mut MemShelf,
    log: &mut Log,
    step: Step<'_>,
    may_kill: bool,
) {
    match step {
        Step::Comes(client, takes) => {
            greets(rt, alloc, house, seat, log, client, takes, may_kill);
        }
        _ => {
            let (client, bytes, then) = turn_in(step);
            reads_of(rt, alloc, house, seat, shelf, log, client, bytes, then);
        }
    }
}

/// What was observed of faults, and of each client how its session is and what was written to it.
fn observed_of(log: Log) -> Result<String, AllocError> {
    let Log {
        test_clients,
        mut recorder,
    } = log;
    for test_client in &test_clients {
        let text = str::from_utf8(test_client.wire.inner().bytes()).unwrap_or("no text\n");
        let (client, state) = (test_client.client, state(&test_client.session));
        recorder.add(format_args!("{client} {state}\n{text}"));
    }
    recorder.into_text()
}

fn steps_of<L: Ledgers>(
    rt: &impl Wait,
    alloc: Global,
    house: &House<L>,
    seat: &mut Seat<L>,
    steps: &[Step<'_>],
    may_kill: bool,
) -> Result<String, AllocError> {
    let mut shelf = MemShelf::new(alloc);
    let mut log = Log {
        test_clients: Vec::new(alloc),
        recorder: Recorder::new(alloc),
    };
    for step in steps {
        step_of(
            rt, alloc, house, seat, &mut shelf, &mut log, *step, may_kill,
        );
    }
    observed_of(log)
}

fn day_of_a_seat<L: Ledgers>(
    rt: &impl Wait,
    alloc: Global,
    house: &House<L>,
    steps: &[Step<'_>],
    may_kill: bool,
) -> Result<String, AllocError> {
    match house.seat(rt) {
        Ok(mut seat) => steps_of(rt, alloc, house, &mut seat, steps, may_kill),
        Err(_) => Err(AllocError),
    }
}

fn day<L: Ledgers>(
    rt: &impl Wait,
    alloc: Global,
    blanks: Blanks,
    steps: &[Step<'_>],
    may_kill: bool,
) -> Result<String, AllocError>
    requires blanks { AreFor L.names blanks }
{
    let Ok((house, _shares)) = opened::<L>(alloc, blanks, 4096) else {
        return Err(AllocError);
    };
    day_of_a_seat(rt, alloc, &house, steps, may_kill)
}

/// What the sessions of a day wrote, each after its client's number and whether it is closed, where clients may end
/// the daemon, or may not.
pub(crate) fn observed_where<R: Wait>(
    rt: &R,
    alloc: Global,
    steps: &[Step<'_>],
    may_kill: bool,
) -> Result<String, AllocError> {
    day::<Brand>(rt, alloc, Blanks::new(), steps, may_kill)
}

/// What the session of one client wrote that comes and says some pieces, and whose session then has so many turns
/// more.
pub(crate) fn observed_of_pieces<R: Wait>(
    rt: &R,
    alloc: Global,
    takes: Takes,
    pieces: &[&[u8]],
    turns: usize,
) -> Result<String, AllocError> {
    let mut steps = Vec::new(alloc);
    let mut is_whole = steps.push(Step::Comes(1, takes)).is_ok();
    for piece in pieces {
        is_whole = steps.push(Step::Says(1, piece)).is_ok() && is_whole;
    }
    for _turn in 0..turns {
        is_whole = steps.push(Step::Waits(1)).is_ok() && is_whole;
    }
    if is_whole {
        observed_where(rt, alloc, &steps, false)
    } else {
        Err(AllocError)
    }
}

//! Clients over the loopback, beside a server on another thread.
ghost use Rattle.std.specs.Prelude.{◌≡◌};
ghost use Rattle.house.specs.Blanks.{AreFor};

use crate::scanner::start_scanner;
use house::{Blanks, House, Ledgers, Seat};
use mio::net::TcpListener as Door;
use mpd_command::CommandSet;
use mpd_server::{ServeFault, Server, bind, start_waker};
use shelf::MemShelf;
use std::alloc::Global;
use std::io::{Read, Write};
use std::marker::Brand;
use std::net::{Net, Shutdown, SocketAddr, TcpListener, TcpStream};
use std::sync::{Arc, Wait};
use std::test::Fail;
use std::thread;
use std::thread::Threads;
use std::time::Clock;
use test_houses::opened;

const GREETING: &[u8] = b"OK MPD 0.23.0\n";

/// What those say and hear that go with an open list and with a line begun: see [`many_go`].
const LEAVE: [&[u8]; 4] = [
    b"ping\n",
    b"OK\n",
    b"command_list_begin\nadd a.wav\nadd b.wav\ncommand_list_",
    b"plchangesposid 0\n",
];

/// The same of those that break off: a socket that is closed with bytes unread is reset.
const BREAK_OFF: [&[u8]; 4] = [b"commands\n", b"command: add\n", b"", b"ping\n"];

/// What clients do.
#[derive(Clone, Copy)]
enum Party {
    /// One pings.
    One,
    /// More come than there are slots for, and another comes once one has gone.
    Many,
    /// One asks for much and does not read it, while another pings.
    SlowReader,
    /// One waits while another changes something.
    Idle,
    /// One sends a line without end, while another pings.
    LongLine,
    /// One goes with an open list and with a line begun, and its slot is another's.
    Leaves,
    /// One waits for the end of a scan, which no client's line makes.
    Scan,
    /// One asks, and sends no more from then on, but reads.
    HalfClosed,
    /// One of as many as there are slots for is closed at a limit, and its slot is another's.
    Replaced,
    /// One of as many as there are slots for closes, and its slot is another's at once.
    Followed,
    /// Many go with an answer unread, so that their sockets fail to be read.
    BreakOff,
    /// One closes, or sends no more, before it reads more answers than its socket takes.
    ReadsLate(bool),
}

/// A house is served until a client ends the daemon, while another thread makes the scans.
fn serves_beside_scans<
    L: Ledgers + Send + Sync + 'static,
    R: Threads + Wait + Net + Clock + Copy + Send + 'static,
>(
    rt: R,
    alloc: Global,
    house: &Arc<House<L>, Global>,
    seat: &mut Seat<L>,
    server: &mut Server,
) -> Result<(), ServeFault> {
    let Ok(scanning) = start_scanner(rt, alloc, house) else {
        let _ended = house.end(&rt, seat);
        return Err(ServeFault::NoMemory);
    };
    let mut shelf = MemShelf::new(alloc);
    let served = server.serve(&rt, alloc, &**house, seat, &mut shelf, all());
    let _ended = house.end(&rt, seat);
    scanning.join(&rt);
    served
}

/// The same, by a loop that a third thread wakes.
fn serves_by_a_loop<
    L: Ledgers + Send + Sync + 'static,
    R: Threads + Wait + Net + Clock + Copy + Send + 'static,
>(
    rt: R,
    alloc: Global,
    house: &Arc<House<L>, Global>,
    seat: &mut Seat<L>,
    door: Door,
) -> Result<(), ServeFault> {
    let Ok(mut server) = Server::open(&rt, alloc, door) else {
        return Err(ServeFault::NoMemory);
    };
    let Ok(waking) = start_waker(rt, house, &mut server) else {
        return Err(ServeFault::NoMemory);
    };
    let served = serves_beside_scans(rt, alloc, house, seat, &mut server);
    waking.join(&rt);
    served
}

fn serves_in<
    L: Ledgers + Send + Sync + 'static,
    R: Threads + Wait + Net + Clock + Copy + Send + 'static,
>(rt: R, alloc: Global, house: &Arc<House<L>, Global>, door: Door) -> Result<(), ServeFault> {
    match house.seat(&rt) {
        Ok(mut seat) => serves_by_a_loop(rt, alloc, house, &mut seat, door),
        Err(_) => Err(ServeFault::NoMemory),
    }
}

/// The same with a new house.
fn serves<
    L: Ledgers + Send + Sync + 'static,
    R: Threads + Wait + Net + Clock + Copy + Send + 'static,
>(rt: R, alloc: Global, blanks: Blanks, door: Door) -> Result<(), ServeFault>
    requires blanks { AreFor L.names blanks }
{
    let Ok((house, _shares)) = opened::<L>(alloc, blanks, 4096) else {
        return Err(ServeFault::NoMemory);
    };
    let Ok(house) = Arc::new(alloc, house) else {
        return Err(ServeFault::NoMemory);
    };
    serves_in(rt, alloc, &house, door)
}

fn serves_at_brand<R: Threads + Wait + Net + Clock + Copy + Send + 'static>(
    rt: R,
    alloc: Global,
    door: Door,
) -> Result<(), ServeFault> {
    serves::<Brand, R>(rt, alloc, Blanks::new(), door)
}

/// A client on its socket. A fault of it is kept, and after one it says and hears nothing more: who lets it act
/// need not ask after each line.
#[derive(Drop)]
struct TestClient {
    alloc: Global,
    stream: TcpStream,
    went_well: bool,
}

impl TestClient {
    /// It counts as a fault where something is not so.
    fn needs(&mut self, is_so: bool) {
        self.went_well = self.went_well && is_so;
    }

    fn writes(&mut self, bytes: &[u8]) {
        self.went_well = self.went_well && self.stream.write_all(bytes).is_ok();
    }

    /// Fills bytes with what is heard next.
    fn takes(&mut self, bytes: &mut [u8]) {
        self.went_well = self.went_well && self.stream.read_exact(bytes).is_ok();
    }

    /// Hears just these bytes next.
    fn hears(&mut self, expected: &[u8]) {
        let Ok(mut bytes) = Vec::from_elem(self.alloc, 0u8, expected.len()) else {
            self.went_well = false;
            return;
        };
        self.takes(bytes.as_mut_slice());
        self.needs(bytes.as_slice() == expected);
    }

    /// Says some bytes, and hears just these.
    fn says(&mut self, bytes: &[u8], expected: &[u8]) {
        self.writes(bytes);
        self.hears(expected);
    }

    fn pings(&mut self, count: u32) {
        for _ping in 0..count {
            self.says(b"ping\n", b"OK\n");
        }
    }

    /// Asks so many times for what is answered at length.
    fn asks(&mut self, count: u32) {
        for _question in 0..count {
            self.writes(b"commands\n");
        }
    }

    /// The length of the answer to `commands`.
    fn length_of_commands(&mut self) -> usize {
        let mut heard = Vec::new(self.alloc);
        let mut byte = [0u8; 1];
        self.asks(1);
        for _ in 0..100_000u32 {
            self.takes(&mut byte);
            self.needs(heard.extend_from_slice(&byte).is_ok());
            if !self.went_well || heard.as_slice().ends_with(b"\nOK\n") {
                break;
            }
        }
        heard.len()
    }

    /// Hears so many answers to `commands`, each of this length.
    fn hears_answers(&mut self, length: usize, count: u32) {
        let Ok(mut answer) = Vec::from_elem(self.alloc, 0u8, length) else {
            self.went_well = false;
            return;
        };
        for _question in 0..count {
            self.takes(answer.as_mut_slice());
            self.needs(answer.as_slice().ends_with(b"\nOK\n"));
        }
    }

    /// Sends no more from then on.
    fn closes_writing(&mut self) {
        self.went_well = self.went_well && self.stream.shutdown(Shutdown::Write).is_ok();
    }

    /// Hears no more.
    fn hears_the_end(&mut self) {
        self.went_well = self.went_well && is_at_its_end(&mut self.stream);
    }
}

/// Whether there is no more to hear.
fn is_at_its_end(stream: &mut TcpStream) -> bool {
    let mut bytes = [0u8; 16];
    matches!(stream.read(&mut bytes), Ok(0) | Err(_))
}

/// A client that has been greeted.
fn comes<R: Net<Listener = TcpListener, Stream = TcpStream>>(
    rt: &R,
    alloc: Global,
    address: SocketAddr,
) -> Option<TestClient> {
    let Ok(stream) = TcpStream::connect(rt, address) else {
        return None;
    };
    let mut test_client = TestClient {
        alloc,
        stream,
        went_well: true,
    };
    test_client.hears(GREETING);
    if test_client.went_well {
        Some(test_client)
    } else {
        None
    }
}

/// So many clients come, or fewer after a fault.
fn others<R: Net<Listener = TcpListener, Stream = TcpStream>>(
    rt: &R,
    alloc: Global,
    address: SocketAddr,
    count: u32,
) -> Vec<TestClient> {
    let mut others = Vec::new(alloc);
    for _client in 0..count {
        let Some(other) = comes(rt, alloc, address) else {
            break;
        };
        others.push(other).ok();
    }
    others
}

/// There is no slot for one who comes.
fn one_finds_no_slot<R: Net<Listener = TcpListener, Stream = TcpStream>>(
    rt: &R,
    address: SocketAddr,
) -> bool {
    match TcpStream::connect(rt, address) {
        Ok(mut late) => is_at_its_end(&mut late),
        Err(_) => false,
    }
}

/// One comes, says some bytes and hears just these, says more, and goes. Whether that went well.
fn one_goes<R: Net<Listener = TcpListener, Stream = TcpStream>>(
    rt: &R,
    alloc: Global,
    address: SocketAddr,
    bytes: &[u8],
    expected: &[u8],
    last: &[u8],
) -> bool {
    let Some(mut client) = comes(rt, alloc, address) else {
        return false;
    };
    client.says(bytes, expected);
    client.writes(last);
    client.went_well
}

/// There is a slot for one who comes.
fn one_finds_a_slot<R: Net<Listener = TcpListener, Stream = TcpStream>>(
    rt: &R,
    alloc: Global,
    address: SocketAddr,
) -> bool {
    one_goes(rt, alloc, address, b"ping\n", b"OK\n", b"")
}

fn one_closes(client: Option<TestClient>) -> bool {
    let Some(mut last) = client else {
        return false;
    };
    last.writes(b"close\n");
    last.hears_the_end();
    last.went_well
}

/// Beside as many as there are slots for one finds no slot, until another has closed.
fn many_come<R: Net<Listener = TcpListener, Stream = TcpStream>>(
    rt: &R,
    alloc: Global,
    address: SocketAddr,
    first: &mut TestClient,
) {
    let mut clients = others(rt, alloc, address, 63);
    let went_well = clients.len() == 63
        && one_finds_no_slot(rt, address)
        && one_closes(clients.pop())
        && one_finds_a_slot(rt, alloc, address);
    first.needs(went_well);
    first.pings(1);
}

fn one_reads_slowly(first: &mut TestClient, slow: &mut TestClient) {
    let length = slow.length_of_commands();
    slow.asks(4_000);
    first.pings(100);
    slow.needs(first.went_well);
    slow.hears_answers(length, 4_000);
}

/// The answers take about 10 MB: more than a socket takes that nobody reads, and less than may be unsent. All
/// is asked before the other client pings. In a round one of its pings is answered, and 4,096 bytes of this
/// client are read: so it is closed, with answers unsent, before it reads.
fn one_reads_late(first: &mut TestClient, late: &mut TestClient, sends_no_more: bool) {
    let length = late.length_of_commands();
    late.asks(8_000);
    if sends_no_more {
        late.closes_writing();
    } else {
        late.writes(b"close\n");
    }
    first.pings(100);
    late.needs(first.went_well);
    late.hears_answers(length, 8_000);
    late.hears_the_end();
}

/// Without a change of the first one the other would wait for ever.
fn one_waits(first: &mut TestClient, waiting: &mut TestClient) {
    for _change in 0..50u32 {
        waiting.writes(b"idle options\n");
        first.needs(waiting.went_well);
        first.says(b"repeat 1\n", b"OK\n");
        waiting.needs(first.went_well);
        waiting.hears(b"changed: options\nOK\n");
        waiting.says(b"repeat 0\n", b"OK\n");
        waiting.says(b"idle options\n", b"changed: options\nOK\n");
    }
}

fn one_line_is_long(first: &mut TestClient, long: &mut TestClient) {
    let Ok(bytes) = Vec::from_elem(long.alloc, b'x', 100_000) else {
        long.went_well = false;
        return;
    };
    let _refused = long.stream.write_all(bytes.as_slice());
    first.pings(1);
    long.needs(first.went_well);
    long.hears_the_end();
}

/// What was asked before the client closed its writing half is answered.
fn one_sends_no_more(first: &mut TestClient, half: &mut TestClient) {
    half.writes(b"add a.wav\nplchangesposid 0\nping\n");
    half.closes_writing();
    half.hears(b"OK\ncpos: 0\nId: 1\nOK\nOK\n");
    first.pings(1);
    half.needs(first.went_well);
    half.hears_the_end();
}

/// What two clients do, of whom the second comes for it.
fn beside_another<R: Net<Listener = TcpListener, Stream = TcpStream>>(
    rt: &R,
    alloc: Global,
    address: SocketAddr,
    first: &mut TestClient,
    party: Party,
) {
    let Some(mut second) = comes(rt, alloc, address) else {
        first.went_well = false;
        return;
    };
    match party {
        Party::SlowReader => one_reads_slowly(first, &mut second),
        Party::Idle => one_waits(first, &mut second),
        Party::HalfClosed => one_sends_no_more(first, &mut second),
        Party::ReadsLate(sends_no_more) => one_reads_late(first, &mut second, sends_no_more),
        _ => one_line_is_long(first, &mut second),
    }
    first.needs(second.went_well);
}

/// The slot is free as soon as all is written, and not when the time to read is over: the few pings take
/// much less than that.
fn one_is_followed<R: Net<Listener = TcpListener, Stream = TcpStream>>(
    rt: &R,
    alloc: Global,
    address: SocketAddr,
    first: &mut TestClient,
) {
    let Some(mut last) = comes(rt, alloc, address) else {
        first.went_well = false;
        return;
    };
    last.writes(b"close\n");
    first.pings(10);
    last.needs(first.went_well);
    first.needs(last.went_well && one_finds_a_slot(rt, alloc, address));
}

/// Beside as many clients as there are slots for beside the first and another, that one closes or is closed at a
/// limit, and its slot is another's.
fn beside_many<R: Net<Listener = TcpListener, Stream = TcpStream>>(
    rt: &R,
    alloc: Global,
    address: SocketAddr,
    first: &mut TestClient,
    is_at_once: bool,
) {
    let others = others(rt, alloc, address, 62);
    first.needs(others.len() == 62);
    if !first.went_well {
        return;
    }
    if is_at_once {
        one_is_followed(rt, alloc, address, first);
    } else {
        beside_another(rt, alloc, address, first, Party::LongLine);
        first.needs(first.went_well && one_finds_a_slot(rt, alloc, address));
    }
}

/// So many clients come one after the other, say the first of these lines and hear just the second, say the third
/// and go. Then the first client says the last, and it is done.
fn many_go<R: Net<Listener = TcpListener, Stream = TcpStream>>(
    rt: &R,
    alloc: Global,
    address: SocketAddr,
    first: &mut TestClient,
    count: u32,
    lines: &[&[u8]; 4],
) {
    let [bytes, expected, last, afterwards] = lines;
    for _client in 0..count {
        first.needs(first.went_well && one_goes(rt, alloc, address, bytes, expected, last));
    }
    first.says(afterwards, b"OK\n");
}

fn acts<R: Net<Listener = TcpListener, Stream = TcpStream>>(
    rt: &R,
    alloc: Global,
    address: SocketAddr,
    first: &mut TestClient,
    party: Party,
) {
    match party {
        Party::One => first.pings(1),
        Party::Scan => {
            // It asks for a scan and waits for its end, of which no client tells the loop.
            first.says(b"update\n", b"updating_db: 1\nOK\n");
            first.says(b"idle database\n", b"changed: database\nOK\n");
        }
        Party::Many => many_come(rt, alloc, address, first),
        Party::Leaves => many_go(rt, alloc, address, first, 200, &LEAVE),
        Party::BreakOff => many_go(rt, alloc, address, first, 100, &BREAK_OFF),
        Party::Replaced => beside_many(rt, alloc, address, first, false),
        Party::Followed => beside_many(rt, alloc, address, first, true),
        _ => beside_another(rt, alloc, address, first, party),
    }
}

/// What clients do, and then one of them ends the daemon, also after a fault. Whether all went well.
fn visits<R: Net<Listener = TcpListener, Stream = TcpStream>>(
    rt: &R,
    alloc: Global,
    address: SocketAddr,
    party: Party,
) -> bool {
    let Some(mut first) = comes(rt, alloc, address) else {
        return false;
    };
    acts(rt, alloc, address, &mut first, party);
    let is_said = first.stream.write_all(b"kill\n").is_ok();
    is_said && is_at_its_end(&mut first.stream) && first.went_well
}

fn goes_well<
    R: Threads
        + Wait
        + Net<Listener = TcpListener, Stream = TcpStream>
        + Clock
        + Copy
        + Send
        + Sync
        + 'static,
>(rt: R, alloc: Global, party: Party) -> bool {
    let Ok(door) = bind(&rt, "127.0.0.1:0") else {
        return false;
    };
    let Ok(address) = door.local_addr() else {
        return false;
    };
    let (served, visited) = thread::join(
        &rt,
        move || serves_at_brand(rt, alloc, door),
        move || visits(&rt, alloc, address, party),
    );
    served.is_ok() && visited
}

/// The index of the first of these that does not go well.
fn first_that_fails<
    R: Threads
        + Wait
        + Net<Listener = TcpListener, Stream = TcpStream>
        + Clock
        + Copy
        + Send
        + Sync
        + 'static,
>(rt: R, alloc: Global, parties: &[Party]) -> Option<usize> {
    for (index, party) in parties.iter().enumerate() {
        if !goes_well(rt, alloc, *party) {
            return Some(index);
        }
    }
    None
}

/// In a scan the loop sleeps, and the thread that wakes it is told of the notice that a scanner makes.
const PARTIES: &[Party] = &[
    Party::Scan,
    Party::One,
    Party::Many,
    Party::SlowReader,
    Party::Idle,
    Party::LongLine,
    Party::Leaves,
];

/// Whether an address that is listened at is listened at once.
fn is_listened_at_once<R: Net>(rt: &R, alloc: Global) -> bool {
    let Ok(door) = bind(rt, "127.0.0.1:0") else {
        return false;
    };
    let Ok(taken) = door.local_addr() else {
        return false;
    };
    match format!(in alloc; "{taken}") {
        Ok(taken) => bind(rt, taken.as_str()).is_err(),
        Err(_) => false,
    }
}

#[test]
fn clients_are_served(rt: HostRuntime) -> Result<(), Fail> {
    assert!(rt; bind(&rt, "127.0.0.1:0").is_ok());
    assert!(rt; bind(&rt, "nowhere").is_err());
    assert!(rt; is_listened_at_once(&rt, rt.alloc()));
    assert_eq!(rt; first_that_fails(rt, rt.alloc(), PARTIES), None);
    Ok(())
}

const ENDS: &[Party] = &[
    Party::HalfClosed,
    Party::Replaced,
    Party::Followed,
    Party::BreakOff,
    Party::ReadsLate(false),
    Party::ReadsLate(true),
];

#[test]
fn clients_end(rt: HostRuntime) -> Result<(), Fail> {
    assert_eq!(rt; first_that_fails(rt, rt.alloc(), ENDS), None);
    Ok(())
}

/// All commands of the base profile, `kill` as well.
fn all() -> CommandSet {
    CommandSet {
        kill: true,
        everyday: false,
        uptime: None,
    }
}

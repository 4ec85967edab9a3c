//! The client: it says lines, and prints them and what it hears.
use crate::files::{bring_song, played_bytes};
use std::io::{BufRead, BufReader, ErrorKind, Read, Write};
use std::net::{SocketAddr, TcpStream};
use std::time::Duration;
use std::{io, thread};

/// What it says before one more song comes into the folder of the music. The second is a command of the everyday
/// profile, which the settings do not ask for.
const MORNING: &[&str] = &["outputs", "stats", "listall"];

/// What it says from then on, until the queue plays.
const NOON: &[&str] = &[
    "update",
    "idle database",
    "listall",
    "add noon.wav",
    "add morning.wav",
    "save today",
    "listplaylist today",
    "play",
];

/// The bytes of the two songs of the queue, of 3 frames and 5.
const BYTES: u64 = 32;

/// How often it tries to connect, and how often it asks whether the queue was played.
const TRIES: u32 = 1_500;

/// How many milliseconds it rests between two tries.
const PAUSE: u64 = 20;

/// How many seconds it waits for an answer at most.
const PATIENCE: u64 = 30;

/// The most lines of an answer.
const MOST_LINES: u32 = 100;

/// The client's day. Where it goes wrong another client ends the daemon, so that the program ends too.
pub(crate) fn visits(rt: &HostRuntime, address: SocketAddr) -> io::Result<()> {
    let visited = stays(rt, address);
    if visited.is_err() {
        if let Ok(another) = Client::comes(rt, address) {
            let _ended = another.kills();
        }
    }
    visited
}

fn stays(rt: &HostRuntime, address: SocketAddr) -> io::Result<()> {
    let mut client = Client::comes(rt, address)?;
    client.acts();
    client.prints("> ", "kill");
    client.kills()
}

/// Connects as soon as the daemon listens.
fn connects(rt: &HostRuntime, address: SocketAddr) -> io::Result<TcpStream> {
    for _ in 0..TRIES {
        if let Ok(stream) = TcpStream::connect(rt, address) {
            return Ok(stream);
        }
        thread::sleep(rt, Duration::from_millis(PAUSE));
    }
    TcpStream::connect(rt, address)
}

/// Whether a line ends an answer: that to its coming, a success or a refusal.
fn is_last(line: &str) -> bool {
    line == "OK\n" || line.starts_with("OK MPD ") || line.starts_with("ACK ")
}

/// A client that is connected. How it ended is kept where it met a fault, and then it does nothing more: who lets it
/// act need not ask after each line.
#[derive(Drop)]
struct Client {
    rt: HostRuntime,
    reader: BufReader<TcpStream>,
    ended: io::Result<()>,
}

impl Client {
    fn comes(rt: &HostRuntime, address: SocketAddr) -> io::Result<Client> {
        let stream = connects(rt, address)?;
        stream.set_read_timeout(Some(Duration::from_secs(PATIENCE)))?;
        let reader = BufReader::new(rt.alloc(), stream)?;
        Ok(Client {
            rt: *rt,
            reader,
            ended: Ok(()),
        })
    }

    /// What it does between its coming and the end.
    fn acts(&mut self) {
        self.shows();
        self.says(MORNING);
        if self.ended.is_ok() {
            self.ended = bring_song(&self.rt);
        }
        self.says(NOON);
        self.waits();
        self.says(&["stop"]);
    }

    /// Waits until the queue has ended and all its frames are written.
    fn waits(&mut self) {
        for _ in 0..TRIES {
            if self.has_stopped() && played_bytes(&self.rt) >= BYTES {
                self.prints("", "the queue was played");
                return;
            }
            if self.ended.is_err() {
                return;
            }
            thread::sleep(&self.rt, Duration::from_millis(PAUSE));
        }
        self.ended = Err(io::Error::from(ErrorKind::TimedOut));
    }

    fn has_stopped(&mut self) -> bool {
        self.writes("status");
        let status = self.hears();
        status.as_str().lines().any(|line| line == "state: stop")
    }

    /// Says lines, and prints each and its answer.
    fn says(&mut self, lines: &[&str]) {
        for line in lines {
            self.prints("> ", line);
            self.writes(line);
            self.shows();
        }
    }

    /// Hears an answer and prints it.
    fn shows(&mut self) {
        let answer = self.hears();
        for line in answer.as_str().lines() {
            self.prints("< ", line);
        }
    }

    fn prints(&mut self, prefix: &str, line: &str) {
        if self.ended.is_ok() {
            self.ended = println!(self.rt; "{prefix}{line}");
        }
    }

    fn writes(&mut self, line: &str) {
        if self.ended.is_ok() {
            self.ended = self.sends(line);
        }
    }

    fn sends(&self, line: &str) -> io::Result<()> {
        let said = format!(in self.rt.alloc(); "{line}\n")?;
        let mut stream = self.reader.get_ref();
        stream.write_all(said.as_str().as_bytes())
    }

    /// The next answer; after a fault what was heard of it.
    fn hears(&mut self) -> String {
        let mut answer = String::new(self.rt.alloc());
        if self.ended.is_ok() {
            self.ended = self.takes(&mut answer);
        }
        answer
    }

    /// Appends the next answer, up to the line that ends it.
    fn takes(&mut self, answer: &mut String) -> io::Result<()> {
        for _ in 0..MOST_LINES {
            let mut line = String::new(self.rt.alloc());
            if self.reader.read_line(&mut line)? == 0 {
                break;
            }
            answer.push_str(line.as_str())?;
            if is_last(line.as_str()) {
                return Ok(());
            }
        }
        Err(io::Error::from(ErrorKind::UnexpectedEof))
    }

    /// Ends the daemon, which answers nothing more.
    fn kills(mut self) -> io::Result<()> {
        self.writes("kill");
        if self.ended.is_ok() {
            let mut unheard = Vec::new(self.rt.alloc());
            // The daemon may break off, which is an end too.
            let _ended = self.reader.read_to_end(&mut unheard);
        }
        self.ended
    }
}

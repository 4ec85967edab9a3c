//! Sessions that are too long to be written down. Bodies that give up with want of memory from some size on
//! meet every clause, so that only a run shows that they go on.

use crate::runs::run_whole;
use std::alloc::{AllocError, Global};

/// How many songs the library has.
const SONGS: u32 = 1_100;

/// How many entries are added, so that the answer to `plchangesposid 0` has more than 64 KiB.
const ENTRIES: u32 = 3_500;

/// How many lines follow that change nothing.
const PINGS: usize = 1_500;

/// The bytes of the client line that is the longest.
const LONG_LINE: usize = 16_000;

fn push_song(all: &mut String, song: u32) -> Result<(), AllocError> {
    all.write_fmt(format_args!("! song folder/{song}.wav 8000 \"Title=Song {song}\"\n"))
}

fn push_add(all: &mut String, song: u32) -> Result<(), AllocError> {
    all.write_fmt(format_args!("1 add folder/{song}.wav\n"))
}

/// A library of numbered songs, and entries that take them in turn.
fn filling(alloc: Global) -> Result<String, AllocError> {
    let mut all = String::new(alloc);
    for song in 0..SONGS {
        push_song(&mut all, song)?;
    }
    for entry in 0..ENTRIES {
        push_add(&mut all, entry % SONGS)?;
    }
    Ok(all)
}

/// What the session says: after the filling all entries are shown, then come lines that change nothing, and
/// one of 16,000 bytes that names no song. The first entry leaves, and another client comes.
fn says(alloc: Global) -> Result<String, AllocError> {
    let filling = filling(alloc)?;
    let pings = "1 ping\n".repeat(alloc, PINGS)?;
    let long = "x".repeat(alloc, LONG_LINE - 4)?;
    format!(in alloc; "{filling}1 plchangesposid 0\n{pings}1 add {long}\n1 delete 0\n2 status\n")
}

fn push_row(all: &mut String, position: u32) -> Result<(), AllocError> {
    let id = position.saturating_add(1);
    all.write_fmt(format_args!("1 cpos: {position}\n1 Id: {id}\n"))
}

/// What shows all entries: the one at each position has the id that is one above it.
fn rows(alloc: Global) -> Result<String, AllocError> {
    let mut all = String::new(alloc);
    for position in 0..ENTRIES {
        push_row(&mut all, position)?;
    }
    all.push_str("1 OK\n")?;
    Ok(all)
}

/// How many bytes that answer has, without the client's number and a space in each of its lines.
fn size_of(rows: &str) -> usize {
    rows.len().saturating_sub(2 * (2 * ENTRIES as usize + 1))
}

/// What is printed to the second client: the version is one above those of all edits.
fn status(alloc: Global) -> Result<String, AllocError> {
    let modes =
        "2 volume: 100\n2 repeat: 0\n2 random: 0\n2 single: 0\n2 consume: 0\n2 partition: default";
    let (version, length) = (ENTRIES + 2, ENTRIES - 1);
    format!(in alloc;
        "2 OK MPD 0.23.0\n{modes}\n2 playlist: {version}\n2 playlistlength: {length}\n2 state: stop\n2 OK\n"
    )
}

/// How the session is to end, and all that it is to print around the rows.
fn prints(alloc: Global, rows: &str) -> Result<String, AllocError> {
    let added = "1 OK\n".repeat(alloc, ENTRIES as usize)?;
    let pinged = "1 OK\n".repeat(alloc, PINGS)?;
    let refused = "1 ACK [50@0] {add} no such song\n";
    let status = status(alloc)?;
    format!(in alloc; "ok\n1 OK MPD 0.23.0\n{added}{rows}{pinged}{refused}1 OK\n{status}")
}

/// Whether the answer that shows all entries has more than 64 KiB, and whether the session ends well and
/// prints what is expected.
pub(crate) fn long_session(alloc: Global) -> Result<String, AllocError> {
    let rows = rows(alloc)?;
    let expected = prints(alloc, rows.as_str())?;
    let observed = run_whole(alloc, says(alloc)?.as_str())?;
    let is_long = size_of(rows.as_str()) > 65_536;
    let is_expected = observed.as_str() == expected.as_str();
    format!(in alloc; "long: {is_long}, as wanted: {is_expected}")
}

/// How many lines `add a.wav` a list of 2,097,152 bytes holds.
const LIST_LINES: usize = 209_715;

/// What is observed of a list as large as a list may be, of which the queue takes 16,384 songs.
pub(crate) fn largest_list(alloc: Global) -> Result<String, AllocError> {
    let adds = "1 add a.wav\n".repeat(alloc, LIST_LINES)?;
    let script = format!(in alloc;
        "! song a.wav 8000\n1 command_list_begin\n{adds}1 command_list_end\n1 plchangesposid 16385\n"
    )?;
    run_whole(alloc, script.as_str())
}

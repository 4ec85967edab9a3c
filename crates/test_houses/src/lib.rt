//! A house over a few songs, and what is said in it, for tests. It is a crate of its own, since a crate with
//! tests is proved twice.
#![tactic(auto)]

ghost use Rattle.frame_ledger.specs.Shares.{HasAllParts};
ghost use Rattle.std.specs.Prelude.{◌≡◌, ◌+◌, ◌<◌, IfOk, OnOk};
ghost use Rattle.house.specs.Blanks.{AreFor};
ghost use Rattle.house.specs.Seats.{seat_count};

use command_lists::ListForm;
use house::{Answered, AnsweredList, Blanks, CrewShares, House, Ledgers, News, Seat};
use mpd_command::{CommandSet, Request};
use mpd_text::{SharedText, Song};
use partition::PartitionFault;
use player_state::Outputs;
use shelf::MemShelf;
use std::alloc::{AllocError, Global};
use std::sync::Wait;
use test_players::{library, list_answer, player, requests};
use test_songs::song;

/// Two songs of a second.
fn songs(alloc: Global) -> Result<Vec<Song>, AllocError> {
    let mut songs = Vec::new(alloc);
    songs.push(song(alloc, "a.wav", &[], 8_000)?)?;
    songs.push(song(alloc, "b.wav", &[], 8_000)?)?;
    Ok(songs)
}

/// Two outputs, of which the second is off.
fn outputs(alloc: Global) -> Result<Outputs, AllocError> {
    let mut outputs = Outputs::none(alloc);
    let hall = SharedText::of(String::from_str(alloc, "hall")?)?;
    outputs.add(hall, true)?;
    let attic = SharedText::of(String::from_str(alloc, "attic")?)?;
    outputs.add(attic, false)?;
    Ok(outputs)
}

/// A client comes.
pub fn comes<L: Ledgers>(
    rt: &impl Wait,
    house: &House<L>,
    seat: &mut Seat<L>,
    client: u32,
) -> Result<(), PartitionFault>
    ensures { OnOk result (seat.old.number < 4 → seat.new ≡ seat_count seat.old.number (seat.old.made + 1)) }
{
    let _greeted = house.notice(rt, seat, News::Comes(client))?;
    Ok(())
}

/// A client adds a song.
pub fn adds_a_song<L: Ledgers>(
    rt: &impl Wait,
    alloc: Global,
    house: &House<L>,
    seat: &mut Seat<L>,
    client: u32,
) -> Result<(), PartitionFault>
    ensures { OnOk result (seat.old.number < 4 → seat.new ≡ seat_count seat.old.number (seat.old.made + 1)) }
{
    let _added = answers(rt, alloc, house, seat, client, "add a.wav")?;
    Ok(())
}

/// What the house answers to a line, with nothing on the shelf.
fn answers<L: Ledgers>(
    rt: &impl Wait,
    alloc: Global,
    house: &House<L>,
    seat: &mut Seat<L>,
    client: u32,
    line: &str,
) -> Result<Answered, PartitionFault>
    ensures { OnOk result (seat.old.number < 4 → seat.new ≡ seat_count seat.old.number (seat.old.made + 1)) }
{
    let mut shelf = MemShelf::new(alloc);
    let request = Request::of_line(alloc, line, CommandSet::base())?;
    house.command(rt, seat, &mut shelf, client, request)
}

/// What a client hears of a line: `told` where a notice stands in front, and the reply.
pub fn says<L: Ledgers>(
    rt: &impl Wait,
    alloc: Global,
    house: &House<L>,
    seat: &mut Seat<L>,
    client: u32,
    line: &str,
) -> Result<String, PartitionFault> {
    let answered = answers(rt, alloc, house, seat, client, line)?;
    let heard = heard(alloc, answered.front().is_some(), answered.reply().text())?;
    Ok(heard)
}

/// `told` where a notice stands in front, and an answer.
fn heard(alloc: Global, is_told: bool, answer: &str) -> Result<String, AllocError> {
    let front = if is_told { "told\n" } else { "" };
    format!(in alloc; "{front}{answer}")
}

/// What a client hears of a list of one line: `told` where a notice stands in front, and the answer.
fn lists<L: Ledgers>(
    rt: &impl Wait,
    alloc: Global,
    house: &House<L>,
    seat: &mut Seat<L>,
    client: u32,
    line: &str,
) -> Result<String, PartitionFault> {
    let mut shelf = MemShelf::new(alloc);
    let requests = requests(alloc, line)?;
    match house.list(rt, seat, &mut shelf, client, ListForm::Plain, requests) {
        Ok(answered) => heard_of_list(alloc, &answered),
        Err(_) => Err(PartitionFault::NoMemory),
    }
}

fn heard_of_list(alloc: Global, answered: &AnsweredList) -> Result<String, PartitionFault> {
    let text = list_answer(alloc, answered.answers())?;
    Ok(heard(alloc, answered.front().is_some(), text.as_str())?)
}

/// What a client hears of a line, alone or as a list of one line.
pub fn hears<L: Ledgers>(
    rt: &impl Wait,
    alloc: Global,
    house: &House<L>,
    seat: &mut Seat<L>,
    client: u32,
    line: &str,
    in_list: bool,
) -> Result<String, PartitionFault> {
    if in_list {
        lists(rt, alloc, house, seat, client, line)
    } else {
        says(rt, alloc, house, seat, client, line)
    }
}

/// A house over two songs, with a window of at most so many events.
pub fn opened<L: Ledgers>(
    alloc: Global,
    blanks: Blanks,
    history: u32,
) -> Result<(House<L>, CrewShares<L>), PartitionFault>
    requires blanks { AreFor L.names blanks }
    ensures { IfOk result (λ r. HasAllParts r.1.decoded.parts r.1.outputs) }
{
    let library = library(alloc, songs(alloc)?)?;
    let player = player(alloc, history, outputs(alloc)?, library)?;
    Ok(House::open(alloc, blanks, player)?)
}

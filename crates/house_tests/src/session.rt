//! Runs sessions of one thread in a house.
//!
//! A session is a text with a step in each line, and adds what is heard or seen at each. So few functions
//! hold a house and a seat.
use crate::reports::add_observed;
use house::{House, Ledgers, News, Reported, Seat};
use partition::PartitionFault;
use queue_tests::steps::{first_word, number_of};
use std::alloc::Global;
use std::sync::Wait;
use std::time::{Clock, Duration};
use test_houses::{comes, hears, says};
use test_texts::Recorder;

/// The news of a step, if it is one: a client comes or goes, a scanner asks for a scan or has found nothing, or
/// the decoder wants a job.
fn news_of(word: &str, client: u32) -> Option<News> {
    match word {
        "comes" => Some(News::Comes(client)),
        "goes" => Some(News::Goes(client)),
        "asks" => Some(News::AsksToScan),
        "scanned" => Some(News::Scanned(None, 0)),
        "wants" => Some(News::Wants(0, [false; 8])),
        _ => None,
    }
}

/// Adds what a client is told that came or went, and what is told to a part of the daemon.
pub(crate) fn add_report(reported: &Result<Reported, PartitionFault>, recorder: &mut Recorder) {
    match reported {
        Ok(reported) => {
            recorder.add(reported.reply().text());
            add_observed(reported.report(), recorder);
        }
        Err(_) => recorder.fail(),
    }
}

/// Adds what the client hears whose number stands in front of a line, alone or as a list of one line.
fn says_line<L: Ledgers>(
    rt: &impl Wait,
    alloc: Global,
    house: &House<L>,
    seat: &mut Seat<L>,
    line: &str,
    in_list: bool,
    recorder: &mut Recorder,
) {
    let (client, line) = first_word(line);
    recorder.add_made(hears(rt, alloc, house, seat, number_of(client), line, in_list));
}

/// The clients of two numbers and all between come and wait. Nothing is added.
fn crowds<L: Ledgers>(
    rt: &impl Wait,
    alloc: Global,
    house: &House<L>,
    seat: &mut Seat<L>,
    numbers: &str,
    recorder: &mut Recorder,
) {
    let (first, last) = first_word(numbers);
    for client in number_of(first)..=number_of(last) {
        if comes(rt, house, seat, client).is_err() {
            recorder.fail();
        }
        if says(rt, alloc, house, seat, client, "idle").is_err() {
            recorder.fail();
        }
    }
}

/// How often the house has changed, as a scanner is told that asks.
pub(crate) fn changes<L: Ledgers>(
    rt: &impl Wait,
    house: &House<L>,
    seat: &mut Seat<L>,
    recorder: &mut Recorder,
) -> u64 {
    match house.notice(rt, seat, News::AsksToScan) {
        Ok(reported) => reported.changes(),
        Err(_) => {
            recorder.fail();
            0
        }
    }
}

/// Adds a line of the second client, which saw all changes before, and whether a thread need not rest after it.
fn rests<L: Ledgers, R: Wait + Clock>(
    rt: &R,
    alloc: Global,
    house: &House<L>,
    seat: &mut Seat<L>,
    line: &str,
    recorder: &mut Recorder,
) {
    let before = changes(rt, house, seat, recorder);
    if says(rt, alloc, house, seat, 2, line).is_err() {
        recorder.fail();
    }
    let most = Duration::from_millis(1);
    let is_seen = house.rest(rt, before, most, most) != before;
    recorder.add(format_args!("{line}: {is_seen}\n"));
}

/// Adds for how many clients notices wait, and for whom the first does; 0 is nobody.
fn add_addressees<L: Ledgers>(
    rt: &impl Wait,
    alloc: Global,
    house: &House<L>,
    recorder: &mut Recorder,
) {
    let Ok(clients) = house.addressees(rt, alloc) else {
        recorder.fail();
        return;
    };
    let (count, first) = (clients.len(), clients.first().copied().unwrap_or(0));
    recorder.add(format_args!("notices for {count}, the first is {first}\n"));
}

/// Adds the URI of the song that an entry of the queue has.
fn add_song<L: Ledgers>(rt: &impl Wait, house: &House<L>, id: u32, recorder: &mut Recorder) {
    match house.song(rt, 0, id) {
        Ok(Some(song)) => recorder.add(format_args!("{}\n", song.song().uri())),
        Ok(None) => recorder.add("no song\n"),
        Err(_) => recorder.fail(),
    }
}

/// Whether a notice waits, in words.
fn notice(waits: bool) -> &'static str {
    if waits { "a notice\n" } else { "none\n" }
}

/// Adds what the house shows where a step asks for it: the clients that notices wait for, a song, whether a notice
/// waits in the outbox of a client, whether the daemon has ended, or whether any notice waits, as is looked for a
/// millisecond.
fn shows<L: Ledgers, R: Wait + Clock>(
    rt: &R,
    alloc: Global,
    house: &House<L>,
    what: &str,
    recorder: &mut Recorder,
) {
    let (what, number) = first_word(what);
    match what {
        "notices" => add_addressees(rt, alloc, house, recorder),
        "song" => add_song(rt, house, number_of(number), recorder),
        "outbox" => recorder.add(notice(house.outbox(rt, number_of(number)).is_some())),
        "end" if house.has_ended(rt) => recorder.add("ended\n"),
        "end" => recorder.add("goes on\n"),
        _ => recorder.add(notice(house.await_notice(rt, Duration::from_millis(1)))),
    }
}

/// Adds what is told at a step that is no news, by its first word: the clients of some numbers come and wait; a
/// line ends a rest or does not; a client says a list of one line; the daemon ends; the events that were made with
/// the seat are counted; the house shows something; or a client says a line alone.
fn acts<L: Ledgers, R: Wait + Clock>(
    rt: &R,
    alloc: Global,
    house: &House<L>,
    seat: &mut Seat<L>,
    line: &str,
    recorder: &mut Recorder,
) {
    let (word, rest) = first_word(line);
    match word {
        "crowd" => crowds(rt, alloc, house, seat, rest, recorder),
        "rest" => rests(rt, alloc, house, seat, rest, recorder),
        "list" => says_line(rt, alloc, house, seat, rest, true, recorder),
        "ends" => {
            if house.end(rt, seat).is_err() {
                recorder.fail();
            }
        }
        "made" => recorder.add(format_args!("events made: {}\n", seat.made())),
        "show" => shows(rt, alloc, house, rest, recorder),
        _ => says_line(rt, alloc, house, seat, line, false, recorder),
    }
}

/// Adds what is told at a step, which is a piece of news or not.
fn step<L: Ledgers, R: Wait + Clock>(
    rt: &R,
    alloc: Global,
    house: &House<L>,
    seat: &mut Seat<L>,
    line: &str,
    recorder: &mut Recorder,
) {
    let (word, rest) = first_word(line);
    match news_of(word, number_of(rest)) {
        Some(news) => {
            let reported = house.notice(rt, seat, news);
            add_report(&reported, recorder);
        }
        None => acts(rt, alloc, house, seat, line, recorder),
    }
}

/// Adds what a session of these steps tells.
pub(crate) fn session<L: Ledgers, R: Wait + Clock>(
    rt: &R,
    alloc: Global,
    house: &House<L>,
    seat: &mut Seat<L>,
    steps: &str,
    recorder: &mut Recorder,
) {
    for line in steps.lines() {
        step(rt, alloc, house, seat, line, recorder);
    }
}

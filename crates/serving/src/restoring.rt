//! The lines of a state, which are told to the player before the daemon listens.
ghost use Rattle.std.specs.Prelude.{IfOk};
ghost use Rattle.serving.specs.Restoring.{IsTextTold};

use crate::fault::DaemonFault;
use crate::folder::tell;
use crate::player_handles::PlayerHandles;
use crate::state_file::{Disk, read_state, set_aside};
use house::{Answered, House, Ledgers, News, Seat};
use kept_state::{Hearer, is_of_state, tell_lines};
use mpd_command::{CommandSet, Request};
use settings::OneLine;
use shelf::{MemShelf, Shelf};
use std::marker::Model;
use std::sync::Wait;

/// The number of the daemon's own client. Those of the sockets are 1 to 64; while this one is in the player 63
/// of them are let in.
pub(crate) const KEEPER: u32 = 65;

/// How many refused lines are told, each by itself.
const TOLD: u64 = 10;

/// The client, which tells the lines of a state. Contracts see its seat and the shelf.
#[derive(Drop)]
struct Restorer<'h, L: Ledgers, S: Shelf + Drop, R: Wait> {
    rt: &'h R,
    host: &'h HostRuntime,
    house: &'h House<L>,
    seat: Seat<L>,
    /// No line of a state asks it.
    shelf: S,
    /// How many lines were refused.
    refused: u64,
}

impl<'h, L: Ledgers, S: Shelf + Drop, R: Wait> Model for Restorer<'h, L, S, R> {
    ghost use Rattle.serving.specs.Restoring.{Speaker, sender};

    ghost Value = { Speaker S };

    ghost view = { λ r. sender r.shelf r.seat };
}

/// Tells the lines of the file of this path, where it is there. A line that is refused is told on standard
/// error and passed over, and in a command list those behind it; the file is then kept beside the one that is
/// written later.
///
/// # Errors
///
/// Where the file cannot be read, there is no memory, or the player takes no client.
pub(crate) fn restore<L: Ledgers, R: Wait>(
    rt: &R,
    host: &HostRuntime,
    player_handles: PlayerHandles<L>,
    path: &str,
) -> Result<PlayerHandles<L>, DaemonFault> {
    let Some(text) = read_state(host, path)? else {
        return Ok(player_handles);
    };
    let PlayerHandles {
        house,
        mut seat,
        shares,
    } = player_handles;
    house
        .notice(rt, &mut seat, News::Comes(KEEPER))
        .map_err(DaemonFault::Player)?;
    let shelf = MemShelf::new(host.alloc());
    let (mut seat, refused) = restore_text(rt, host, &house, seat, shelf, text.as_str())?;
    house
        .notice(rt, &mut seat, News::Goes(KEEPER))
        .map_err(DaemonFault::Player)?;
    if set_aside(&mut Disk { host: *host }, host.alloc(), path, refused).is_err() {
        tell(host, "the state with refused lines cannot be kept");
    }
    Ok(PlayerHandles {
        house,
        seat,
        shares,
    })
}

/// Tells the lines of a text, and counts those that are refused.
fn restore_text<L: Ledgers, S: Shelf + Drop, R: Wait>(
    rt: &R,
    host: &HostRuntime,
    house: &House<L>,
    seat: Seat<L>,
    shelf: S,
    text: &str,
) -> Result<(Seat<L>, u64), DaemonFault>
    ensures { IfOk result (λ told. IsTextTold S.standing S.failed shelf seat told.0 text.now told.1) }
{
    let mut restorer = Restorer {
        rt,
        host,
        house,
        seat,
        shelf,
        refused: 0,
    };
    let refused = tell_lines(&mut restorer, text)?;
    if refused > TOLD {
        let _printed = eprintln!(*host; "music_daemon: state: {refused} lines in all were refused");
    }
    let Restorer {
        rt: _,
        host: _,
        house: _,
        seat,
        shelf: _,
        refused: _,
    } = restorer;
    Ok((seat, refused))
}

impl<'h, L: Ledgers, S: Shelf + Drop, R: Wait> Hearer for Restorer<'h, L, S, R> {
    ghost use Rattle.serving.specs.Restoring.{Hears};

    type Fault = DaemonFault;

    // What the player answers is known of some past alone: a house says no more.
    ghost hears = { Hears S.standing S.failed };

    fn hear(&mut self, line: &str) -> Result<bool, DaemonFault> {
        if is_of_state(line) {
            return self.say(line);
        }
        self.refuse(line, "no line of a state");
        Ok(true)
    }
}

impl<'h, L: Ledgers, S: Shelf + Drop, R: Wait> Restorer<'h, L, S, R> {
    ghost use Rattle.std.specs.Prelude.{◌≡◌, IfOk, OnOk};
    ghost use Rattle.house.specs.Seats.{after_events};
    ghost use Rattle.serving.specs.Restoring.{AnswersLine, Says};

    /// Says a line, and whether it is refused.
    fn say(&mut self, line: &str) -> Result<bool, DaemonFault>
        ensures { IfOk result (Says S.standing S.failed self.old line.now self.new) }
    {
        let answered = self.ask(line)?;
        let reply = answered.reply();
        if reply.is_refusal() {
            self.refuse(line, reply.text());
        }
        Ok(reply.is_refusal())
    }

    /// What the player answers to a line of the client.
    fn ask(&mut self, line: &str) -> Result<Answered, DaemonFault>
        ensures made { OnOk result (self.new.seat ≡ after_events self.old.seat 1) }
        ensures answer { IfOk result (AnswersLine S.standing S.failed self.old line.now self.new) }
    {
        let request = Request::of_line(self.host.alloc(), line, CommandSet::base())?;
        self.house
            .command(self.rt, &mut self.seat, &mut self.shelf, KEEPER, request)
            .map_err(DaemonFault::Player)
    }

    /// Tells of a line that is refused, where not many were before.
    fn refuse(&mut self, line: &str, why: &str)
        ensures seat { self.new.seat ≡ self.old.seat }
        ensures shelf { self.new.shelf ≡ self.old.shelf }
    {
        self.refused = self.refused.saturating_add(1);
        if self.refused <= TOLD {
            let line = OneLine(line);
            let why = OneLine(why.trim_end());
            let _printed = eprintln!(*self.host; "music_daemon: state: {line}: {why}");
        }
    }
}

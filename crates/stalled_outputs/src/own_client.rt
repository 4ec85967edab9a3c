//! A client of the daemon's own that switches outputs off and on.
use command_lists::ListForm;
use house::{House, Ledgers, News, Seat};
use journal::{silence_text, tell};
use kept_state::is_output_on;
use mpd_text::quote;
use output_watchdog::Off;
use own_lines::{answers_of, requests_of};
use partition::PartitionFault;
use shelf::MemShelf;
use std::alloc::Global;
use std::sync::{Arc, Mutex, Wait};

/// Its number; that of the client that keeps the state is 65.
const SWITCHER: u32 = 66;

/// Where the client is while it says nothing: no partition is kept from being deleted by it.
const HOME: &str = "partition default";

/// The seat of the client, and whether it is in another partition than the first one.
#[derive(Drop)]
struct ClientSession<L: Ledgers> {
    seat: Seat<L>,
    is_away: bool,
}

/// The client. It says its lines as any client does, and is let in once, at the start.
pub(crate) struct OwnClient<L: Ledgers, R: Wait + Copy> {
    rt: R,
    host: HostRuntime,
    house: Arc<House<L>, Global>,
    /// Held for as long as it takes to say what belongs together.
    session: Mutex<ClientSession<L>>,
}

impl<L: Ledgers, R: Wait + Copy> Drop for OwnClient<L, R> {
    fn drop(self) {
        let OwnClient {
            rt: _,
            host: _,
            house: _,
            session: _,
        } = self;
    }
}

impl<L: Ledgers, R: Wait + Copy> OwnClient<L, R> {
    ghost use Rattle.std.specs.Prelude.{◌≡◌, false, true};

    /// Lets the client in.
    ///
    /// # Errors
    ///
    /// Where the player takes no client.
    pub(crate) fn come(
        rt: R,
        host: HostRuntime,
        house: Arc<House<L>, Global>,
        seat: Seat<L>,
    ) -> Result<Self, PartitionFault> {
        let mut seat = seat;
        house.notice(&rt, &mut seat, News::Comes(SWITCHER))?;
        Ok(OwnClient {
            rt,
            host,
            house,
            session: Mutex::new(ClientSession {
                seat,
                is_away: false,
            }),
        })
    }

    /// Tells on standard error that an output was switched off for its path, or on again; and nothing where
    /// it stays as it was.
    pub(crate) fn tell_silence(
        &self,
        output: usize,
        path: &str,
        was_silent: bool,
        is_silent: bool,
    ) {
        let text = silence_text(self.host.alloc(), output, path, was_silent, is_silent);
        if let Ok(Some(text)) = text {
            tell(&self.host, text.as_str());
        }
    }

    /// Whether the daemon has ended.
    pub(crate) fn has_ended(&self) -> bool {
        self.house.has_ended(&self.rt)
    }

    /// Whether an output is on. None where that cannot be told now.
    pub(crate) fn is_on(&self, output: usize) -> Option<bool> {
        let mut session = self.session.lock(&self.rt);
        let is_on = self.look(&mut *session, output);
        self.go_home(&mut *session);
        is_on
    }

    /// Switches an output off where something is played in its partition. None where that cannot be done now.
    pub(crate) fn switch_off(&self, output: usize) -> Option<Off> {
        let mut session = self.session.lock(&self.rt);
        let off = self.off(&mut *session, output);
        self.go_home(&mut *session);
        off
    }

    /// Switches an output on that is off. None where that cannot be done now.
    pub(crate) fn switch_on(&self, output: usize) -> Option<()> {
        let mut session = self.session.lock(&self.rt);
        let switched = match self.look(&mut *session, output) {
            Some(true) => Some(()),
            Some(false) => self.on(&mut *session, output),
            None => None,
        };
        self.go_home(&mut *session);
        switched
    }

    fn off(&self, session: &mut ClientSession<L>, output: usize) -> Option<Off> {
        self.look(session, output)?;
        let status = self.say(session, "status")?;
        if !status.as_str().lines().any(|line| line == "state: play") {
            return Some(Off::Rests);
        }
        // Both at one moment, so that what another client switches off is not taken for what this one does.
        let lines = format!(in self.host.alloc(); "outputs\ndisableoutput {output}").ok()?;
        let shown = self.say(session, lines.as_str())?;
        let was_on = is_output_on(self.host.alloc(), shown.as_str(), output).ok()??;
        Some(Off::IsOff(was_on))
    }

    fn on(&self, session: &mut ClientSession<L>, output: usize) -> Option<()> {
        let line = format!(in self.host.alloc(); "enableoutput {output}").ok()?;
        self.say(session, line.as_str())?;
        Some(())
    }

    /// Whether an output is on. The client then is in the partition that has the output: first it looks where it
    /// is, and then in all partitions.
    fn look(&self, session: &mut ClientSession<L>, output: usize) -> Option<bool> {
        if let Some(is_on) = self.look_here(session, output) {
            return Some(is_on);
        }
        let names = self.say(session, "listpartitions")?;
        for line in names.as_str().lines() {
            if let Some(name) = line.strip_prefix("partition: ") {
                if let Some(is_on) = self.look_in(session, name, output) {
                    return Some(is_on);
                }
            }
        }
        None
    }

    /// The same in the partition of a name.
    fn look_in(&self, session: &mut ClientSession<L>, name: &str, output: usize) -> Option<bool> {
        let alloc = self.host.alloc();
        let name = quote(alloc, name).ok()?;
        let line = format!(in alloc; "partition {}", name.as_str()).ok()?;
        self.say(session, line.as_str())?;
        session.is_away = true;
        self.look_here(session, output)
    }

    /// The same in the partition in which the client is. None where the output is not there.
    fn look_here(&self, session: &mut ClientSession<L>, output: usize) -> Option<bool> {
        let shown = self.say(session, "outputs")?;
        is_output_on(self.host.alloc(), shown.as_str(), output).ok()?
    }

    /// Goes back from another partition; where that cannot be done now, the next time. At home it says nothing.
    fn go_home(&self, session: &mut ClientSession<L>)
        ensures home { session.old.is_away ≡ false → session.new ≡ session.old }
        ensures away { session.new.is_away ≡ true → session.old.is_away ≡ true }
    {
        if session.is_away && self.say(session, HOME).is_some() {
            session.is_away = false;
        }
    }

    /// Says lines, all at one moment, and gives their answers. None where one is refused.
    fn say(&self, session: &mut ClientSession<L>, lines: &str) -> Option<String>
        ensures { session.new.is_away ≡ session.old.is_away }
    {
        let alloc = self.host.alloc();
        let requests = requests_of(alloc, lines).ok()?;
        // None of its commands asks a shelf.
        let mut shelf = MemShelf::new(alloc);
        let answered = self
            .house
            .list(
                &self.rt,
                &mut session.seat,
                &mut shelf,
                SWITCHER,
                ListForm::Plain,
                requests,
            )
            .ok()?;
        answers_of(alloc, answered.answers().outcomes()).ok()?
    }
}

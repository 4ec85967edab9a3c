//! What lets each output go on.
ghost use Rattle.std.specs.Prelude.{◌≡◌, IfOk, None, Some, false, is_some, map, slice_get, true};
ghost use Rattle.stalled_outputs.specs.Through.{IsOffOnlyWithPatience};

use crate::own_client::OwnClient;
use crate::paths::PatientPath;
use crew_steps::Gate;
use house::{House, Ledgers};
use output_watchdog::{Off, Switch, Watch};
use partition::PartitionFault;
use settings::OneLine;
use std::alloc::{AllocError, Global};
use std::sync::{Arc, Mutex, Wait};
use std::time::{Clock, Duration, Instant};

/// How many milliseconds the end waits at most until all paths have taken what was written.
const LAST: u64 = 500;

/// An output with patience.
pub(crate) struct Watched {
    through: PatientPath,
    watch: Mutex<Watch>,
}

impl Drop for Watched {
    fn drop(self) {
        let Watched {
            through: _,
            watch: _,
        } = self;
    }
}

/// What came of it that an output asked whether it may go on.
#[derive(Clone, Copy)]
struct Asked {
    goes_on: bool,
    /// Whether it was off for its path alone before.
    was_silent: bool,
    /// Whether it is so now.
    is_silent: bool,
}

/// The gates of all outputs. That of an output without patience is always open.
pub struct Gates<L: Ledgers, R: Wait + Clock + Copy> {
    rt: R,
    /// From when on milliseconds are counted, where the clock can be read.
    start: Option<Instant>,
    outputs: Vec<Option<Watched>>,
    /// One where an output has patience, else none.
    client: Vec<OwnClient<L, R>>,
}

impl<L: Ledgers, R: Wait + Clock + Copy> Drop for Gates<L, R> {
    fn drop(self) {
        let Gates {
            rt: _,
            start: _,
            outputs: _,
            client: _,
        } = self;
    }
}

/// The gates of outputs, of which these have patience. They are watched, and no others.
///
/// # Errors
///
/// Where there is no memory or no seat, both as [`PartitionFault::NoMemory`]; or the player takes no client.
pub fn gates_of<L: Ledgers, R: Wait + Clock + Copy>(
    rt: R,
    host: HostRuntime,
    house: &Arc<House<L>, Global>,
    patient: Vec<Option<PatientPath>>,
) -> Result<Gates<L, R>, PartitionFault>
    ensures { IfOk result (λ gates. map is_some gates.outputs.items ≡ map is_some patient.items) }
{
    let mut outputs = Vec::new(host.alloc());
    let mut is_one_patient = false;
    'patient: for through in patient {
        is_one_patient = is_one_patient || through.is_some();
        outputs.push(watched_of(through)).map_err(AllocError::from)?;
    }
    let mut client = Vec::new(host.alloc());
    if is_one_patient {
        client
            .push(client_of(rt, host, house)?)
            .map_err(AllocError::from)?;
    }
    Ok(Gates {
        rt,
        start: Instant::now(&rt).ok(),
        outputs,
        client,
    })
}

fn watched_of(through: Option<PatientPath>) -> Option<Watched>
    ensures { is_some result ≡ is_some through }
{
    let through = through?;
    let watch = Mutex::new(Watch::new(through.seconds, 0));
    Some(Watched { through, watch })
}

fn client_of<L: Ledgers, R: Wait + Copy>(
    rt: R,
    host: HostRuntime,
    house: &Arc<House<L>, Global>,
) -> Result<OwnClient<L, R>, PartitionFault> {
    let house = Arc::try_clone(house)?;
    let Ok(seat) = house.seat(&rt) else {
        return Err(PartitionFault::NoMemory);
    };
    OwnClient::come(rt, host, house, seat)
}

impl<L: Ledgers, R: Wait + Clock + Copy> Gate for Gates<L, R> {
    /// An output that is not watched always goes on.
    fn ask(&self, output: usize) -> bool
        ensures { slice_get self.now.outputs.items output ≡ Some None → result ≡ true }
    {
        match (self.outputs.get(output), self.client.first()) {
            (Some(Some(watched)), Some(client)) => self.ask_for(output, watched, client),
            _ => true,
        }
    }
}

impl<L: Ledgers, R: Wait + Clock + Copy> Gates<L, R> {
    /// Whether an output with patience may go on. Where it is switched off for its path or on again, that is
    /// told on standard error.
    fn ask_for(&self, output: usize, watched: &Watched, client: &OwnClient<L, R>) -> bool {
        let asked = self.ask_watch(output, watched, client);
        let path = watched.through.path.as_str();
        client.tell_silence(output, path, asked.was_silent, asked.is_silent);
        asked.goes_on
    }

    /// What came of it that an output with patience asked. Its watch is held until that is known, so that who
    /// sees the output off for its path alone sees also that it is.
    fn ask_watch(&self, output: usize, watched: &Watched, client: &OwnClient<L, R>) -> Asked {
        let mut watch = watched.watch.lock(&self.rt);
        let now = self.now();
        let progress = watched.through.tally.progress(&self.rt);
        let was_silent = watch.is_to_return();
        let goes_on = watch.ask(progress, now, &OutputSwitch { client, output });
        Asked {
            goes_on,
            was_silent,
            is_silent: watch.is_to_return(),
        }
    }

    /// Milliseconds since the start; 0 where the clock cannot be read, so that nothing stands still.
    fn now(&self) -> u64 {
        match &self.start {
            Some(start) => match start.elapsed(&self.rt) {
                Ok(passed) => milliseconds_of(passed),
                Err(_) => 0,
            },
            None => 0,
        }
    }

    /// Which of the eight outputs are off for their paths, and were on before. An output without patience never is.
    pub fn off_for_paths(&self) -> [bool; 8]
        ensures { IsOffOnlyWithPatience self.now.outputs.items result }
    {
        [
            self.is_off_for_path(0),
            self.is_off_for_path(1),
            self.is_off_for_path(2),
            self.is_off_for_path(3),
            self.is_off_for_path(4),
            self.is_off_for_path(5),
            self.is_off_for_path(6),
            self.is_off_for_path(7),
        ]
    }

    fn is_off_for_path(&self, output: usize) -> bool
        ensures { slice_get self.now.outputs.items output ≡ Some None → result ≡ false }
    {
        match self.outputs.get(output) {
            Some(Some(watched)) => watched.watch.lock(&self.rt).is_to_return(),
            _ => false,
        }
    }

    /// The outputs give no more. Waits until the paths have taken what was written, half a second in all, and tells
    /// on standard error what one of them did not take.
    pub fn finish(&self, host: &HostRuntime) {
        let start = self.now();
        for (number, watched) in self.outputs.iter().enumerate() {
            if let Some(watched) = watched {
                let passed = self.now().saturating_sub(start);
                let most = Duration::from_millis(LAST.saturating_sub(passed));
                let left = watched.through.tally.finish(&self.rt, most);
                if left > 0 {
                    let _printed = eprintln!(*host;
                        "music_daemon: output {number}: {} did not take {left} bytes that were written",
                        OneLine(watched.through.path.as_str())
                    );
                }
            }
        }
    }
}

/// The client, where it is to see an output and to switch it. Each answer is that of some moment.
#[derive(Drop)]
struct OutputSwitch<'c, L: Ledgers, R: Wait + Copy> {
    client: &'c OwnClient<L, R>,
    output: usize,
}

impl<'c, L: Ledgers, R: Wait + Copy> Switch for OutputSwitch<'c, L, R> {
    ghost use Rattle.std.specs.Prelude.{⊤};

    ghost may_have_ended = { λ _ _. ⊤ };

    ghost may_see = { λ _ _. ⊤ };

    ghost may_switch_off = { λ _ _. ⊤ };

    ghost may_switch_on = { λ _ _. ⊤ };

    fn has_ended(&self) -> bool {
        self.client.has_ended()
    }

    fn is_on(&self) -> Option<bool> {
        self.client.is_on(self.output)
    }

    fn switch_off(&self) -> Option<Off> {
        self.client.switch_off(self.output)
    }

    fn switch_on(&self) -> bool {
        self.client.switch_on(self.output).is_some()
    }
}

fn milliseconds_of(passed: Duration) -> u64 {
    u64::try_from(passed.as_millis()).unwrap_or(u64::MAX)
}

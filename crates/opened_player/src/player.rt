//! The player that settings ask for.
ghost use Rattle.std.specs.Prelude.{◌≡◌, ◌<◌, ◌≤◌, IfOk, OnOk, length, string_bytes, vec_len};
ghost use Rattle.player_state.specs.Outputs.{with_output};
ghost use Rattle.opened_player.specs.Opened.{IsUnused, commands_for, limits_for, opened_by, outputs_for};

use mpd_command::CommandSet;
use mpd_text::SharedText;
use partition::{Limits, Partition, Setup};
use player_state::{Library, Outputs, Scan};
use settings::{OutputSettings, Settings};
use song_db::SharedDb;
use std::alloc::{AllocError, Global};

/// A player over these songs, to which nothing happened, at this second from the beginning of 1970 on.
pub fn player_of(
    alloc: Global,
    settings: &Settings,
    songs: SharedDb,
    second: u64,
) -> Result<Partition, AllocError>
    requires history { 1 ≤ settings.now.history }
    requires outputs { vec_len settings.now.outputs ≤ 8 }
    ensures opened { IfOk result (λ player. player ≡ opened_by settings.now songs second) }
    // No seat made an event, and no output has frames.
    ensures fresh { IfOk result (λ player. IsUnused player.present) }
{
    let setup = Setup {
        limits: limits(settings.history),
        random_start: settings.random_start,
        outputs: outputs_of(alloc, &settings.outputs)?,
    };
    let library = Library {
        songs,
        rate: settings.rate.copied(),
        scan: Scan::never(),
        updated: second,
    };
    Partition::open(alloc, setup, library)
}

/// The commands that clients may give.
pub fn commands_of(settings: &Settings) -> CommandSet
    ensures { result ≡ commands_for settings.now }
{
    CommandSet {
        kill: settings.kill,
        everyday: settings.everyday,
        uptime: None,
    }
}

/// The limits of a daemon's player (this profile's), which keeps so many events one by one.
fn limits(history: u32) -> Limits
    ensures { result ≡ limits_for history }
{
    Limits {
        max_queue: 16_384,
        max_version: 2_147_483_647,
        max_id: 2_147_483_647,
        max_cut: 9_223_372_036_854_775_807,
        history,
    }
}

/// The outputs, of which there are at most 8.
fn outputs_of(alloc: Global, settings: &[OutputSettings]) -> Result<Outputs, AllocError>
    requires { length settings.now ≤ 8 }
    ensures { IfOk result (λ outputs. outputs ≡ outputs_for settings.now) }
{
    let mut outputs = Outputs::none(alloc);
    'settings: for output in settings {
        add_output(alloc, &mut outputs, output)?;
    }
    Ok(outputs)
}

fn add_output(
    alloc: Global,
    outputs: &mut Outputs,
    output: &OutputSettings,
) -> Result<(), AllocError>
    requires { length outputs.old.names < 8 }
    ensures { OnOk result (outputs.new ≡ with_output outputs.old (string_bytes output.now.name) output.now.enabled) }
{
    let name = SharedText::of(String::from_str(alloc, output.name.as_str())?)?;
    outputs.add(name, output.enabled)
}

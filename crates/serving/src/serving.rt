//! A daemon over the files of the system, with a shelf of any kind.
ghost use Rattle.settings.specs.Values.{AreWithin};
ghost use Rattle.house.specs.Blanks.{AreFor};
ghost use Rattle.serving.specs.Starting.{is_state_shelf as is_state_shelf_lem, serving_options, texts_of};
ghost use Rattle.std.specs.Prelude.{◌≡◌, IfOk, OnOk, false};

use crate::address::{address_of, listen_at};
use crate::checked::print_found;
use crate::fault::DaemonFault;
use crate::folder::{Found, songs_of, tell};
use crate::player_handles::open_player_handles;
use crate::resources::resources_of;
use crate::restoring::restore;
use crate::run::{ServingOptions, run};
use crate::state_file::read_state;
use crew::second_now;
use house::{Blanks, Ledgers};
use journal::start_text;
use mpd_server::Server;
use opened_player::{commands_of, player_of};
use settings::Settings;
use shelf::Shelf;
use std::alloc::{AllocError, Global};
use std::marker::Brand;
use std::net::Net;
use std::sync::Wait;
use std::thread::Threads;
use std::time::Clock;

/// What the settings are read for.
#[derive(Clone, Copy, PartialEq, Eq)]
pub enum Purpose {
    /// Serves until a client ends the daemon.
    Serve,
    /// Tells what the settings name, and ends.
    Check,
}

/// How a program starts the daemon.
#[derive(Clone, Copy)]
pub struct Launch {
    /// The program's version, which is told at the start.
    pub version: &'static str,
    pub purpose: Purpose,
}

/// Scans the folder, listens, serves with this shelf until a client ends the daemon, and prints what became
/// of each output's frames; or, for a check, prints what was found. Both handles are the program's: `rt` is
/// what may wait and start threads, and `host` opens files and prints. Its type is written out, since what a
/// thread takes with it may not rest on a bound of `R::File`.
///
/// # Errors
///
/// Each says in one line why the daemon is not started, or does not end well.
pub fn serve<S: Shelf, R: Threads + Wait + Clock + Net + Copy + Send + Sync + 'static>(
    rt: R,
    host: HostRuntime,
    settings: &Settings,
    shelf: &mut S,
    launch: Launch,
) -> Result<(), DaemonFault>
    requires { AreWithin settings.now }
    // Nothing is served, or checked well, with the state and the shelf in one file.
    ensures { OnOk result (is_state_shelf_lem settings.now ≡ false) }
{
    if is_state_shelf(settings) {
        return Err(DaemonFault::BadSetting(String::from_str(host.alloc(), "state")?));
    }
    let found = found_for(&host, settings, launch)?;
    match launch.purpose {
        Purpose::Serve => serve_with::<Brand, S, R>(
            rt,
            host,
            Blanks::new(),
            settings,
            found,
            shelf,
        ),
        Purpose::Check => check(&host, settings, &found),
    }
}

/// What is in the folder of the music, and the line that tells of it; where the daemon is to serve, that line is
/// the one of its start.
fn found_for(
    host: &HostRuntime,
    settings: &Settings,
    launch: Launch,
) -> Result<Found, DaemonFault> {
    let found = songs_of(
        host,
        settings.music.as_str(),
        &settings.rate,
        settings.everyday,
    )?;
    Ok(match launch.purpose {
        Purpose::Serve => started(host.alloc(), settings, launch.version, found),
        Purpose::Check => found,
    })
}

/// The same, with the line of the start. Without memory for it, the line of the scan stays.
fn started(alloc: Global, settings: &Settings, version: &str, found: Found) -> Found {
    let Found { songs, report } = found;
    match start_text(alloc, version, settings, report.as_str()) {
        Ok(line) => Found {
            songs,
            report: line,
        },
        Err(_) => Found { songs, report },
    }
}

/// Whether the state is to be kept in the file of the shelf, which it would write over.
fn is_state_shelf(settings: &Settings) -> bool
    ensures { result ≡ is_state_shelf_lem settings.now }
{
    match (&settings.state, &settings.shelf) {
        (Some(state), Some(shelf)) => state.as_str() == shelf.as_str(),
        _ => false,
    }
}

/// Whether the address is one and the state can be read; and what was found.
fn check(host: &HostRuntime, settings: &Settings, found: &Found) -> Result<(), DaemonFault> {
    address_of(host.alloc(), settings.listen.as_str())?;
    if let Some(path) = &settings.state {
        read_state(host, path.as_str())?;
    }
    print_found(host, settings, found.report.as_str())
}

/// Opens the house and the server, and runs the daemon with the files of the system.
fn serve_with<
    L: Ledgers + Send + Sync + 'static,
    S: Shelf,
    R: Threads + Wait + Clock + Net + Copy + Send + Sync + 'static,
>(
    rt: R,
    host: HostRuntime,
    blanks: Blanks,
    settings: &Settings,
    found: Found,
    shelf: &mut S,
) -> Result<(), DaemonFault>
    requires settings { AreWithin settings.now }
    requires blanks { AreFor L.names blanks }
{
    let alloc = host.alloc();
    let Found { songs, report } = found;
    let player = player_of(alloc, settings, songs, second_now(&rt))?;
    let opened = open_player_handles::<L, R>(&rt, alloc, blanks, player)?;
    let player_handles = match &settings.state {
        Some(path) => restore(&rt, &host, opened, path.as_str())?,
        None => opened,
    };
    let listener = listen_at(&rt, alloc, settings.listen.as_str())?;
    let server = Server::open(&rt, alloc, listener)?;
    let resources = resources_of(rt, host, settings)?;
    tell(&host, report.as_str());
    let state = state_of(alloc, settings)?;
    run(
        rt,
        &host,
        player_handles,
        resources,
        server,
        shelf,
        serving_options_of(settings),
        state,
    )
}

/// The file of the state, where the settings name one.
fn state_of(alloc: Global, settings: &Settings) -> Result<Option<String>, AllocError>
    ensures { IfOk result (λ path. texts_of path ≡ texts_of settings.now.state) }
{
    match &settings.state {
        Some(path) => Ok(Some(String::from_str(alloc, path.as_str())?)),
        None => Ok(None),
    }
}

fn serving_options_of(settings: &Settings) -> ServingOptions
    ensures { result ≡ serving_options settings.now }
{
    ServingOptions {
        rate: settings.rate.frames(),
        ring: settings.ring as usize,
        commands: commands_of(settings),
    }
}

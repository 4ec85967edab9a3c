//! The file in which stored playlists and stickers are kept. What a database is over a file is said here
//! alone: a proof that meets the bounds of one is dear, so it is met in one call.
ghost use Rattle.settings.specs.Values.{AreWithin};
ghost use Rattle.serving.specs.ShelfFaults.{ends_with, unclosed as unclosed_lem, unopened};
ghost use Rattle.std.specs.Prelude.{◌≡◌, Err, IfErr};

use crate::fault::DaemonFault;
use crate::on_database::serve_with_database;
use crate::serving::Launch;
use settings::Settings;
use sqlite::{Connection, Error, ErrorCode, FileStore, Leftover, Unknown};
use sqlite_disk::Disk;
use std::net::Net;
use std::sync::Wait;
use std::thread::Threads;
use std::time::Clock;

/// Serves with the shelf of a file, which is made where it is not there, and then closes it.
pub(crate) fn serve_on_file<R: Threads + Wait + Clock + Net + Copy + Send + Sync + 'static>(
    rt: R,
    host: HostRuntime,
    settings: &Settings,
    path: &str,
    launch: Launch,
) -> Result<(), DaemonFault>
    requires { AreWithin settings.now }
{
    let opened = Connection::open_from(&host, path, false, Unknown);
    serve_and_close(rt, host, settings, opened, launch)
}

/// Serves with the shelf of a connection, and closes it, so that the one file holds all of it. Where that
/// fails, a log stands beside the file, and both together hold all of it.
fn serve_and_close<D: Disk + Drop, R: Threads + Wait + Clock + Net + Copy + Send + Sync + 'static>(
    rt: R,
    host: HostRuntime,
    settings: &Settings,
    opened: Result<Connection<FileStore<D>>, (Error, Option<Leftover<D>>)>,
    launch: Launch,
) -> Result<(), DaemonFault>
    requires { AreWithin settings.now }
    ensures { IfErr opened (λ left. result ≡ Err (unopened left.0)) }
{
    let (served, connection) = serve_with_database(rt, host, settings, opened, launch);
    let closed = match connection {
        Some(connection) => connection.close(),
        None => Ok(()),
    };
    first_of(served, closed)
}

/// What became of the serving, and then of the file.
fn first_of(served: Result<(), DaemonFault>, closed: Result<(), Error>) -> Result<(), DaemonFault>
    ensures { result ≡ ends_with served closed }
{
    match (served, closed) {
        (Err(fault), _) => Err(fault),
        (Ok(()), Err(error)) => Err(unclosed(error)),
        (Ok(()), Ok(())) => Ok(()),
    }
}

/// Why a file is not closed.
fn unclosed(error: Error) -> DaemonFault
    ensures { result ≡ unclosed_lem error }
{
    match error {
        Error::SqliteFailure(ErrorCode::OutOfMemory) => DaemonFault::NoMemory,
        _ => DaemonFault::WriteFault,
    }
}

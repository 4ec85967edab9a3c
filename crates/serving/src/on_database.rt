//! The shelf of a database, whatever that is kept in.
ghost use Rattle.settings.specs.Values.{AreWithin};
ghost use Rattle.serving.specs.ShelfFaults.{IsNoShelf, no_shelf as no_shelf_lem, unopened as unopened_lem};
ghost use Rattle.std.specs.Prelude.{◌≡◌, Err, IfErr, IfOk};

use crate::fault::DaemonFault;
use crate::serving::{Launch, serve};
use settings::Settings;
use shelf::ShelfFault;
use shelf_database::SqlShelf;
use sqlite::{Alter, Connection, Error, ErrorCode};
use std::alloc::Global;
use std::net::Net;
use std::sync::Wait;
use std::thread::Threads;
use std::time::Clock;

/// Serves with the shelf of a connection. The connection is had again unless it is of no shelf.
pub(crate) fn serve_with_database<
    S: Alter + Drop,
    L: Drop,
    R: Threads + Wait + Clock + Net + Copy + Send + Sync + 'static,
>(
    rt: R,
    host: HostRuntime,
    settings: &Settings,
    opened: Result<Connection<S>, (Error, L)>,
    launch: Launch,
) -> (Result<(), DaemonFault>, Option<Connection<S>>)
    requires { AreWithin settings.now }
    // What cannot be opened is not served.
    ensures { IfErr opened (λ left. result.0 ≡ Err (unopened_lem left.0)) }
{
    match shelf_of(host.alloc(), opened) {
        Ok(mut shelf) => {
            let served = serve(rt, host, settings, &mut shelf, launch);
            (served, Some(shelf.into_connection()))
        }
        Err(fault) => (Err(fault), None),
    }
}

/// The shelf of a connection that was opened.
fn shelf_of<S: Alter + Drop, L: Drop>(
    alloc: Global,
    opened: Result<Connection<S>, (Error, L)>,
) -> Result<SqlShelf<S>, DaemonFault>
    ensures unopened { IfErr opened (λ left. result ≡ Err (unopened_lem left.0)) }
    ensures no_shelf { IfOk opened (λ connection. IfErr result (IsNoShelf S.Store connection)) }
{
    match opened {
        Ok(connection) => shelf_over(alloc, connection),
        Err((error, _)) => Err(unopened(error)),
    }
}

/// Why a database is not opened.
fn unopened(error: Error) -> DaemonFault
    ensures { result ≡ unopened_lem error }
{
    match error {
        Error::SqliteFailure(ErrorCode::OutOfMemory) => DaemonFault::NoMemory,
        _ => DaemonFault::CannotOpenShelf,
    }
}

fn shelf_over<S: Alter + Drop>(
    alloc: Global,
    connection: Connection<S>,
) -> Result<SqlShelf<S>, DaemonFault>
    ensures { IfErr result (IsNoShelf S.Store connection) }
{
    match SqlShelf::over(alloc, connection) {
        Ok(shelf) => Ok(shelf),
        Err((cause, _)) => Err(no_shelf(cause)),
    }
}

/// Why a database is no shelf.
fn no_shelf(cause: ShelfFault) -> DaemonFault
    ensures { result ≡ no_shelf_lem cause }
{
    match cause {
        ShelfFault::NoMemory => DaemonFault::NoMemory,
        _ => DaemonFault::CannotOpenShelf,
    }
}

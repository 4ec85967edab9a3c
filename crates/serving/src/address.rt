//! Where the daemon listens.
use crate::fault::DaemonFault;
use mio::net::TcpListener;
use std::alloc::{AllocError, Global};
use std::io::ErrorKind;
use std::net::{Net, SocketAddr};

/// The address that a text names, as `127.0.0.1:6600`, `[::]:6600` or `localhost:6600`, which is the first
/// of them. No other name is looked up.
///
/// # Errors
///
/// [`DaemonFault::CannotListen`] where it names none.
pub(crate) fn address_of(alloc: Global, text: &str) -> Result<SocketAddr, DaemonFault> {
    if let Ok(address) = text.parse::<SocketAddr>() {
        return Ok(address);
    }
    if let Some(port) = text.strip_prefix("localhost:") {
        let own = format!(in alloc; "127.0.0.1:{port}")?;
        if let Ok(address) = own.as_str().parse::<SocketAddr>() {
            return Ok(address);
        }
    }
    Err(cannot_listen(
        alloc,
        text,
        "which is no address and port such as 127.0.0.1:6600",
    )?)
}

/// Listens at the address that a text names.
///
/// # Errors
///
/// [`DaemonFault::CannotListen`], which says what is wrong with it.
pub(crate) fn listen_at<N: Net>(
    rt: &N,
    alloc: Global,
    text: &str,
) -> Result<TcpListener, DaemonFault> {
    let address = address_of(alloc, text)?;
    let kind = match TcpListener::bind(rt, address) {
        Ok(listener) => return Ok(listener),
        Err(fault) => fault.kind(),
    };
    let why = match kind {
        ErrorKind::OutOfMemory => return Err(DaemonFault::NoMemory),
        ErrorKind::AddrInUse => "where another program listens",
        ErrorKind::AddrNotAvailable => "which is no address of this machine",
        ErrorKind::PermissionDenied => "which the system does not permit",
        _ => "which the system refuses",
    };
    Err(cannot_listen(alloc, text, why)?)
}

fn cannot_listen(alloc: Global, text: &str, why: &str) -> Result<DaemonFault, AllocError> {
    Ok(DaemonFault::CannotListen(format!(in alloc; "{text}, {why}")?))
}

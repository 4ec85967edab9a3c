//! The file of the state.
ghost use Rattle.serving.specs.Starting.{aside_for, texts_of};
ghost use Rattle.serving.specs.Storing.{IsRenamed, IsSetAside};
ghost use Rattle.std.specs.Prelude.{◌≡◌, IfOk, OnOk};

use crate::fault::DaemonFault;
use kept_state::Storing;
use std::alloc::{AllocError, Global};
use std::io::{ErrorKind, Write};
use std::{fs, io};

/// The most bytes that a file of the state may have. A longer one is not written either.
const MOST_BYTES: u64 = 67_108_864;

/// The text of a file; none where there is no such file. What is no text in it becomes a character that no
/// song's name has.
///
/// # Errors
///
/// [`DaemonFault::CannotRead`] where it cannot be read or is too large: the daemon then does not start, so
/// that it does not write over it.
pub(crate) fn read_state(rt: &HostRuntime, path: &str) -> Result<Option<String>, DaemonFault> {
    match fs::metadata(rt, path) {
        Ok(metadata) if metadata.len() > MOST_BYTES => {
            return Err(cannot_read(rt, path, ", which has more than 64 MiB: it is no state")?);
        }
        Ok(_) => {}
        Err(fault) if fault.kind() == ErrorKind::NotFound => return Ok(None),
        Err(_) => return Err(cannot_read(rt, path, "")?),
    }
    match fs::read(rt, path) {
        Ok(bytes) => Ok(Some(String::from_utf8_lossy(rt.alloc(), &bytes)?)),
        Err(fault) if fault.kind() == ErrorKind::OutOfMemory => Err(DaemonFault::NoMemory),
        Err(_) => Err(cannot_read(rt, path, "")?),
    }
}

fn cannot_read(rt: &HostRuntime, path: &str, why: &str) -> Result<DaemonFault, AllocError> {
    Ok(DaemonFault::CannotRead(format!(in rt.alloc(); "{path}{why}")?))
}

/// The files of the system.
#[derive(Clone, Copy)]
pub(crate) struct Disk {
    pub(crate) host: HostRuntime,
}

impl Storing for Disk {
    ghost use Rattle.std.specs.Prelude.{⊤};

    type Fault = io::Error;

    ghost writes = { λ _ _ _ _. ⊤ };

    ghost renames = { λ _ _ _ _. ⊤ };

    fn write(&mut self, path: &str, text: &str) -> io::Result<()> {
        write_through(&self.host, path, text)
    }

    fn rename(&mut self, from: &str, to: &str) -> io::Result<()> {
        rename_through(self, from, to)
    }

    fn remove(&mut self, path: &str) {
        let _removed = fs::remove_file(&self.host, path);
    }
}

/// Who gives files other names.
pub(crate) trait Moving {
    ghost use Rattle.std.specs.Prelude.{ℕ, List, OnOk};

    /// What there is, where a file of the first name has the second one instead.
    ghost moves: { Self → List ℕ → List ℕ → Self → Type 0 };

    /// What there is, where the system has stored which files a folder has.
    ghost syncs: { Self → List ℕ → Self → Type 0 };

    /// Gives a file another name.
    fn move_file(&mut self, from: &str, to: &str) -> io::Result<()>
        ensures { OnOk result (moves self.old from.now to.now self.new) };

    /// Has the system store which files a folder has.
    fn sync_folder(&mut self, folder: &str) -> io::Result<()>
        ensures { OnOk result (syncs self.old folder.now self.new) };
}

impl Moving for Disk {
    ghost use Rattle.std.specs.Prelude.{⊤};

    ghost moves = { λ _ _ _ _. ⊤ };

    ghost syncs = { λ _ _ _. ⊤ };

    fn move_file(&mut self, from: &str, to: &str) -> io::Result<()> {
        fs::rename(&self.host, from, to)
    }

    fn sync_folder(&mut self, folder: &str) -> io::Result<()> {
        fs::open(&self.host, folder)?.sync_all()
    }
}

/// Gives a file another name, and has the system store that.
fn rename_through<M: Moving>(disk: &mut M, from: &str, to: &str) -> io::Result<()>
    ensures { OnOk result (IsRenamed M.moves M.syncs disk.old from.now to.now disk.new) }
{
    disk.move_file(from, to)?;
    disk.sync_folder(folder_of(to))
}

/// The folder in which a file is.
fn folder_of(path: &str) -> &str {
    match path.rsplit_once('/') {
        Some((folder, _name)) if !folder.is_empty() => folder,
        Some(_) => "/",
        None => ".",
    }
}

fn write_through(rt: &HostRuntime, path: &str, text: &str) -> io::Result<()> {
    if text.len() as u64 > MOST_BYTES {
        return Err(io::Error::from(ErrorKind::FileTooLarge));
    }
    let mut file = fs::create(rt, path)?;
    file.write_all(text.as_bytes())?;
    file.sync_all()
}

/// Keeps the file of a state beside the one that is written anew, where lines of it were refused.
pub(crate) fn set_aside<M: Moving>(
    disk: &mut M,
    alloc: Global,
    path: &str,
    refused: u64,
) -> io::Result<()>
    ensures { OnOk result (IsSetAside M.moves disk.old path.now (aside_for path.now refused) disk.new) }
{
    match aside_of(alloc, path, refused)? {
        Some(aside) => disk.move_file(path, aside.as_str()),
        None => Ok(()),
    }
}

/// Where a file is kept of which so many lines were refused.
fn aside_of(alloc: Global, path: &str, refused: u64) -> Result<Option<String>, AllocError>
    ensures { IfOk result (λ aside. texts_of aside ≡ aside_for path.now refused) }
{
    if refused == 0 {
        return Ok(None);
    }
    Ok(Some(format!(in alloc; "{path}.refused")?))
}

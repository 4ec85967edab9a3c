//! The scan of a folder.
ghost use Rattle.std.specs.Prelude.{◌≡◌, ◌≤◌, length, All, IfOk, IfErr, OnOk, IsTrue};
ghost use Rattle.counted_devices.specs.CallCounts.{NoFewer};
ghost use Rattle.song_db.specs.Library.{InByteOrder};
ghost use Rattle.library_scan.specs.Faults.{FoundFailed, GivenFailed, NoFolderOnFailure, ShortOnFailure, unread_in};
ghost use Rattle.library_scan.specs.Scans.{IsFound, RefusedInOrder};
ghost use Rattle.library_scan.specs.Steps.{is_song_uri};
ghost use Rattle.library_scan.specs.Trees.{AddsAll, AddsFolder, Explains, IsLimit, IsScanOf, Keeps, KeepsName, ListsEach, NoRoom, OnTooMany, OnTree, OnceEach, OverByAll, OverByFolder, OverByName, OverByRest, SaysIfAllHeard, SaysIfWhole, kept_of_file, reading_of};

use crate::content::{Content, Refusal};
use crate::disk::{Disk, Entry};
use crate::fault::ScanFault;
use crate::found::Found;
use crate::order::{sort_refused, sort_songs};
use crate::path::joined;
use crate::scanned::Scanned;
use crate::step::{Step, step_of};
use crate::system_disk::SystemDisk;
use counted_devices::ReadSeek;
use mpd_text::Text;
use song_db::Rate;
use std::alloc::Global;
use std::rt::Files;

/// Whom a scan tells how far it is.
pub trait Watcher {
    /// So many names were looked at.
    fn saw(&mut self, names: u64);
}

/// Nobody.
#[derive(Drop)]
pub struct Unwatched;

impl Watcher for Unwatched {
    fn saw(&mut self, _names: u64) {}
}

/// The songs of a folder at this rate, and the files that are none. In the everyday profile songs have the tags
/// of that profile too, and ID3v2 tags are read.
///
/// Looked at are regular files and folders, down to sixteen below this one; links are followed, and so a
/// folder that leads back to itself is listed at each depth. Of files those are read whose name ends in
/// `.wav`, whatever the case of these letters. Passed over without a word are names that are not UTF-8 or
/// have a byte below 0x20, URIs of more than 1,024 bytes, folders that lie deeper or cannot be listed, and
/// files of no frames.
///
/// The disk is blamed only where it failed: each file that is called unreadable has a call of its own that
/// failed, and so has the folder where it is told that there is none.
pub fn scan<R: Files + AllocGlobal + Clone + Drop, W: Watcher>(
    alloc: Global,
    disk: &mut SystemDisk<'_, R>,
    rate: &Rate,
    everyday: bool,
    watcher: &mut W,
) -> Result<Scanned, ScanFault>
where
    R::File: ReadSeek,
    ensures order { IfOk result (λ scanned. InByteOrder scanned.songs.items) }
    ensures found { IfOk result (λ scanned. All IsFound scanned.songs.items) }
    ensures few { IfOk result (λ scanned. length scanned.songs.items ≤ 100000) }
    ensures refused_order { IfOk result (λ scanned. RefusedInOrder scanned.refused.items) }
    ensures unread { GivenFailed disk.old.call_counts disk.new.call_counts result }
    ensures no_folder { NoFolderOnFailure disk.old.call_counts disk.new.call_counts result }
{
    scan_disk(alloc, disk, rate, everyday, watcher)
}

/// Scans a disk, as [`scan`] does a folder of the system.
pub fn scan_disk<D: Disk, W: Watcher>(
    alloc: Global,
    disk: &mut D,
    rate: &Rate,
    everyday: bool,
    watcher: &mut W,
) -> Result<Scanned, ScanFault>
    ensures order { IfOk result (λ scanned. InByteOrder scanned.songs.items) }
    ensures found { IfOk result (λ scanned. All IsFound scanned.songs.items) }
    ensures few { IfOk result (λ scanned. length scanned.songs.items ≤ 100000) }
    ensures refused_order { IfOk result (λ scanned. RefusedInOrder scanned.refused.items) }
    // It is what all folders hold that can be found.
    ensures scan { OnTree (D.known_tree disk.old) (λ tree. IfOk result (IsScanOf tree everyday rate.now)) }
    // A fault names what the disk has: no whole listing of its own folder, or more than the limits.
    ensures cause { OnTree (D.known_tree disk.old) (λ tree. IfErr result (Explains tree everyday rate.now)) }
    // Each file that is called unreadable has a call of its own that failed.
    ensures unread { GivenFailed (D.call_counts disk.old) (D.call_counts disk.new) result }
    ensures no_folder { NoFolderOnFailure (D.call_counts disk.old) (D.call_counts disk.new) result }
{
    let mut found = Found::new(alloc)?;
    if !list(alloc, disk, "", rate, everyday, &mut found, watcher)? {
        return Err(ScanFault::NoFolder);
    }
    list_below(alloc, disk, rate, everyday, &mut found, watcher)?;
    Ok(in_order(found))
}

fn in_order(found: Found) -> Scanned
    ensures order { InByteOrder result.songs.items }
    ensures found { All IsFound result.songs.items }
    ensures few { length result.songs.items ≤ 100000 }
    ensures refused_order { RefusedInOrder result.refused.items }
    ensures songs { OnceEach (λ song. song.uri) found.songs.items result.songs.items }
    ensures refused { OnceEach (λ file. file.uri) found.refused.items result.refused.items }
    ensures unread { unread_in result.refused.items ≤ unread_in found.refused.items }
{
    let Found {
        mut songs,
        mut refused,
        ..
    } = found;
    sort_songs(&mut songs);
    sort_refused(&mut refused);
    Scanned { songs, refused }
}

/// Lists each folder that was found, and those that are found there, where the scanned one was listed.
fn list_below<D: Disk, W: Watcher>(
    alloc: Global,
    disk: &mut D,
    rate: &Rate,
    everyday: bool,
    found: &mut Found,
    watcher: &mut W,
) -> Result<(), ScanFault>
    ensures all { ListsEach (D.known_tree disk.old) everyday rate.now found.old found.new result }
    ensures over { OverByRest (D.known_tree disk.old) everyday rate.now found.old result }
    ensures cause { IfErr result (IsLimit found.new) }
    ensures unread { FoundFailed D.call_counts disk.old disk.new found.old found.new result }
    ensures calm { NoFewer (D.call_counts disk.old) (D.call_counts disk.new) }
{
    let mut at = 1;
    loop {
        let Some(uri) = found.folder(alloc, at)? else {
            return Ok(());
        };
        let _is_listed = list(alloc, disk, uri.as_str(), rate, everyday, found, watcher)?;
        at += 1;
    }
}

/// Looks at each name of a folder; false where it cannot be listed whole.
fn list<D: Disk, W: Watcher>(
    alloc: Global,
    disk: &mut D,
    uri: &str,
    rate: &Rate,
    everyday: bool,
    found: &mut Found,
    watcher: &mut W,
) -> Result<bool, ScanFault>
    ensures stays { D.known_tree disk.new ≡ D.known_tree disk.old }
    ensures adds { AddsFolder (D.known_tree disk.old) everyday rate.now uri.now found.old found.new result }
    ensures whole { SaysIfWhole (D.known_tree disk.old) uri.now result }
    ensures over { OverByFolder (D.known_tree disk.old) everyday rate.now uri.now found.old result }
    ensures cause { IfErr result (IsLimit found.new) }
    ensures short { ShortOnFailure (D.call_counts disk.old) (D.call_counts disk.new) result }
    ensures unread { FoundFailed D.call_counts disk.old disk.new found.old found.new result }
    ensures calm { NoFewer (D.call_counts disk.old) (D.call_counts disk.new) }
{
    if !disk.open_folder(alloc, uri)? {
        return Ok(false);
    }
    list_open(alloc, disk, uri, rate, everyday, found, watcher)
}

/// Looks at each name of the folder that was opened last; false where its listing breaks off.
fn list_open<D: Disk, W: Watcher>(
    alloc: Global,
    disk: &mut D,
    uri: &str,
    rate: &Rate,
    everyday: bool,
    found: &mut Found,
    watcher: &mut W,
) -> Result<bool, ScanFault>
    ensures stays { D.known_tree disk.new ≡ D.known_tree disk.old }
    ensures adds { AddsAll D.known_tree D.left disk.old everyday rate.now uri.now found.old found.new result }
    ensures whole { SaysIfAllHeard (D.known_tree disk.old) (D.left disk.old) result }
    ensures over { OverByAll D.known_tree D.left disk.old everyday rate.now uri.now found.old result }
    ensures cause { IfErr result (IsLimit found.new) }
    ensures short { ShortOnFailure (D.call_counts disk.old) (D.call_counts disk.new) result }
    ensures unread { FoundFailed D.call_counts disk.old disk.new found.old found.new result }
    ensures calm { NoFewer (D.call_counts disk.old) (D.call_counts disk.new) }
{
    loop {
        let Some(entry) = disk.next_entry(alloc)? else {
            return Ok(true);
        };
        watcher.saw(found.count_name()?);
        match entry {
            Entry::Name(name) => look_at(alloc, disk, uri, name.as_str(), rate, everyday, found)?,
            Entry::NotText => {}
            Entry::Broken => return Ok(false),
        }
    }
}

/// Does with a name of a folder what is to be done with it.
fn look_at<D: Disk>(
    alloc: Global,
    disk: &mut D,
    folder: &str,
    name: &str,
    rate: &Rate,
    everyday: bool,
    found: &mut Found,
) -> Result<(), ScanFault>
    ensures stays { D.known_tree disk.new ≡ D.known_tree disk.old }
    ensures left { D.left disk.new ≡ D.left disk.old }
    ensures keeps { KeepsName (D.known_tree disk.old) everyday rate.now folder.now name.now
        found.old found.new result }
    ensures over { OverByName (D.known_tree disk.old) everyday rate.now folder.now name.now found.old result }
    ensures names { found.new.names ≡ found.old.names }
    ensures cause { IfErr result (IsLimit found.new) }
    ensures unread { FoundFailed D.call_counts disk.old disk.new found.old found.new result }
    ensures calm { NoFewer (D.call_counts disk.old) (D.call_counts disk.new) }
{
    let uri = joined(alloc, folder, name)?;
    let kind = disk.look(alloc, uri.as_str())?;
    match step_of(uri.as_str(), kind) {
        Step::Skip => Ok(()),
        Step::Descend => found.descend(uri),
        Step::Refuse => found.refuse(uri, Refusal::ReadFault),
        Step::Read => {
            let content = disk.read(alloc, uri.as_str(), rate, everyday)?;
            keep(uri, content, found)
        }
    }
}

fn keep(uri: Text, content: Content, found: &mut Found) -> Result<(), ScanFault>
    requires { IsTrue (is_song_uri uri) }
    ensures keeps { OnOk result (Keeps (kept_of_file uri (reading_of content)) found.old found.new) }
    ensures over { OnTooMany result (NoRoom found.old (kept_of_file uri (reading_of content))) }
    ensures names { found.new.names ≡ found.old.names }
    ensures cause { IfErr result (IsLimit found.new) }
{
    match content {
        Content::Song(_, 0) | Content::Empty => Ok(()),
        Content::Song(tags, frames) => found.add(uri, tags, frames),
        Content::Refused(refusal) => found.refuse(uri, refusal),
    }
}

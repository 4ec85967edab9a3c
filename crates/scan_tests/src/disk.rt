//! Folders that are made on the disk, and scanned.
use crate::helpers::{add_scan, size_of};
use counted_devices::ReadSeek;
use library_scan::{ScanFault, Scanned, SystemDisk, Unwatched, Watcher, scan};
use song_db::Rate;
use std::alloc::{AllocError, Global};
use std::os::unix::fs::symlink;
use std::rt::Files;
use std::test::Fail;
use std::{fs, io};
use test_texts::{Recorder, wants};

/// 24 bits, one channel, a title, and a data size past the file's end: two frames at 8,000 a second.
pub const WAVE: [u8; 75] =
    *b"RIFF\0\0\0\0WAVEfmt \x10\0\0\0\x01\0\x01\0\x40\x1f\0\0\xc0\x5d\0\0\x03\0\x18\0LIST\x10\0\0\0INFOINAM\x03\0\0\0Hi\0\0data\x64\0\0\0\0\x01\0\xff\xff\xff\x7f";

const FOLDERS: [&str; 6] = [
    "made/kinds/folder.wav",
    "made/kinds/tab\tfolder",
    "made/links/one/two",
    "made/deep/d/d/d/d/d/d/d/d/d/d/d/d/d/d/d/d/d",
    "made/watched/a",
    "made/tagged",
];

/// Files, and with how many bytes of the worked one.
const FILES: [(&str, usize); 18] = [
    ("made/kinds/x.wav", 75),
    ("made/kinds/X.WAV", 75),
    ("made/kinds/.WaV", 75),
    ("made/kinds/folder.wav/y.wav", 75),
    ("made/kinds/x.wave", 75),
    ("made/kinds/wav", 75),
    ("made/kinds/notriff.wav", 0),
    ("made/kinds/noformat.wav", 30),
    ("made/kinds/nodata.wav", 60),
    ("made/kinds/empty.wav", 68),
    ("made/kinds/line\nbreak.wav", 75),
    ("made/kinds/tab\t.wav", 75),
    ("made/kinds/tab\tfolder/z.wav", 75),
    ("made/links/one/x.wav", 75),
    ("made/deep/d/d/d/d/d/d/d/d/d/d/d/d/d/d/d/d/x.wav", 75),
    ("made/deep/d/d/d/d/d/d/d/d/d/d/d/d/d/d/d/d/d/y.wav", 75),
    ("made/watched/a/x.wav", 75),
    ("made/watched/y.txt", 75),
];

/// Links, each after what it leads to.
const LINKS: [(&str, &str); 5] = [
    ("one/x.wav", "made/links/y.wav"),
    ("one/two/../../one", "made/links/other"),
    ("nothing", "made/links/gone.wav"),
    ("nothing", "made/links/gone"),
    ("self.wav", "made/links/self.wav"),
];

fn put<R: Files>(rt: &R, path: &str, len: usize) -> io::Result<()> {
    fs::write(rt, path, WAVE.get(..len).unwrap_or(&[]))
}

/// The worked file of a format that is not played.
fn unsupported() -> [u8; 75] {
    let mut bytes = WAVE;
    bytes[20] = 3;
    bytes
}

/// A file of 9,000 bytes of data, with its title after them.
fn late(alloc: Global) -> Result<Vec<u8>, AllocError> {
    let mut bytes = Vec::new(alloc);
    bytes.extend_from_slice(&WAVE[..36])?;
    bytes.extend_from_slice(b"data\x28\x23\0\0")?;
    bytes.extend_from_slice(&[0; 9_000])?;
    bytes.extend_from_slice(&WAVE[36..60])?;
    Ok(bytes)
}

/// A file of one frame, with an ID3v2 tag of a title and an artist after it, and with its title in a list.
fn tagged(alloc: Global) -> Result<Vec<u8>, AllocError> {
    let mut bytes = Vec::new(alloc);
    bytes.extend_from_slice(&WAVE[..36])?;
    bytes.extend_from_slice(b"data\x03\0\0\0\0\0\0\0id3 \x22\0\0\0ID3\x03\0\0\0\0\0\x18")?;
    bytes.extend_from_slice(b"TIT2\0\0\0\x02\0\0\0bTPE1\0\0\0\x02\0\0\0c")?;
    bytes.extend_from_slice(&WAVE[36..60])?;
    Ok(bytes)
}

fn fill<R: Files + AllocGlobal>(rt: &R) -> io::Result<()> {
    for folder in FOLDERS.iter() {
        fs::create_dir_all(rt, folder)?;
    }
    for (path, len) in FILES.iter() {
        put(rt, path, *len)?;
    }
    for (to, path) in LINKS.iter() {
        symlink(rt, to, path)?;
    }
    fs::write(rt, "made/kinds/unsupported.wav", &unsupported())?;
    fs::write(rt, "made/kinds/late.wav", late(rt.alloc())?.as_slice())?;
    fs::write(rt, "made/tagged/x.wav", tagged(rt.alloc())?.as_slice())
}

fn scanned<R: Files + AllocGlobal + Clone + Drop>(
    rt: &R,
    folder: &str,
    frames: u32,
    everyday: bool,
) -> Result<Scanned, ScanFault>
where
    R::File: ReadSeek,
{
    let rate = Rate::new(frames).unwrap_or(Rate::lowest());
    let mut disk = SystemDisk::new(rt, folder);
    scan(rt.alloc(), &mut disk, &rate, everyday, &mut Unwatched)
}

fn add_scanned<R: Files + AllocGlobal + Clone + Drop>(
    rt: &R,
    recorder: &mut Recorder,
    folder: &str,
    frames: u32,
    everyday: bool,
)
where
    R::File: ReadSeek,
{
    add_scan(recorder, &scanned(rt, folder, frames, everyday));
    recorder.add("\n");
}

/// Counts what it is told of.
#[derive(Drop)]
struct Count(u64);

impl Watcher for Count {
    fn saw(&mut self, names: u64) {
        self.0 = names;
    }
}

fn names_in<R: Files + AllocGlobal + Clone + Drop>(rt: &R, folder: &str) -> u64
where
    R::File: ReadSeek,
{
    let mut count = Count(0);
    let mut disk = SystemDisk::new(rt, folder);
    let _scanned = scan(rt.alloc(), &mut disk, &Rate::lowest(), false, &mut count);
    count.0
}

/// What is scanned, at how many frames a second, and whether with the tags of the everyday profile.
const SCANS: [(&str, u32, bool); 10] = [
    ("made/kinds", 8_000, false),
    ("made/kinds/folder.wav", 44_100, false),
    ("made/kinds/folder.wav/", 8_000, false),
    ("made/kinds/x.wav", 8_000, false),
    ("made/nothing", 8_000, false),
    ("", 8_000, false),
    ("made/links", 8_000, false),
    ("made/deep", 8_000, true),
    ("made/tagged", 8_000, false),
    ("made/tagged", 8_000, true),
];

const SCANS_TELL: &str =
    ".WaV=2+1 X.WAV=2+1 folder.wav/y.wav=2+1 late.wav=3000+1 x.wav=2+1 nodata.wav:NoData noformat.wav:NoFormat notriff.wav:NotRiff unsupported.wav:Unsupported 
y.wav:Unsupported 
y.wav=2+1 
NoFolder 
NoFolder 
NoFolder 
one/x.wav=2+1 other/x.wav=2+1 y.wav=2+1 gone.wav:ReadFault self.wav:ReadFault 
d/d/d/d/d/d/d/d/d/d/d/d/d/d/d/d/x.wav=2+1 
x.wav=1+1 
x.wav=1+2 
3 names";

fn observed_of_scans<R: Files + AllocGlobal + Clone + Drop>(rt: &R) -> Result<String, AllocError>
where
    R::File: ReadSeek,
{
    let mut recorder = Recorder::new(rt.alloc());
    for (folder, frames, everyday) in SCANS.iter() {
        add_scanned(rt, &mut recorder, folder, *frames, *everyday);
    }
    let names = names_in(rt, "made/watched");
    recorder.add(format_args!("{names} names"));
    recorder.into_text()
}

fn observed_of_made<R: Files + AllocGlobal + Clone + Drop>(rt: &R) -> io::Result<String>
where
    R::File: ReadSeek,
{
    fill(rt)?;
    let observed = observed_of_scans(rt)?;
    fs::remove_dir_all(rt, "made")?;
    Ok(observed)
}

/// The name of a folder of 200 bytes.
const LONG: &str =
    "zzzzzzzzzzzzzzzzzzzzzzzzzzzzzzzzzzzzzzzzzzzzzzzzzzzzzzzzzzzzzzzzzzzzzzzzzzzzzzzzzzzzzzzzzzzzzzzzzzzz\
zzzzzzzzzzzzzzzzzzzzzzzzzzzzzzzzzzzzzzzzzzzzzzzzzzzzzzzzzzzzzzzzzzzzzzzzzzzzzzzzzzzzzzzzzzzzzzzzzzzz";

fn put_long<R: Files + AllocGlobal>(rt: &R, folder: &str, rest: &str) -> io::Result<()> {
    let path = format!(in rt.alloc(); "{folder}/{LONG}{rest}.wav")?;
    put(rt, path.as_str(), 75)
}

/// Files whose URIs have 1,024 bytes and one more: those of four folders, of a name, and of what lies between.
fn fill_with_long<R: Files + AllocGlobal>(rt: &R) -> io::Result<()> {
    let folder = format!(in rt.alloc(); "large/{LONG}/{LONG}/{LONG}/{LONG}")?;
    fs::create_dir_all(rt, folder.as_str())?;
    put_long(rt, folder.as_str(), "xxxxxxxxxxxxxxxx")?;
    put_long(rt, folder.as_str(), "xxxxxxxxxxxxxxxxx")
}

fn put_song<R: Files + AllocGlobal>(rt: &R, folder: u32) -> io::Result<()> {
    let mut path = format!(in rt.alloc(); "large/d{folder}")?;
    fs::create_dir_all(rt, path.as_str())?;
    path.push_str("/x.wav")?;
    put(rt, path.as_str(), 75)
}

fn fill_with_many<R: Files + AllocGlobal>(rt: &R) -> io::Result<()> {
    for folder in 0..300u32 {
        put_song(rt, folder)?;
    }
    fs::create_dir_all(rt, "large/loop")?;
    put(rt, "large/loop/x.wav", 75)?;
    symlink(rt, ".", "large/loop/again")
}

fn observed_of_large<R: Files + AllocGlobal + Clone + Drop>(rt: &R) -> io::Result<String>
where
    R::File: ReadSeek,
{
    fill_with_many(rt)?;
    fill_with_long(rt)?;
    let observed = size_of(rt.alloc(), &scanned(rt, "large", 8_000, false))?;
    fs::remove_dir_all(rt, "large")?;
    Ok(observed)
}

/// Each kind of file; links; a file sixteen folders down, and one deeper; and how many names are seen. Then 300
/// folders side by side, each with a song; a folder that leads back to itself, whose song is found at each
/// depth from 1 to 16; and the longest URI.
#[test]
fn made_folders(rt: HostRuntime) -> Result<(), Fail> {
    wants(observed_of_made(&rt), SCANS_TELL)?;
    wants(
        observed_of_large(&rt),
        "317 songs, the last of 1024 bytes, 0 refused",
    )
}

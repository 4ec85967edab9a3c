//! Folders of a fake system, which tell what no real one tells when a test wants it: a name that is no text,
//! a listing that breaks off, a file that cannot be opened, and one of more than 2^32 bytes.
use crate::disk::WAVE;
use crate::helpers::add_scan;
use counted_devices::{FailAt, FailurePoint, ReadSeek};
use library_scan::{SystemDisk, Unwatched, scan};
use song_db::Rate;
use std::alloc::{AllocError, Allocator, Global};
use std::fs::{Metadata, OpenFile, OpenOptions};
use std::io::ErrorKind;
use std::rt::Files;
use std::test::Fail;
use std::{fs, io};
use test_texts::{Recorder, wants};

/// What a folder tells; the second has a folder below it whose listing breaks off after its first name.
const ODD: &[u8] = b"a.wav\0\xff.wav\0shut.wav\0far.wav\0b.wav\0broken\0gone\0c.wav\0";

const BROKEN: &[u8] = b"d.wav\0e.wav\0";

const BREAK: u64 = 6;

/// The folder `odd` of fake names. The bytes of its files are those of two real ones.
#[derive(Clone, Drop)]
struct Odd<'a, R> {
    rt: &'a R,
    alloc: Global,
}

impl<R: Files> Odd<'_, R> {
    fn listing(&self, names: &[u8], point: FailurePoint) -> io::Result<FailAt> {
        Ok(FailAt::new(Vec::from_slice(self.alloc, names)?, point))
    }
}

impl<R: Files> Files for Odd<'_, R> {
    type File = R::File;

    type Dir = FailAt;

    fn open_file(&self, how: &OpenOptions, path: &str) -> io::Result<R::File> {
        match path {
            "odd/shut.wav" => Err(io::Error::from(ErrorKind::PermissionDenied)),
            "odd/far.wav" => self.rt.open_file(how, "odd_far"),
            _ => self.rt.open_file(how, "odd_near"),
        }
    }

    fn open_dir(&self, path: &str) -> io::Result<FailAt> {
        match path {
            "odd/" => self.listing(ODD, FailurePoint::Never),
            "odd/broken/" => self.listing(BROKEN, FailurePoint::Byte(BREAK)),
            _ => Err(io::Error::from(ErrorKind::NotFound)),
        }
    }

    fn metadata(&self, path: &str) -> io::Result<Metadata> {
        match path {
            "odd/broken" | "odd/gone" => Ok(Metadata::of_dir()),
            _ => Ok(Metadata::of_file(75)),
        }
    }

    fn symlink_metadata(&self, path: &str) -> io::Result<Metadata> {
        self.metadata(path)
    }

    fn copy(&self, _from: &str, _to: &str) -> io::Result<u64> {
        Err(io::Error::from(ErrorKind::Unsupported))
    }

    fn rename(&self, _from: &str, _to: &str) -> io::Result<()> {
        Err(io::Error::from(ErrorKind::Unsupported))
    }

    fn remove_file(&self, _path: &str) -> io::Result<()> {
        Err(io::Error::from(ErrorKind::Unsupported))
    }

    fn create_dir(&self, _path: &str) -> io::Result<()> {
        Err(io::Error::from(ErrorKind::Unsupported))
    }

    fn remove_dir(&self, _path: &str) -> io::Result<()> {
        Err(io::Error::from(ErrorKind::Unsupported))
    }

    fn remove_dir_all<B: Allocator>(&self, _alloc: B, _path: &str) -> io::Result<()> {
        Err(io::Error::from(ErrorKind::Unsupported))
    }
}

/// The worked file with the greatest size of data that a chunk can tell.
fn far() -> [u8; 75] {
    let mut bytes = WAVE;
    bytes[64..68].copy_from_slice(&[255; 4]);
    bytes
}

fn add_odd<R: Files + Clone + Drop>(rt: &R, alloc: Global, recorder: &mut Recorder, folder: &str)
where
    R::File: ReadSeek,
{
    let fake = (Odd { rt, alloc }, alloc);
    let mut disk = SystemDisk::new(&fake, folder);
    let scanned = scan(alloc, &mut disk, &Rate::lowest(), false, &mut Unwatched);
    add_scan(recorder, &scanned);
}

fn observed_of_odd<R: Files + Clone + Drop>(rt: &R, alloc: Global) -> Result<String, AllocError>
where
    R::File: ReadSeek,
{
    let mut recorder = Recorder::new(alloc);
    add_odd(rt, alloc, &mut recorder, "odd");
    add_odd(rt, alloc, &mut recorder, "odd/broken");
    add_odd(rt, alloc, &mut recorder, "odd/gone");
    recorder.into_text()
}

fn observed<R: Files + AllocGlobal + Clone + Drop>(rt: &R) -> io::Result<String>
where
    R::File: ReadSeek,
{
    fs::write(rt, "odd_near", &WAVE)?;
    fs::write(rt, "odd_far", &far())?;
    // The rest takes no room on the disk.
    let far = OpenOptions::new().write(true).open(rt, "odd_far")?;
    far.set_len((1 << 32) + 70)?;
    let observed = observed_of_odd(rt, rt.alloc())?;
    fs::remove_file(rt, "odd_near")?;
    fs::remove_file(rt, "odd_far")?;
    Ok(observed)
}

// Of the far file there are 4,294,967,295 bytes of data, at three a frame.
#[test]
fn odd_folders(rt: HostRuntime) -> Result<(), Fail> {
    wants(
        observed(&rt),
        "a.wav=2+1 b.wav=2+1 broken/d.wav=2+1 c.wav=2+1 far.wav=1431655765+1 shut.wav:ReadFault NoFolder NoFolder ",
    )
}

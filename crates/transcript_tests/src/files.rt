//! The files of the day: the settings, the songs, and what the daemon wrote.
use std::net::{SocketAddr, TcpListener};
use std::{fs, io};

/// The file of settings that the daemon is started with.
pub(crate) const SETTINGS: &str = "settings.toml";

/// What the enabled output writes to.
const PLAYED: &str = "senders.pcm";

/// What the other output would write to, and the file of stored playlists.
const OTHERS: [&str; 2] = ["rooms.pcm", "shelf.db"];

/// Writes the file of settings, and gives the address that it says. The port is one that is free: the day may
/// be lived twice on one machine.
pub(crate) fn write_settings(rt: &HostRuntime) -> io::Result<SocketAddr> {
    let address = TcpListener::bind(rt, "127.0.0.1:0")?.local_addr()?;
    let settings = fs::read_to_string(rt, "day.toml")?;
    let settings = format!(in rt.alloc(); "listen = \"{address}\"\n{settings}")?;
    fs::write(rt, SETTINGS, settings)?;
    Ok(address)
}

/// Puts one more song into the folder of the music.
pub(crate) fn bring_song(rt: &HostRuntime) -> io::Result<()> {
    fs::copy(rt, "later/noon.wav", "music/noon.wav")?;
    Ok(())
}

/// How many bytes the enabled output wrote so far; none where there is no such file yet.
pub(crate) fn played_bytes(rt: &HostRuntime) -> u64 {
    match fs::metadata(rt, PLAYED) {
        Ok(file) => file.len(),
        Err(_) => 0,
    }
}

/// Prints the frames that were played, and which other files are there.
pub(crate) fn print_files(rt: &HostRuntime) -> io::Result<()> {
    print_played(rt)?;
    for path in OTHERS {
        let is_there = fs::exists(rt, path)?;
        println!(rt; "{path}: {}", if is_there { "a file" } else { "no file" })?;
    }
    Ok(())
}

fn print_played(rt: &HostRuntime) -> io::Result<()> {
    let bytes = fs::read(rt, PLAYED)?;
    println!(rt; "{PLAYED}: {} bytes", bytes.len())?;
    for frame in bytes.chunks(4) {
        print_frame(rt, frame)?;
    }
    Ok(())
}

/// Prints a frame as its left and its right sample.
fn print_frame(rt: &HostRuntime, frame: &[u8]) -> io::Result<()> {
    match frame {
        [a, b, c, d] => {
            let left = i16::from_le_bytes([*a, *b]);
            let right = i16::from_le_bytes([*c, *d]);
            println!(rt; "{left} {right}")
        }
        _ => println!(rt; "{} bytes of a frame", frame.len()),
    }
}

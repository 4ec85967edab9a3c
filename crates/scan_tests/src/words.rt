//! Command lines.
use command_line::{LineFault, Program, command_line};
use std::alloc::{AllocError, Global};
use std::test::Fail;
use test_texts::wants;

fn words_of(alloc: Global, line: &str) -> Result<Vec<String>, AllocError> {
    let mut words = Vec::new(alloc);
    for word in line.split(' ') {
        words.push(String::from_str(alloc, word)?)?;
    }
    Ok(words)
}

/// The program that a line asks for, or the exit status and all that is printed in its place.
fn observed(alloc: Global, line: &str) -> Result<String, AllocError> {
    let words = words_of(alloc, line)?;
    match command_line(alloc, &words) {
        Ok(program) => program_observed(alloc, &program),
        Err(fault) => refusal_observed(alloc, &fault),
    }
}

fn program_observed(alloc: Global, program: &Program<'_>) -> Result<String, AllocError> {
    match program {
        Program::Serve(file, only_checks) => format!(in alloc; "Serve({file}, {only_checks})"),
        Program::Scan(rate, folder, everyday) => {
            let frames = rate.frames();
            format!(in alloc; "Scan({frames}, {folder}, {everyday})")
        }
        Program::Script => format!(in alloc; "Script"),
    }
}

fn refusal_observed(alloc: Global, fault: &LineFault) -> Result<String, AllocError> {
    let status = fault.status();
    match fault {
        LineFault::Refused(error) => format!(in alloc; "{status}: {error}"),
        LineFault::NoMemory => Err(AllocError),
    }
}

/// The same up to the end of its first line.
fn first_line_observed(alloc: Global, line: &str) -> Result<String, AllocError> {
    let observed = observed(alloc, line)?;
    String::from_str(alloc, observed.as_str().split('\n').next().unwrap_or(""))
}

/// Lines, each with the first line of what it is to come to.
const LINES: &str = "music_daemon serve --config FILE => Serve(FILE, false)
music_daemon serve --config=FILE => Serve(FILE, false)
music_daemon serve --config FILE --check => Serve(FILE, true)
music_daemon serve --check --config FILE => Serve(FILE, true)
music_daemon serve --config - => Serve(-, false)
music_daemon serve --config= => Serve(, false)
music_daemon serve => 2: error: the following required arguments were not provided:
music_daemon serve --config => 2: error: a value is required for '--config <FILE>' but none was supplied
music_daemon serve FILE => 2: error: unexpected argument 'FILE' found
music_daemon serve --config FILE more => 2: error: unexpected argument 'more' found
music_daemon serve --config FILE --config FILE => 2: error: the argument '--config <FILE>' cannot be used multiple times
music_daemon --config FILE serve => 2: error: unexpected argument '--config' found
music_daemon help serve => 0: Serves clients and plays to outputs, as a file of settings says
music_daemon script => Script
music_daemon scan DIR => Scan(44100, DIR, false)
music_daemon scan --rate 8000 DIR => Scan(8000, DIR, false)
music_daemon scan --rate 192000 DIR => Scan(192000, DIR, false)
music_daemon scan --rate=48000 DIR => Scan(48000, DIR, false)
music_daemon scan DIR --rate 8000 => Scan(8000, DIR, false)
music_daemon scan -- --rate => Scan(44100, --rate, false)
music_daemon scan --everyday DIR => Scan(44100, DIR, true)
music_daemon scan --rate 8000 --everyday DIR => Scan(8000, DIR, true)
music_daemon scan --everyday --rate 8000 DIR => Scan(8000, DIR, true)
music_daemon scan DIR --everyday => Scan(44100, DIR, true)
music_daemon scan -- --everyday => Scan(44100, --everyday, false)
music_daemon scan --everyday --everyday DIR => 2: error: the argument '--everyday' cannot be used multiple times
music_daemon scan --everyday=true DIR => 2: error: unexpected value 'true' for '--everyday' found; no more were expected
music_daemon scan --everyday => 2: error: the following required arguments were not provided:
music_daemon scan --rate 7999 DIR => 2: error: invalid value '7999' for '--rate <N>': 7999 is not in 8000..=192000
music_daemon scan --rate 192001 DIR => 2: error: invalid value '192001' for '--rate <N>': 192001 is not in 8000..=192000
music_daemon scan --rate x DIR => 2: error: invalid value 'x' for '--rate <N>': invalid digit found in string
music_daemon scan => 2: error: the following required arguments were not provided:
music_daemon scan DIR more => 2: error: unexpected argument 'more' found
music_daemon script x => 2: error: unexpected argument 'x' found
music_daemon nosuch => 2: error: unrecognized subcommand 'nosuch'
music_daemon => 2: error: 'music_daemon' requires a subcommand but one was not provided
music_daemon --help => 0: A Music Player Daemon for PCM libraries
music_daemon help script => 0: Runs standard input as a script
music_daemon --version => 0: music_daemon 0.9.0";

fn comes_to(alloc: Global, pair: &str) -> Result<(), Fail> {
    let (line, expected) = pair.split_once(" => ").unwrap_or((pair, "?"));
    wants(first_line_observed(alloc, line), expected)
}

const HELP: &str = "0: A Music Player Daemon for PCM libraries

Usage: music_daemon <COMMAND>

Commands:
  serve   Serves clients and plays to outputs, as a file of settings says
  scan    Prints the songs of a folder, and on standard error why other files are not songs
  script  Runs standard input as a script
  help    Print this message or the help of the given subcommand(s)

Options:
  -h, --help     Print help
  -V, --version  Print version
";

const SERVE_HELP: &str = "0: Serves clients and plays to outputs, as a file of settings says

Usage: music_daemon serve [OPTIONS] --config <FILE>

Options:
      --config <FILE>  The file of settings
      --check          Says what the settings name, and ends
  -h, --help           Print help
";

const SCAN_HELP: &str =
    "0: Prints the songs of a folder, and on standard error why other files are not songs

Usage: music_daemon scan [OPTIONS] <DIR>

Arguments:
  <DIR>  The folder to scan

Options:
      --rate <N>  Frames a second that a file must have, 8000 to 192000 [default: 44100]
      --everyday  Also read the tags of the everyday profile, from ID3 too
  -h, --help      Print help
";

const SCRIPT_HELP: &str = "0: Runs standard input as a script

Usage: music_daemon script

Options:
  -h, --help  Print help
";

/// Lines, and the whole help texts, in the layout of clap 4.
#[test]
fn command_lines(rt: HostRuntime) -> Result<(), Fail> {
    for pair in LINES.lines() {
        comes_to(rt.alloc(), pair)?;
    }
    wants(observed(rt.alloc(), "music_daemon --help"), HELP)?;
    wants(
        observed(rt.alloc(), "music_daemon serve --help"),
        SERVE_HELP,
    )?;
    wants(observed(rt.alloc(), "music_daemon scan --help"), SCAN_HELP)?;
    wants(observed(rt.alloc(), "music_daemon script -h"), SCRIPT_HELP)
}

//! The program: what its words ask for, done with standard input, standard output and the files of the
//! system.
#![tactic(auto)]

use command_line::{LineFault, Program, VERSION, command_line};
use counted_devices::Counting;
use daemon_script::{ScriptFault, run_script};
use library_scan::{ScanFault, SystemDisk, scan};
use scan_report::{Progress, report_of};
use serving::{Launch, Purpose, serve_by_file};
use settings::OneLine;
use song_db::Rate;
use std::io::{ErrorKind, IsTerminal, Write};
use std::process::ExitCode;
use std::{env, io};

/// Status 0 on success, 1 after one line on standard error, 2 for a command line that is refused.
fn main(rt: HostRuntime) -> io::Result<ExitCode> {
    let words = match words_of(&rt) {
        Ok(words) => words,
        Err(error) if error.kind() == ErrorKind::OutOfMemory => return fail(&rt, "out of memory"),
        Err(_) => return refuse_bytes(&rt),
    };
    match command_line(rt.alloc(), &words) {
        Ok(Program::Serve(file, is_check)) => match serve_by_file(
            rt,
            rt,
            file,
            launch_for(is_check),
        ) {
            Ok(()) => Ok(ExitCode::SUCCESS),
            Err(fault) => {
                eprintln!(rt; "music_daemon: {fault}")?;
                Ok(ExitCode::FAILURE)
            }
        },
        Ok(Program::Scan(rate, folder, everyday)) => print_scan(&rt, folder, &rate, everyday),
        Ok(Program::Script) => run_input(&rt),
        Err(fault) => refuse(&rt, &fault),
    }
}

/// How the daemon is started.
fn launch_for(is_check: bool) -> Launch {
    Launch {
        version: VERSION,
        purpose: if is_check {
            Purpose::Check
        } else {
            Purpose::Serve
        },
    }
}

/// The words of the command line, the program's name first.
fn words_of(rt: &HostRuntime) -> io::Result<Vec<String>> {
    Ok(env::args(rt)?.collect(rt.alloc())?)
}

/// Refuses a command line with a word that is no text, in clap's words.
fn refuse_bytes(rt: &HostRuntime) -> io::Result<ExitCode> {
    eprintln!(rt;
        "error: invalid UTF-8 was detected in one or more arguments\n\nUsage: music_daemon <COMMAND>\n\nFor more information, try '--help'."
    )?;
    Ok(ExitCode::from(2))
}

/// Prints help, the version, or why the words are refused.
fn refuse(rt: &HostRuntime, fault: &LineFault) -> io::Result<ExitCode> {
    match fault {
        LineFault::Refused(error) => error.print(rt)?,
        LineFault::NoMemory => eprintln!(rt; "music_daemon: out of memory")?,
    }
    Ok(ExitCode::from(fault.status()))
}

/// Runs standard input as a script.
fn run_input(rt: &HostRuntime) -> io::Result<ExitCode> {
    let mut reader = Counting::new(rt.stdin());
    let mut writer = Counting::new(rt.stdout());
    match run_script(rt.alloc(), &mut reader, &mut writer) {
        Ok(()) => Ok(ExitCode::SUCCESS),
        Err(ScriptFault::ReadFault) => fail(rt, "read fault"),
        Err(ScriptFault::WriteFault) => fail(rt, "write fault"),
        Err(ScriptFault::NoMemory) => fail(rt, "out of memory"),
    }
}

/// Prints the songs of a folder, and on standard error why other files are not songs.
fn print_scan(rt: &HostRuntime, folder: &str, rate: &Rate, everyday: bool) -> io::Result<ExitCode> {
    let mut progress = Progress::new(rt, rt.stderr().is_terminal());
    let mut disk = SystemDisk::new(rt, folder);
    let found = scan(rt.alloc(), &mut disk, rate, everyday, &mut progress);
    progress.end();
    let scanned = match found {
        Ok(scanned) => scanned,
        Err(ScanFault::NoFolder) => {
            eprintln!(rt; "music_daemon: cannot read folder {}", OneLine(folder))?;
            return Ok(ExitCode::FAILURE);
        }
        Err(ScanFault::TooMany) => return fail(rt, "too many songs"),
        Err(ScanFault::NoMemory) => return fail(rt, "out of memory"),
    };
    let Ok(report) = report_of(rt.alloc(), &scanned, rate) else {
        return fail(rt, "out of memory");
    };
    if rt.stdout().write_all(report.songs.bytes()).is_err() {
        return fail(rt, "write fault");
    }
    if rt.stderr().write_all(report.refused.bytes()).is_err() {
        return fail(rt, "write fault");
    }
    Ok(ExitCode::SUCCESS)
}

fn fail(rt: &HostRuntime, fault: &str) -> io::Result<ExitCode> {
    eprintln!(rt; "music_daemon: {fault}")?;
    Ok(ExitCode::FAILURE)
}

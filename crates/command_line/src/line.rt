//! Words as a program.
ghost use Rattle.std.specs.Prelude.{◌≡◌, [], IfErr, IfOk, IfSome, codes, map, string_bytes};
ghost use Rattle.clap.specs.Words.{HasKind, Kinds, Text, found_of, rows_of, subcommand_rows_of};
ghost use Rattle.command_line.specs.Programs.{Asks, IsRefusedBy, Says, refusals_of};
ghost use Rattle.command_line.specs.Known.{HasProgram, HasScan, HasServe};

use crate::arguments::daemon;
use crate::program::{LineFault, Program};
use clap::error::ErrorKind;
use clap::{ArgMatches, Error};
use song_db::Rate;
use std::alloc::Global;

/// The program that the words ask for, of which the first is the program's name.
pub fn command_line<'a>(alloc: Global, words: &'a [String]) -> Result<Program<'a>, LineFault>
    // Words are refused where clap's definition for simple commands refuses them, by its kind, and only
    // there.
    ensures taken { IfOk result (λ program. refusals_of (map string_bytes words.now) ≡ []) }
    ensures refused { IfErr result (λ fault. IsRefusedBy (refusals_of (map string_bytes words.now)) fault) }
    // The program and its values are what that definition reads in the words.
    ensures asks { IfOk result (λ program. Asks (map string_bytes words.now) program) }
{
    let Ok(command) = daemon(alloc) else {
        return Err(LineFault::NoMemory);
    };
    match command.try_get_matches_from(words) {
        Ok(matches) => Ok(program_in(&matches)),
        Err(error) => Err(fault_by(error)),
    }
}

/// The program that words ask for which were taken.
fn program_in<'a>(matches: &ArgMatches<'a>) -> Program<'a>
    requires { HasProgram (subcommand_rows_of matches.now) }
    ensures { IfSome (subcommand_rows_of matches.now) (λ p. Says p result) }
{
    let Some((name, inner)) = matches.subcommand() else {
        unreachable!()
    };
    if name == "serve" {
        serve_in(inner)
    } else if name == "scan" {
        scan_in(inner)
    } else {
        Program::Script
    }
}

/// The daemon that words ask for which were taken.
fn serve_in<'a>(matches: &ArgMatches<'a>) -> Program<'a>
    requires { HasServe (rows_of (found_of matches.now)) }
    ensures { (name : Text) → name ≡ codes "serve" → Says (name, rows_of (found_of matches.now)) result }
{
    let Some(file) = matches.get_str("config") else {
        unreachable!()
    };
    Program::Serve(file, matches.get_flag("check"))
}

/// The scan that words ask for which were taken.
fn scan_in<'a>(matches: &ArgMatches<'a>) -> Program<'a>
    requires { HasScan (rows_of (found_of matches.now)) }
    ensures { (name : Text) → name ≡ codes "scan" → Says (name, rows_of (found_of matches.now)) result }
{
    let Some(frames) = matches.get_one::<u32>("rate") else {
        unreachable!()
    };
    let Some(rate) = Rate::new(frames) else {
        unreachable!()
    };
    let Some(folder) = matches.get_str("folder") else {
        unreachable!()
    };
    Program::Scan(rate, folder, matches.get_flag("everyday"))
}

/// Why clap refused the words.
fn fault_by(error: Error) -> LineFault
    ensures { (kinds : Kinds) → HasKind kinds error → IsRefusedBy kinds result }
{
    match error.kind() {
        ErrorKind::OutOfMemory => LineFault::NoMemory,
        _ => LineFault::Refused(error),
    }
}

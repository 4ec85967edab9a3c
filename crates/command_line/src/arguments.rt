//! The commands and their arguments.
ghost use Rattle.std.specs.Prelude.{◌≡◌, false, IfOk};
ghost use Rattle.clap.specs.Words.{app_of, rule_of};
ghost use Rattle.clap.specs.declared.builder.command.Command.TheViews.{out-Command as fields_of};
ghost use Rattle.command_line.specs.Arguments as arguments;

use clap::{Arg, ArgAction, Command};
use std::alloc::{AllocError, Global};

/// The version of the program. The package, the launcher and the manual's head have it from this line.
pub const VERSION: &str = "0.9.0";

/// The whole command line.
pub(crate) fn daemon<'a>(alloc: Global) -> Result<Command<'a>, AllocError>
    ensures { IfOk result (λ command. app_of command ≡ arguments.daemon) }
{
    let serve = serve(alloc)?;
    let scan = scan(alloc)?;
    let script = script(alloc);
    bare(alloc)
        .subcommand(serve)?
        .subcommand(scan)?
        .subcommand(script)
}

fn bare<'a>(alloc: Global) -> Command<'a>
    ensures { app_of result ≡ arguments.bare }
{
    Command::new(alloc, "music_daemon")
        .about("A Music Player Daemon for PCM libraries")
        .version(VERSION)
        .subcommand_required(true)
}

fn serve<'a>(alloc: Global) -> Result<Command<'a>, AllocError>
    ensures shape { IfOk result (λ command. app_of command ≡ arguments.serve) }
    ensures local { IfOk result (λ command. (fields_of command).has_globals ≡ false) }
{
    Command::new(alloc, "serve")
        .about("Serves clients and plays to outputs, as a file of settings says")
        .arg(config(alloc))?
        .arg(check(alloc))
}

fn scan<'a>(alloc: Global) -> Result<Command<'a>, AllocError>
    ensures shape { IfOk result (λ command. app_of command ≡ arguments.scan) }
    ensures local { IfOk result (λ command. (fields_of command).has_globals ≡ false) }
{
    Command::new(alloc, "scan")
        .about("Prints the songs of a folder, and on standard error why other files are not songs")
        .arg(rate(alloc))?
        .arg(everyday(alloc))?
        .arg(folder(alloc))
}

fn script<'a>(alloc: Global) -> Command<'a>
    ensures shape { app_of result ≡ arguments.script }
    ensures local { (fields_of result).has_globals ≡ false }
{
    Command::new(alloc, "script").about("Runs standard input as a script")
}

fn config<'a>(alloc: Global) -> Arg<'a>
    ensures rule { rule_of result ≡ arguments.config }
    ensures local { result.global ≡ false }
{
    Arg::new(alloc, "config")
        .long("config")
        .value_name("FILE")
        .help("The file of settings")
        .required(true)
        .action(ArgAction::Set)
}

fn check<'a>(alloc: Global) -> Arg<'a>
    ensures rule { rule_of result ≡ arguments.check }
    ensures local { result.global ≡ false }
{
    Arg::new(alloc, "check")
        .long("check")
        .help("Says what the settings name, and ends")
        .action(ArgAction::SetTrue)
}

fn rate<'a>(alloc: Global) -> Arg<'a>
    ensures rule { rule_of result ≡ arguments.rate }
    ensures local { result.global ≡ false }
{
    Arg::new(alloc, "rate")
        .long("rate")
        .value_name("N")
        .help("Frames a second that a file must have, 8000 to 192000")
        .action(ArgAction::Set)
        .default_value("44100")
        .value_parser(clap::value_parser!(u32).range(8000..=192000))
}

fn everyday<'a>(alloc: Global) -> Arg<'a>
    ensures rule { rule_of result ≡ arguments.everyday }
    ensures local { result.global ≡ false }
{
    Arg::new(alloc, "everyday")
        .long("everyday")
        .help("Also read the tags of the everyday profile, from ID3 too")
        .action(ArgAction::SetTrue)
}

fn folder<'a>(alloc: Global) -> Arg<'a>
    ensures rule { rule_of result ≡ arguments.folder }
    ensures local { result.global ≡ false }
{
    Arg::new(alloc, "folder")
        .value_name("DIR")
        .help("The folder to scan")
        .required(true)
        .action(ArgAction::Set)
}

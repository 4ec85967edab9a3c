//! The commands of the connection, which need nothing of the player (MPD protocol reference, Connection
//! settings; Reflection; Mounts and neighbors).
ghost use Rattle.std.specs.Prelude.{◌≡◌, ◌++◌, IfOk, OnOk};
ghost use Rattle.player_state.specs.Fits.{Fits};
ghost use Rattle.player_state.specs.declared.state.Part.{Part};
ghost use Rattle.transitions.specs.Answers.{Responds, stays};
ghost use Rattle.transitions.specs.Transitions.{IsDecidedBy};
ghost use Rattle.status_commands.specs.Connection.{command_line, command_lines, command_lines_among, commands as commands_lem, decoder_lines, decoders as decoders_lem, mount_lines, mounts as mounts_lem, not_commands as not_commands_lem, ping as ping_lem, result_of, tag_types as tag_types_lem, type_lines, url_handlers as url_handlers_lem, wave_lines};

use known_tags::{TagSet, push_tagtypes};
use mpd_command::{CommandSet, ConnectionCommand, is_forbidden, is_there, names};
use mpd_text::Answer;
use std::alloc::{AllocError, Global};
use transitions::{Asked, Response, Transition, disconnects, shows, succeeds};

/// The rows: what each command asks of the player. By those that choose tags a client changes itself, so here
/// they make nothing of the player.
#[rattlefmt::skip]
#[tactic(auto, unfolding(crate::specs::Connection::result_of))]
pub fn run(alloc: Global, asked: Asked, command: &ConnectionCommand) -> Result<Transition, AllocError>
    ensures transition { IsDecidedBy result (result_of asked command.now) }
    ensures fits { IfOk result (λ transition. (part : Part) → Fits part transition.effect) }
{
    match command {
        ConnectionCommand::AllTags => Ok(Transition::only(disconnects(alloc))),
        ConnectionCommand::Close => Ok(Transition::closes_client(alloc, asked)),
        ConnectionCommand::Commands(set) => Ok(Transition::only(commands(alloc, asked, *set)?)),
        ConnectionCommand::Decoders => Ok(Transition::only(decoders(alloc, asked)?)),
        ConnectionCommand::Kill => Ok(Transition::ends_daemon(alloc, asked)),
        ConnectionCommand::ListMounts => Ok(Transition::only(mounts(alloc, asked)?)),
        ConnectionCommand::NoTags => Ok(Transition::only(disconnects(alloc))),
        ConnectionCommand::NotCommands(set) => Ok(Transition::only(not_commands(alloc, asked, *set)?)),
        ConnectionCommand::Ping => Ok(Transition::only(ping(alloc, asked)?)),
        ConnectionCommand::TagTypes(everyday) => Ok(Transition::only(tag_types(alloc, asked, *everyday)?)),
        ConnectionCommand::UrlHandlers => Ok(Transition::only(url_handlers(alloc, asked)?)),
        ConnectionCommand::WithTags(_) => Ok(Transition::only(disconnects(alloc))),
        ConnectionCommand::WithoutTags(_) => Ok(Transition::only(disconnects(alloc))),
    }
}

fn ping(alloc: Global, asked: Asked) -> Result<Response, AllocError>
    ensures { Responds result (stays (ping_lem asked)) }
{
    succeeds(alloc, asked)
}

/// The tags that the client is shown: those that it chose, or the six of the base profile, where it cannot
/// choose.
fn tag_types(alloc: Global, asked: Asked, everyday: bool) -> Result<Response, AllocError>
    ensures { Responds result (stays (tag_types_lem asked everyday)) }
{
    let tags = if everyday { asked.tags } else { TagSet::base() };
    let mut answer = Answer::new(alloc);
    push_tagtypes(&mut answer, tags)?;
    shows(asked, answer)
}

fn decoders(alloc: Global, asked: Asked) -> Result<Response, AllocError>
    ensures { Responds result (stays (decoders_lem asked)) }
{
    let mut answer = Answer::new(alloc);
    push_decoders(&mut answer)?;
    shows(asked, answer)
}

fn push_decoders(answer: &mut Answer) -> Result<(), AllocError>
    ensures { OnOk result (answer.new ≡ answer.old ++ decoder_lines) }
{
    push_decoder(answer)?;
    push_types(answer)
}

#[tactic(auto, unfolding(crate::specs::Connection::wave_lines))]
fn push_decoder(answer: &mut Answer) -> Result<(), AllocError>
    ensures { OnOk result (answer.new ≡ answer.old ++ wave_lines) }
{
    answer.pair("plugin", "wave")?;
    answer.pair("suffix", "wav")
}

#[tactic(auto, unfolding(crate::specs::Connection::type_lines))]
fn push_types(answer: &mut Answer) -> Result<(), AllocError>
    ensures { OnOk result (answer.new ≡ answer.old ++ type_lines) }
{
    answer.pair("mime_type", "audio/wav")?;
    answer.pair("mime_type", "audio/x-wav")
}

fn mounts(alloc: Global, asked: Asked) -> Result<Response, AllocError>
    ensures { Responds result (stays (mounts_lem asked)) }
{
    let mut answer = Answer::new(alloc);
    push_mounts(&mut answer)?;
    shows(asked, answer)
}

#[tactic(auto, unfolding(crate::specs::Connection::mount_lines))]
fn push_mounts(answer: &mut Answer) -> Result<(), AllocError>
    ensures { OnOk result (answer.new ≡ answer.old ++ mount_lines) }
{
    answer.pair("mount", "")
}

fn url_handlers(alloc: Global, asked: Asked) -> Result<Response, AllocError>
    ensures { Responds result (stays (url_handlers_lem asked)) }
{
    succeeds(alloc, asked)
}

/// The commands that may be run.
fn commands(alloc: Global, asked: Asked, set: CommandSet) -> Result<Response, AllocError>
    ensures { Responds result (stays (commands_lem asked set)) }
{
    let mut answer = Answer::new(alloc);
    push_all_commands(&mut answer, set, false)?;
    shows(asked, answer)
}

/// The commands that may not be run.
fn not_commands(alloc: Global, asked: Asked, set: CommandSet) -> Result<Response, AllocError>
    ensures { Responds result (stays (not_commands_lem asked set)) }
{
    let mut answer = Answer::new(alloc);
    push_all_commands(&mut answer, set, true)?;
    shows(asked, answer)
}

/// Shows the commands that are forbidden, or those that are not, of those that there are.
fn push_all_commands(
    answer: &mut Answer,
    set: CommandSet,
    forbidden: bool,
) -> Result<(), AllocError>
    ensures { OnOk result (answer.new ≡ answer.old ++ command_lines set forbidden) }
{
    push_commands(answer, names(), set, forbidden)
}

/// Shows those of some commands that are there, and are forbidden, or are not.
fn push_commands(
    answer: &mut Answer,
    names: &[&'static str],
    set: CommandSet,
    forbidden: bool,
) -> Result<(), AllocError>
    ensures { OnOk result (answer.new ≡ answer.old ++ command_lines_among set forbidden names.now) }
{
    for name in names {
        push_command(answer, *name, set, forbidden)?;
    }
    Ok(())
}

fn push_command(
    answer: &mut Answer,
    name: &str,
    set: CommandSet,
    forbidden: bool,
) -> Result<(), AllocError>
    ensures { OnOk result (answer.new ≡ answer.old ++ command_line set forbidden name.now) }
{
    if is_there(name, set) && is_forbidden(name, set) == forbidden {
        answer.pair("command", name)?;
    }
    Ok(())
}

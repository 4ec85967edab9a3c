//! The commands that look at outputs and turn them on and off (MPD protocol reference, Audio output devices).
ghost use Rattle.std.specs.Prelude.{◌≡◌, ◌++◌, IfOk, OnOk};
ghost use Rattle.std.specs.List.{enumerate_from, flat_map};
ghost use Rattle.status_commands.specs.Outputs.{no_such_output as no_such_output_lem, enabled_line, lines_if_here, output_lines, output_name_lines, outputs as outputs_lem, plugin_line, result_of, switch_output as switch_output_lem, toggle_output as toggle_output_lem};
ghost use Rattle.player_state.specs.Fits.{Fits};
ghost use Rattle.transitions.specs.Transitions.{IsDecidedBy};

use crate::status::digit;
use mpd_command::OutputCommand;
use mpd_text::{Answer, ErrorNumber};
use player_state::{CommandEffect, Outputs, Part};
use std::alloc::{AllocError, Global};
use transitions::{Asked, Transition};

/// The rows: what each command asks of the player.
#[rattlefmt::skip]
#[tactic(auto, unfolding(crate::specs::Outputs::result_of))]
pub fn run(alloc: Global, asked: Asked, part: &Part, command: &OutputCommand) -> Result<Transition, AllocError>
    ensures transition { IsDecidedBy result (result_of asked part.now command.now) }
    ensures fits { IfOk result (λ transition. Fits part.now transition.effect) }
{
    match command {
        OutputCommand::DisableOutput(output) => switch_output(alloc, asked, part, *output as usize, false),
        OutputCommand::EnableOutput(output) => switch_output(alloc, asked, part, *output as usize, true),
        OutputCommand::Outputs => outputs(alloc, asked, part),
        OutputCommand::ToggleOutput(output) => toggle_output(alloc, asked, part, *output as usize),
    }
}

fn outputs(alloc: Global, asked: Asked, part: &Part) -> Result<Transition, AllocError>
    ensures { IsDecidedBy result (outputs_lem asked part.now) }
{
    Transition::shows(asked, lines_of(alloc, &part.outputs)?)
}

fn lines_of(alloc: Global, outputs: &Outputs) -> Result<Answer, AllocError>
    ensures { IfOk result (λ lines. lines ≡ flat_map (lines_if_here outputs.now) (enumerate_from 0 outputs.now.names)) }
{
    let mut lines = Answer::new(alloc);
    let mut number = 0;
    for name in outputs.names() {
        push_if_here(&mut lines, outputs, number, name.as_str())?;
        number += 1;
    }
    Ok(lines)
}

/// Shows an output, if it is in the partition.
fn push_if_here(
    lines: &mut Answer,
    outputs: &Outputs,
    number: usize,
    name: &str,
) -> Result<(), AllocError>
    ensures { OnOk result (lines.new ≡ lines.old ++ lines_if_here outputs.now (number, name.now)) }
{
    if !outputs.is_output(number) {
        return Ok(());
    }
    push_output(lines, outputs, number, name)
}

fn push_output(
    lines: &mut Answer,
    outputs: &Outputs,
    number: usize,
    name: &str,
) -> Result<(), AllocError>
    ensures { OnOk result (lines.new ≡ lines.old ++ output_lines outputs.now (number, name.now)) }
{
    push_name(lines, number, name)?;
    push_plugin(lines)?;
    push_enabled(lines, digit(outputs.is_enabled(number)))
}

#[tactic(auto, unfolding(crate::specs::Outputs::output_name_lines))]
fn push_name(lines: &mut Answer, number: usize, name: &str) -> Result<(), AllocError>
    ensures { OnOk result (lines.new ≡ lines.old ++ output_name_lines number name.now) }
{
    lines.pair("outputid", number)?;
    lines.pair("outputname", name)
}

#[tactic(auto, unfolding(crate::specs::Outputs::plugin_line))]
fn push_plugin(lines: &mut Answer) -> Result<(), AllocError>
    ensures { OnOk result (lines.new ≡ lines.old ++ plugin_line) }
{
    lines.pair("plugin", "raw")
}

#[tactic(auto, unfolding(crate::specs::Outputs::enabled_line))]
fn push_enabled(lines: &mut Answer, on: u8) -> Result<(), AllocError>
    ensures { OnOk result (lines.new ≡ lines.old ++ enabled_line on) }
{
    lines.pair("outputenabled", on)
}

fn no_such_output(alloc: Global, asked: Asked) -> Result<Transition, AllocError>
    ensures { IsDecidedBy result (no_such_output_lem asked) }
{
    Transition::refuses(alloc, asked, ErrorNumber::NoExist, "no such output")
}

/// An output is turned on, unless it has failed, or off.
fn switch_output(
    alloc: Global,
    asked: Asked,
    part: &Part,
    output: usize,
    on: bool,
) -> Result<Transition, AllocError>
    ensures { IsDecidedBy result (switch_output_lem asked part.now output on) }
{
    if !part.outputs.is_output(output) {
        return no_such_output(alloc, asked);
    }
    if on && part.outputs.has_failed(output) {
        return Transition::refuses(alloc, asked, ErrorNumber::System, "output has failed");
    }
    Transition::does(alloc, asked, CommandEffect::Switches(output, on))
}

fn toggle_output(
    alloc: Global,
    asked: Asked,
    part: &Part,
    output: usize,
) -> Result<Transition, AllocError>
    ensures { IsDecidedBy result (toggle_output_lem asked part.now output) }
{
    let on = !part.outputs.is_enabled(output);
    switch_output(alloc, asked, part, output, on)
}

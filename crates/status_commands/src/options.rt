//! The commands that set the player (MPD protocol reference, Playback options).
ghost use Rattle.std.specs.Prelude.{◌≡◌, IfOk, min};
ghost use Rattle.status_commands.specs.Options.{change_volume as change_volume_lem, changed as changed_lem, consume as consume_lem, consume_of as consume_of_lem, crossfade as crossfade_lem, get_volume as get_volume_lem, random as random_lem, repeat as repeat_lem, replay_gain as replay_gain_lem, result_of, set_replay_gain as set_replay_gain_lem, set_volume as set_volume_lem, single as single_lem, single_of as single_of_lem};
ghost use Rattle.player_state.specs.Fits.{Fits};
ghost use Rattle.transitions.specs.Transitions.{IsDecidedBy};

use command_arguments::{FadeSeconds, ReplayGain, SongMode, Volume, VolumeChange};
use mpd_command::OptionCommand;
use mpd_text::Answer;
use play_order::{Consume, Single};
use player_state::{CommandEffect, Part};
use std::alloc::{AllocError, Global};
use transitions::{Asked, Transition};

/// The rows: what each command asks of the player.
#[rattlefmt::skip]
#[tactic(auto, unfolding(crate::specs::Options::result_of))]
pub fn run(alloc: Global, asked: Asked, part: &Part, command: &OptionCommand) -> Result<Transition, AllocError>
    ensures transition { IsDecidedBy result (result_of asked part.now command.now) }
    ensures fits { IfOk result (λ transition. Fits part.now transition.effect) }
{
    match command {
        OptionCommand::ChangeVolume(change) => change_volume(alloc, asked, part, change),
        OptionCommand::Consume(mode) => consume(alloc, asked, *mode),
        OptionCommand::Crossfade(seconds) => crossfade(alloc, asked, seconds),
        OptionCommand::GetVol => get_volume(alloc, asked, part),
        OptionCommand::Random(on) => random(alloc, asked, *on),
        OptionCommand::Repeat(on) => repeat(alloc, asked, *on),
        OptionCommand::ReplayGainStatus => replay_gain(alloc, asked),
        OptionCommand::SetReplayGain(gain) => set_replay_gain(alloc, asked, *gain),
        OptionCommand::SetVol(volume) => set_volume(alloc, asked, volume),
        OptionCommand::Single(mode) => single(alloc, asked, *mode),
    }
}

fn repeat(alloc: Global, asked: Asked, on: bool) -> Result<Transition, AllocError>
    ensures { IsDecidedBy result (repeat_lem asked on) }
{
    Transition::does(alloc, asked, CommandEffect::SetsRepeat(on))
}

fn random(alloc: Global, asked: Asked, on: bool) -> Result<Transition, AllocError>
    ensures { IsDecidedBy result (random_lem asked on) }
{
    Transition::does(alloc, asked, CommandEffect::SetsRandom(on))
}

fn single(alloc: Global, asked: Asked, mode: SongMode) -> Result<Transition, AllocError>
    ensures { IsDecidedBy result (single_lem asked mode) }
{
    Transition::does(alloc, asked, CommandEffect::SetsSingle(single_of(mode)))
}

fn single_of(mode: SongMode) -> Single
    ensures { result ≡ single_of_lem mode }
{
    match mode {
        SongMode::Off => Single::Off,
        SongMode::On => Single::On,
        SongMode::Oneshot => Single::Oneshot,
    }
}

fn consume(alloc: Global, asked: Asked, mode: SongMode) -> Result<Transition, AllocError>
    ensures { IsDecidedBy result (consume_lem asked mode) }
{
    Transition::does(alloc, asked, CommandEffect::SetsConsume(consume_of(mode)))
}

fn consume_of(mode: SongMode) -> Consume
    ensures { result ≡ consume_of_lem mode }
{
    match mode {
        SongMode::Off => Consume::Off,
        SongMode::On => Consume::On,
        SongMode::Oneshot => Consume::Oneshot,
    }
}

fn crossfade(alloc: Global, asked: Asked, seconds: &FadeSeconds) -> Result<Transition, AllocError>
    ensures { IsDecidedBy result (crossfade_lem asked seconds.now) }
{
    Transition::does(
        alloc,
        asked,
        CommandEffect::SetsCrossfade(seconds.seconds()),
    )
}

fn set_volume(alloc: Global, asked: Asked, volume: &Volume) -> Result<Transition, AllocError>
    ensures { IsDecidedBy result (set_volume_lem asked volume.now) }
{
    Transition::does(alloc, asked, CommandEffect::SetsVolume(volume.copied()))
}

fn get_volume(alloc: Global, asked: Asked, part: &Part) -> Result<Transition, AllocError>
    ensures { IsDecidedBy result (get_volume_lem asked part.now) }
{
    let mut answer = Answer::new(alloc);
    answer.pair("volume", part.volume.percent())?;
    Transition::shows(asked, answer)
}

fn change_volume(
    alloc: Global,
    asked: Asked,
    part: &Part,
    change: &VolumeChange,
) -> Result<Transition, AllocError>
    ensures { IsDecidedBy result (change_volume_lem asked part.now change.now) }
{
    Transition::does(
        alloc,
        asked,
        CommandEffect::SetsVolume(changed(&part.volume, change)),
    )
}

/// The volume, so much more or less, and no more than can be.
fn changed(volume: &Volume, change: &VolumeChange) -> Volume
    ensures { result ≡ changed_lem volume.now change.now }
{
    match change {
        VolumeChange::Up(amount) => up_to_full(volume.percent() + amount.percent()),
        VolumeChange::Down(amount) => up_to_full(volume.percent().saturating_sub(amount.percent())),
    }
}

/// The volume of a number, and as loud as can be above 100.
fn up_to_full(percent: u8) -> Volume
    ensures { result ≡ min 100 percent }
{
    match Volume::new(u32::from(percent)) {
        Some(volume) => volume,
        None => Volume::full(),
    }
}

/// Songs are played as loud as they are, before and after.
fn set_replay_gain(alloc: Global, asked: Asked, gain: ReplayGain) -> Result<Transition, AllocError>
    ensures { IsDecidedBy result (set_replay_gain_lem asked gain) }
{
    match gain {
        ReplayGain::Off => Transition::does(alloc, asked, CommandEffect::Rests),
    }
}

fn replay_gain(alloc: Global, asked: Asked) -> Result<Transition, AllocError>
    ensures { IsDecidedBy result (replay_gain_lem asked) }
{
    let mut answer = Answer::new(alloc);
    answer.pair("replay_gain_mode", "off")?;
    Transition::shows(asked, answer)
}

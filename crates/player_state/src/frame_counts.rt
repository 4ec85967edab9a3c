//! The frames that outputs were given, wrote and discarded.
ghost use Rattle.player_state.specs.declared.effect.Effect.TheVariants.{ByCommand};
ghost use Rattle.player_state.specs.declared.effect.CommandEffect.TheVariants.{Rests};
ghost use Rattle.player_state.specs.declared.report.Report.TheVariants.{Nothing};
ghost use Rattle.std.specs.Prelude.{◌≡◌, ◌==◌, true, ℕ, if◌then◌else◌, is_some, length, map, slice_index_or};
ghost use Rattle.std.specs.List.{range_with_len};
ghost use Rattle.player_state.specs.declared.report.Report.{Report};
ghost use Rattle.player_state.specs.Effects.{had};
ghost use Rattle.player_state.specs.FrameCounts.{IsBooked, IsCounted, books_by_part, given_by_part, given_of};
ghost use Rattle.player_state.specs.Outputs.{can_count_all, books_after as books_after_lem, discarded_by, empty_books, fed_at, grown as grown_lem, total as total_lem, written_by};

use crate::effect::{AudioStep, Effect};
use crate::outputs::Outputs;
use crate::state::Part;
use std::marker::Model;

/// The most frames of all outputs together.
const MAX_FRAMES: u128 = (1 << 63) - 1;

/// A number for each of eight outputs.
type Numbers = [u64; 8];

/// How many frames each of eight outputs was given, wrote and discarded. A clause sees the numbers.
#[derive(Drop)]
pub struct FrameCounts {
    decoded: Numbers,
    written: Numbers,
    discarded: Numbers,
}

impl Model for FrameCounts {
    ghost use Rattle.std.specs.Prelude.{◌≡◌, length, true};
    ghost use Rattle.player_state.specs.Outputs.{FrameBooks, can_count};

    ghost Value = { FrameBooks };

    ghost view = { λ b. record { decoded = b.decoded; written = b.written; discarded = b.discarded } };

    ghost invariant = { λ b. (length b.decoded ≡ 8) × (length b.written ≡ 8) × (length b.discarded ≡ 8)
        × (can_count b.decoded ≡ true) × (can_count b.written ≡ true) × (can_count b.discarded ≡ true) };
}

impl FrameCounts {
    pub fn empty() -> FrameCounts
        ensures { result ≡ empty_books }
    {
        FrameCounts {
            decoded: [0; 8],
            written: [0; 8],
            discarded: [0; 8],
        }
    }

    pub fn copied(&self) -> FrameCounts
        ensures { result ≡ self.now }
    {
        FrameCounts {
            decoded: self.decoded,
            written: self.written,
            discarded: self.discarded,
        }
    }

    /// What is true of all books: their frames are counted together, and an event that feeds none, and by
    /// which no output has its turn, leaves them as they are.
    pub fn rest(&self)
        ensures counted { can_count_all self.now ≡ true }
        ensures same { books_after_lem self.now (ByCommand Rests) Nothing ≡ self.now }
    {
        // To read a field brings what the type keeps of it.
        let _fed = self.decoded[0];
    }

    /// The frames that an output was given. A number of eight and above is none's.
    pub fn decoded(&self, output: usize) -> u64
        ensures { result ≡ slice_index_or self.now.decoded output 0 }
    {
        if output < 8 { self.decoded[output] } else { 0 }
    }

    /// The frames that an output wrote.
    pub fn written(&self, output: usize) -> u64
        ensures { result ≡ slice_index_or self.now.written output 0 }
    {
        if output < 8 { self.written[output] } else { 0 }
    }

    /// The frames that an output discarded.
    pub fn discarded(&self, output: usize) -> u64
        ensures { result ≡ slice_index_or self.now.discarded output 0 }
    {
        if output < 8 {
            self.discarded[output]
        } else {
            0
        }
    }

    /// The books after an event, if the frames of all outputs together can be counted then.
    pub fn after(&self, part: &Part, effect: &Effect) -> Option<FrameCounts>
        ensures { (rate : ℕ) (report : Report) → IsBooked result (books_by_part self.now rate part.now effect.now report) }
    {
        Some(FrameCounts {
            decoded: grown(&self.decoded, &given(part, effect))?,
            written: grown(&self.written, &written(effect))?,
            discarded: grown(&self.discarded, &discarded(effect))?,
        })
    }
}

/// The frames that each of eight outputs is given at an event.
fn given(part: &Part, effect: &Effect) -> Numbers
    ensures { (rate : ℕ) (report : Report) → result ≡ map (given_by_part rate part.now effect.now report) (range_with_len 0 8) }
{
    match effect {
        Effect::ByAudio(AudioStep::Accepts(number, frames)) => given_by_have(
            part, *number, *frames,
        ),
        _ => [0; 8],
    }
}

/// The frames of a have, for each output that its job was given for; none where it is stale.
#[tactic(auto, using(crate::proofs::Given::accepted, crate::proofs::Given::stale))]
fn given_by_have(part: &Part, number: u64, frames: u64) -> Numbers
    ensures { result ≡ given_of part.now.outputs frames (had part.now number frames).feed }
{
    if part.player.would_feed(&part.queue, number, frames) {
        shares(&part.outputs, frames)
    } else {
        [0; 8]
    }
}

/// So many frames for each output that a job's frames are fed to.
fn shares(outputs: &Outputs, frames: u64) -> Numbers
    ensures { result ≡ map (λ number. if is_some (fed_at outputs.now number) then frames else 0) (range_with_len 0 8) }
{
    [
        share(outputs, frames, 0),
        share(outputs, frames, 1),
        share(outputs, frames, 2),
        share(outputs, frames, 3),
        share(outputs, frames, 4),
        share(outputs, frames, 5),
        share(outputs, frames, 6),
        share(outputs, frames, 7),
    ]
}

fn share(outputs: &Outputs, frames: u64, number: usize) -> u64
    ensures { result ≡ (if is_some (fed_at outputs.now number) then frames else 0) }
{
    if outputs.fed_at(number).is_some() {
        frames
    } else {
        0
    }
}

/// The frames that an event tells of, which outputs wrote.
fn written(effect: &Effect) -> Numbers
    ensures { result ≡ map (written_by effect.now) (range_with_len 0 8) }
{
    match effect {
        Effect::ByAudio(
            AudioStep::Settles {
                output,
                written,
                ..
            },
        ) => alone(*output, *written),
        _ => [0; 8],
    }
}

/// The frames that an event tells of, which outputs discarded.
fn discarded(effect: &Effect) -> Numbers
    ensures { result ≡ map (discarded_by effect.now) (range_with_len 0 8) }
{
    match effect {
        Effect::ByAudio(
            AudioStep::Settles {
                output,
                discarded,
                ..
            },
        ) => alone(*output, *discarded),
        _ => [0; 8],
    }
}

/// So many frames of one output.
fn alone(output: usize, frames: u64) -> Numbers
    ensures { result ≡ map (λ number. if number == output then frames else 0) (range_with_len 0 8) }
{
    [
        part_of(output, frames, 0),
        part_of(output, frames, 1),
        part_of(output, frames, 2),
        part_of(output, frames, 3),
        part_of(output, frames, 4),
        part_of(output, frames, 5),
        part_of(output, frames, 6),
        part_of(output, frames, 7),
    ]
}

fn part_of(output: usize, frames: u64, number: usize) -> u64
    ensures { result ≡ (if number == output then frames else 0) }
{
    if number == output { frames } else { 0 }
}

/// Numbers that have grown, if all together can be counted.
fn grown(numbers: &Numbers, more: &Numbers) -> Option<Numbers>
    requires { length numbers.now ≡ 8 }
    ensures { IsCounted result (grown_lem numbers.now (λ number. slice_index_or more.now number 0)) }
{
    if total(numbers) + total(more) > MAX_FRAMES {
        return None;
    }
    Some([
        more[0] + numbers[0],
        more[1] + numbers[1],
        more[2] + numbers[2],
        more[3] + numbers[3],
        more[4] + numbers[4],
        more[5] + numbers[5],
        more[6] + numbers[6],
        more[7] + numbers[7],
    ])
}

fn total(numbers: &Numbers) -> u128
    ensures { result ≡ total_lem numbers.now }
{
    u128::from(numbers[0])
        + u128::from(numbers[1])
        + u128::from(numbers[2])
        + u128::from(numbers[3])
        + u128::from(numbers[4])
        + u128::from(numbers[5])
        + u128::from(numbers[6])
        + u128::from(numbers[7])
}

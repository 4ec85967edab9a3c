//! Whole runs of a script.
ghost use Rattle.std.specs.Prelude.{◌≡◌, ◌≤◌, ◌+◌, ◌^◌, OnOk, OnErr, IfErr};
ghost use Rattle.std.specs.Prelude.{IsSome, Some, []};
ghost use Rattle.std.specs.Io.KnownBytes.{Appends};
ghost use Rattle.mpd_text.specs.Lines.Cut.{split_from};
ghost use Rattle.counted_devices.specs.CallCounts.{HasFailed, NoFewer};
ghost use Rattle.mpd_text.specs.Lines.Split.{views};
ghost use Rattle.daemon_script.specs.Kinds.{images, traces};
ghost use Rattle.daemon_script.specs.Output.{AppendsFront, IsFront, ReadFaultHasCause, ShowsAll};
ghost use Rattle.daemon_script.specs.Output.{ShowsInput, WriteFaultHasCause};
ghost use Rattle.daemon_script.specs.Pieces.{PrintsLines, PrintsPiece};
ghost use Rattle.daemon_script.specs.Script.{opening_script};

use crate::laws::runs_are_traced;
use crate::script::Script;
use counted_devices::{Sink, Source};
use mpd_text::{Line, SplitFault, Splitter, any_cut};
use std::alloc::{AllocError, Global};

/// The most reads of a run.
pub const MAX_READS: u64 = 1 << 32;

/// How many bytes are read at once.
const PIECE: usize = 16_384;

/// Why a run ended early.
#[derive(Clone, Copy, PartialEq, Eq)]
pub enum ScriptFault {
    /// The input failed, or was read [`MAX_READS`] times.
    ReadFault,
    /// The output failed, or took no byte.
    WriteFault,
    /// There was no room to cut the input into lines or to hold what is printed.
    NoMemory,
}

impl From<AllocError> for ScriptFault {
    ghost use Rattle.std.specs.Prelude.{◌≡◌};
    ghost use Rattle.daemon_script.specs.declared.run.ScriptFault.TheVariants.{NoMemory};

    ghost from_gives = { λ _ e. e ≡ NoMemory };

    fn from(_e: AllocError) -> ScriptFault {
        ScriptFault::NoMemory
    }
}

/// Reads a script to its end, or to a line that is too long, and writes what its lines print.
///
/// Client lines that find no memory print their line of number 52 and change nothing, and the run goes on.
/// What is written is told by the trace of the script's player, with every queue that it had and every
/// transition. The law [`runs_are_traced`] says the same of what commands read.
///
/// [`runs_are_traced`]: crate::runs_are_lived
pub fn run_script<R: Source, W: Sink>(
    alloc: Global,
    reader: &mut R,
    writer: &mut W,
) -> Result<(), ScriptFault>
    // What is written is the output for the input, by what its lines found of memory.
    ensures ok { ShowsInput traces R.remaining W.contents reader.old writer.old writer.new result }
    // After a read fault it is the whole output for what was read, and else a front of it.
    ensures read { ShowsAll traces R.remaining W.contents reader.old reader.new writer.old writer.new result }
    ensures front { IsFront traces R.remaining W.contents reader.old reader.new writer.old writer.new result }
    // A fault of a device comes only where it failed, or was read 2 ^ 32 times.
    ensures read_fault { ReadFaultHasCause (R.call_counts reader.old) (R.call_counts reader.new) result }
    ensures few_calls { (R.call_counts reader.new).calls ≤ (R.call_counts reader.old).calls + 2 ^ 32 }
    ensures write_fault { WriteFaultHasCause (W.call_counts writer.old) (W.call_counts writer.new) result }
{
    runs_are_traced();
    let mut splitter = Splitter::new(alloc);
    let mut script = Script::new(alloc);
    run_pieces(alloc, reader, writer, &mut splitter, &mut script)
}

/// Reads a script to its end, piece by piece. What is written is told by what commands read of the player.
fn run_pieces<R: Source, W: Sink>(
    alloc: Global,
    reader: &mut R,
    writer: &mut W,
    splitter: &mut Splitter,
    script: &mut Script,
) -> Result<(), ScriptFault>
    requires splitter { splitter.old ≡ Some [] }
    requires script { script.old ≡ opening_script }
    ensures ok { ShowsInput images R.remaining W.contents reader.old writer.old writer.new result }
    ensures read { ShowsAll images R.remaining W.contents reader.old reader.new writer.old writer.new result }
    ensures front { IsFront images R.remaining W.contents reader.old reader.new writer.old writer.new result }
    ensures read_fault { ReadFaultHasCause (R.call_counts reader.old) (R.call_counts reader.new) result }
    ensures few_calls { (R.call_counts reader.new).calls ≤ (R.call_counts reader.old).calls + 2 ^ 32 }
    ensures write_fault { WriteFaultHasCause (W.call_counts writer.old) (W.call_counts writer.new) result }
{
    any_cut();
    let mut shown = Vec::new(alloc);
    let mut piece = [0u8; PIECE];
    for _ in 0..MAX_READS {
        let count = match reader.read_some(&mut piece) {
            Ok(count) => count,
            Err(_) => return Err(ScriptFault::ReadFault),
        };
        if count == 0 {
            return Ok(());
        }
        shown.clear();
        show_piece(splitter, script, &piece[..count], &mut shown)?;
        write_whole(writer, shown.as_slice())?;
        if splitter.is_closed() {
            return Ok(());
        }
    }
    Err(ScriptFault::ReadFault)
}

/// Runs the lines that a piece of the input ends, and appends what they print.
fn show_piece(
    splitter: &mut Splitter,
    script: &mut Script,
    piece: &[u8],
    shown: &mut Vec<u8>,
) -> Result<(), ScriptFault>
    requires { IsSome splitter.old }
    ensures shows { PrintsPiece splitter.old piece.now script.old script.new shown.old shown.new result }
    ensures next { OnOk result (splitter.new ≡ (split_from splitter.old piece.now).next) }
    ensures fault { IfErr result (λ fault. fault ≡ ScriptFault.NoMemory) }
{
    match splitter.feed(piece) {
        Ok(lines) => Ok(show_lines(script, lines.as_slice(), shown)?),
        Err(SplitFault::LineTooLong(lines)) => {
            show_lines(script, lines.as_slice(), shown)?;
            Ok(shown.extend_from_slice(b"! bad\n")?)
        }
        Err(SplitFault::NoMemory) => Err(ScriptFault::NoMemory),
    }
}

/// Runs lines one after the other, and appends what they print.
fn show_lines(script: &mut Script, lines: &[Line], shown: &mut Vec<u8>) -> Result<(), AllocError>
    ensures { PrintsLines script.old script.new (views lines.now) shown.old shown.new result }
{
    for line in lines {
        script.show(line, shown)?;
    }
    Ok(())
}

/// Writes all of the bytes.
fn write_whole<W: Sink>(writer: &mut W, bytes: &[u8]) -> Result<(), ScriptFault>
    ensures ok { OnOk result (Appends (W.contents writer.old) (W.contents writer.new) bytes.now) }
    ensures err { IfErr result (λ fault. fault ≡ ScriptFault.WriteFault) }
    ensures front { OnErr result (AppendsFront (W.contents writer.old) (W.contents writer.new) bytes.now) }
    ensures failed { OnErr result (HasFailed (W.call_counts writer.old) (W.call_counts writer.new)) }
    ensures calm { NoFewer (W.call_counts writer.old) (W.call_counts writer.new) }
{
    let mut rest = bytes;
    while !rest.is_empty() {
        match writer.write_some(rest) {
            Ok(0) => return Err(ScriptFault::WriteFault),
            Ok(n) => rest = &rest[n..],
            Err(_) => return Err(ScriptFault::WriteFault),
        }
    }
    Ok(())
}

//! What the client that keeps the state asks the player.
ghost use Rattle.std.specs.Prelude.{◌≡◌, ◌∷◌, ◌++◌, [], IfOk, OnOk, codes, string_bytes};
ghost use Rattle.mpd_command.specs.Names.{fewest};
ghost use Rattle.mpd_command.specs.Requests.{request_of};
ghost use Rattle.mpd_text.specs.Lines.Quoted.{quoted_text};
ghost use Rattle.serving.specs.Keeping.{questions, questions_in};

use mpd_command::{CommandSet, Request};
use mpd_text::{Text, quote};
use std::alloc::{AllocError, Global};

/// What is asked: which partitions there are, and then in each of these its state. The client then is in the default one
/// again.
pub(crate) fn questions_of(alloc: Global, names: &[Text]) -> Result<Vec<Request>, AllocError>
    ensures { IfOk result (λ requests. requests.items ≡ questions names.now) }
{
    let mut requests = Vec::new(alloc);
    ask(alloc, &mut requests, "listpartitions")?;
    for name in names {
        ask_in(alloc, &mut requests, name.as_str())?;
    }
    ask(alloc, &mut requests, "partition default")?;
    Ok(requests)
}

/// Asks a partition for its state. The client goes there first.
fn ask_in(alloc: Global, requests: &mut Vec<Request>, name: &str) -> Result<(), AllocError>
    ensures { OnOk result (requests.new.items ≡ requests.old.items ++ questions_in name.now) }
{
    let going = going_to(alloc, name)?;
    ask(alloc, requests, going.as_str())?;
    ask(alloc, requests, "status")?;
    ask(alloc, requests, "outputs")?;
    ask(alloc, requests, "playlistinfo")?;
    Ok(())
}

/// The client goes to a partition.
fn going_to(alloc: Global, name: &str) -> Result<String, AllocError>
    ensures { IfOk result (λ line. string_bytes line ≡ codes "partition " ++ quoted_text name.now) }
{
    let name = quote(alloc, name)?;
    format!(in alloc; "partition {name}")
}

/// Asks for a line's answer.
fn ask(alloc: Global, requests: &mut Vec<Request>, line: &str) -> Result<(), AllocError>
    ensures { OnOk result (requests.new.items ≡ requests.old.items ++ request_of line.now fewest ∷ []) }
{
    requests.push(Request::of_line(alloc, line, CommandSet::base())?)?;
    Ok(())
}

/// Lines by whose answers it is seen whether what is kept of these partitions may have changed: a `status` has the version
/// of the queue.
pub(crate) fn short_questions(alloc: Global, names: &[Text]) -> Result<String, AllocError> {
    let mut lines = String::from_str(alloc, "listpartitions\n")?;
    for name in names {
        let name = quote(alloc, name.as_str())?;
        let asked = format!(in alloc; "partition {name}\nstatus\noutputs\n")?;
        lines.push_str(asked.as_str())?;
    }
    lines.push_str("partition default")?;
    Ok(lines)
}

/// An answer without the positions in songs, which move on without a change.
pub(crate) fn changes_only(alloc: Global, answer: &str) -> Result<String, AllocError> {
    let mut changes = String::new(alloc);
    for line in answer.lines() {
        if !line.starts_with("elapsed: ") {
            changes.push_str(line)?;
            changes.push_str("\n")?;
        }
    }
    Ok(changes)
}

//! What is asked of stickers: the words after `sticker`.
ghost use Rattle.std.specs.Prelude.{string_bytes, map};
ghost use Rattle.mpd_command.specs.Stickers.{rows, sticker_of, other_of, get_of, set_of, delete_of, list_of, find_of, find_any_of, find_compared_of, target_of, operator_of, comparison_of};
ghost use Rattle.command_arguments.specs.Readers.{Gives};
ghost use Rattle.mpd_command.specs.Tables.{found};

use command_arguments::{Form, Misread, Uri, read_word};
use mpd_text::Text;
use std::alloc::{AllocError, Global};

/// What has stickers: a song, or a folder of songs where some are looked for, or a stored playlist, or all of
/// them where some are looked for and the name is empty.
#[derive(Drop)]
pub enum Target {
    Song(Uri),
    Playlist(Text),
}

/// What is asked of stickers (MPD protocol reference, Stickers).
pub enum StickerCommand {
    /// `sticker get song|playlist URI NAME`: the value of the sticker that has a name.
    Get(Target, Text),
    /// `sticker set song|playlist URI NAME VALUE`: gives the sticker that has a name, the second, a value,
    /// the third.
    Set(Target, Text, Text),
    /// `sticker delete song|playlist URI [NAME]`: takes the sticker with a name away, or all of them.
    Delete(Target, Option<Text>),
    /// `sticker list song|playlist URI`: the stickers of a song or a stored playlist.
    List(Target),
    /// `sticker find song|playlist URI NAME [=|<|> VALUE]`: the songs under a folder, or the stored
    /// playlists, that have a sticker with a name, of any value or of one that compares so.
    Find(Target, Text, Option<Comparison>),
}

// Written out, so that a proof goes through one call where it lets one go (docs/DECISIONS.md).
impl Drop for StickerCommand {
    fn drop(self) {
        match self {
            StickerCommand::Get(_, _)
            | StickerCommand::Set(_, _, _)
            | StickerCommand::Delete(_, _)
            | StickerCommand::List(_)
            | StickerCommand::Find(_, _, _) => {}
        }
    }
}

/// What the value of a sticker has to be: equal to this one, less or greater.
#[derive(Drop)]
pub struct Comparison {
    pub operator: Operator,
    pub value: Text,
}

/// How two values compare.
#[derive(Clone, Copy, PartialEq, Eq)]
pub enum Operator {
    Equals,
    Less,
    Greater,
}

/// `=`, `<` or `>`.
impl Form for Operator {
    ghost read_gives = { operator_of };

    fn read(_alloc: Global, word: &str) -> Result<Option<Operator>, AllocError> {
        match word {
            "=" => Ok(Some(Operator::Equals)),
            "<" => Ok(Some(Operator::Less)),
            ">" => Ok(Some(Operator::Greater)),
            _ => Ok(None),
        }
    }
}

/// The row: what the words after `sticker` are read as.
#[tactic(auto, unfolding(crate::specs::Stickers::rows))]
pub(crate) fn read(
    alloc: Global,
    word: &str,
    words: &[String],
) -> Result<Option<StickerCommand>, Misread>
    ensures { Gives result (found rows word.now (map string_bytes words.now)) }
{
    Ok(Some(match word {
        "sticker" => sticker(alloc, words)?,
        _ => return Ok(None),
    }))
}

/// The words after `sticker`. The first says how many there have to be.
fn sticker(alloc: Global, words: &[String]) -> Result<StickerCommand, Misread>
    ensures { Gives result (sticker_of (map string_bytes words.now)) }
{
    let Some((verb, rest)) = words.split_first() else {
        return Err(Misread::WrongNumber);
    };
    match verb.as_str() {
        "get" => get(alloc, rest),
        "set" => set(alloc, rest),
        "delete" => delete(alloc, rest),
        "list" => list(alloc, rest),
        "find" => find(alloc, rest),
        other => unknown(alloc, other, rest),
    }
}

/// A first word that asks for nothing. It is said so where some other first word could stand before the rest.
fn unknown(alloc: Global, verb: &str, rest: &[String]) -> Result<StickerCommand, Misread>
    ensures { Gives result (other_of verb.now (map string_bytes rest.now)) }
{
    if 2 <= rest.len() && rest.len() <= 5 {
        Err(Misread::Bad(Text::new(alloc, verb)?))
    } else {
        Err(Misread::WrongNumber)
    }
}

fn get(alloc: Global, words: &[String]) -> Result<StickerCommand, Misread>
    ensures { Gives result (get_of (map string_bytes words.now)) }
{
    let [kind, uri, name] = words else {
        return Err(Misread::WrongNumber);
    };
    let target = read_target(alloc, kind.as_str(), uri.as_str())?;
    let name = Text::new(alloc, name.as_str())?;
    Ok(StickerCommand::Get(target, name))
}

fn set(alloc: Global, words: &[String]) -> Result<StickerCommand, Misread>
    ensures { Gives result (set_of (map string_bytes words.now)) }
{
    let [kind, uri, name, value] = words else {
        return Err(Misread::WrongNumber);
    };
    let target = read_target(alloc, kind.as_str(), uri.as_str())?;
    let name = Text::new(alloc, name.as_str())?;
    let value = Text::new(alloc, value.as_str())?;
    Ok(StickerCommand::Set(target, name, value))
}

fn delete(alloc: Global, words: &[String]) -> Result<StickerCommand, Misread>
    ensures { Gives result (delete_of (map string_bytes words.now)) }
{
    match words {
        [kind, uri] => {
            let target = read_target(alloc, kind.as_str(), uri.as_str())?;
            Ok(StickerCommand::Delete(target, None))
        }
        [kind, uri, name] => {
            let target = read_target(alloc, kind.as_str(), uri.as_str())?;
            let name = Text::new(alloc, name.as_str())?;
            Ok(StickerCommand::Delete(target, Some(name)))
        }
        _ => Err(Misread::WrongNumber),
    }
}

fn list(alloc: Global, words: &[String]) -> Result<StickerCommand, Misread>
    ensures { Gives result (list_of (map string_bytes words.now)) }
{
    let [kind, uri] = words else {
        return Err(Misread::WrongNumber);
    };
    let target = read_target(alloc, kind.as_str(), uri.as_str())?;
    Ok(StickerCommand::List(target))
}

fn find(alloc: Global, words: &[String]) -> Result<StickerCommand, Misread>
    ensures { Gives result (find_of (map string_bytes words.now)) }
{
    match words {
        [kind, uri, name] => find_any(alloc, kind.as_str(), uri.as_str(), name.as_str()),
        [kind, uri, name, operator, value] => find_compared(
            alloc,
            kind.as_str(),
            uri.as_str(),
            name.as_str(),
            operator.as_str(),
            value.as_str(),
        ),
        _ => Err(Misread::WrongNumber),
    }
}

/// Those that have a sticker of this name.
fn find_any(alloc: Global, kind: &str, uri: &str, name: &str) -> Result<StickerCommand, Misread>
    ensures { Gives result (find_any_of kind.now uri.now name.now) }
{
    Ok(StickerCommand::Find(
        read_target(alloc, kind, uri)?,
        Text::new(alloc, name)?,
        None,
    ))
}

/// Those whose sticker of this name compares so.
fn find_compared(
    alloc: Global,
    kind: &str,
    uri: &str,
    name: &str,
    operator: &str,
    value: &str,
) -> Result<StickerCommand, Misread>
    ensures { Gives result (find_compared_of kind.now uri.now name.now operator.now value.now) }
{
    let target = read_target(alloc, kind, uri)?;
    let name = Text::new(alloc, name)?;
    let comparison = compared(alloc, operator, value)?;
    Ok(StickerCommand::Find(target, name, Some(comparison)))
}

/// The target of a type and a URI.
fn read_target(alloc: Global, kind: &str, uri: &str) -> Result<Target, Misread>
    ensures { Gives result (target_of kind.now uri.now) }
{
    match kind {
        "song" => Ok(Target::Song(read_word(alloc, uri)?)),
        "playlist" => Ok(Target::Playlist(Text::new(alloc, uri)?)),
        other => Err(Misread::Bad(Text::new(alloc, other)?)),
    }
}

/// An operator and a value.
fn compared(alloc: Global, operator: &str, value: &str) -> Result<Comparison, Misread>
    ensures { Gives result (comparison_of operator.now value.now) }
{
    let operator = read_word(alloc, operator)?;
    let value = Text::new(alloc, value)?;
    Ok(Comparison { operator, value })
}

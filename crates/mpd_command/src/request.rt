//! What a line asks for, and the refusals that come before any effect.
ghost use Rattle.std.specs.Prelude.{◌≡◌, ℕ, List, Option, Some, None, Ok, Err, IfOk, string_bytes, map};
ghost use Rattle.mpd_command.specs.Requests.{AnswersAs, IsRefusal, ack_of, answer_of, named_of, unknown, fault_text as fault_text_lem, request_of, request_from, name_in, name_in_set as name_in_set_lem, with_arguments as with_arguments_lem};
ghost use Rattle.command_arguments.specs.declared.readers.Misread.TheVariants.{WrongNumber, Bad};

use crate::command::{Command, read};
use crate::command_set::CommandSet;
use crate::name::{Name, is_forbidden};
use command_arguments::Misread;
use mpd_text::{ErrorNumber, Text, WordsFault, words};
use std::alloc::{AllocError, Global};

/// A refusal as it is sent.
#[derive(Drop)]
pub struct Ack {
    pub number: ErrorNumber,
    /// The command; `None` where the line names none that is known.
    pub command: Option<Name>,
    pub text: Text,
}

/// Why words are no command that may be run.
#[derive(Drop)]
pub enum CommandFault {
    /// The first refusal before any effect.
    Refused(Ack),
    /// A growth was refused.
    NoMemory,
}

impl From<AllocError> for CommandFault {
    ghost use Rattle.std.specs.Prelude.{◌≡◌};
    ghost use Rattle.mpd_command.specs.declared.request.CommandFault.TheVariants.{NoMemory};

    ghost from_gives = { λ _ e. e ≡ NoMemory };

    fn from(_e: AllocError) -> CommandFault {
        CommandFault::NoMemory
    }
}

/// What a line asks for: a command under its name, or the refusal that comes before any effect.
pub enum Request {
    Run(Name, Command),
    Refused(Ack),
}

// Written out, so that a proof goes through one call where it lets one go (docs/DECISIONS.md).
impl Drop for Request {
    fn drop(self) {
        match self {
            Request::Run(_, _) | Request::Refused(_) => {}
        }
    }
}

impl Command {
    /// The command of the words of a line, or its first refusal: no command or an unknown one, one that is
    /// not allowed, a wrong number of arguments, the first argument from the left of a wrong form.
    pub fn of_words(
        alloc: Global,
        words: &[String],
        set: CommandSet,
    ) -> Result<Command, CommandFault>
        ensures { AnswersAs result (answer_of (map string_bytes words.now) set) }
    {
        let (_, command) = named(alloc, words, set)?;
        Ok(command)
    }
}

/// The command of the words of a line, with its name.
fn named(alloc: Global, words: &[String], set: CommandSet) -> Result<(Name, Command), CommandFault>
    ensures { AnswersAs result (named_of (map string_bytes words.now) set) }
{
    let Some((word, arguments)) = words.split_first() else {
        return Err(refused(alloc, ErrorNumber::Unknown, None, "no command given")?);
    };
    let Some(name) = name_in_set(word.as_str(), set) else {
        return Err(unknown_command(alloc, word.as_str())?);
    };
    if is_forbidden(word.as_str(), set) {
        let text = "no permission for \"kill\"";
        return Err(refused(alloc, ErrorNumber::Permission, Some(name), text)?);
    }
    with_arguments(alloc, set, name, word.as_str(), arguments)
}

/// The name that a word is, where there is such a command.
fn name_in_set(word: &str, set: CommandSet) -> Option<Name>
    ensures { result ≡ name_in_set_lem word.now set }
{
    match Name::of_word(word) {
        Some(name) if name.is_there(set) => Some(name),
        _ => None,
    }
}

/// A command, by its name, the word that the name is, and the words after it.
fn with_arguments(
    alloc: Global,
    set: CommandSet,
    name: Name,
    word: &str,
    arguments: &[String],
) -> Result<(Name, Command), CommandFault>
    ensures { AnswersAs result (with_arguments_lem set name word.now (map string_bytes arguments.now)) }
{
    match read(alloc, set, word, arguments) {
        Ok(Some(command)) => Ok((name, command)),
        Ok(None) => Err(unknown_command(alloc, word)?),
        Err(Misread::WrongNumber) => Err(wrong_number(alloc, name)?),
        Err(Misread::Bad(argument)) => Err(bad_argument(alloc, name, argument.as_str())?),
        Err(Misread::NoMemory) => Err(CommandFault::NoMemory),
    }
}

fn unknown_command(alloc: Global, word: &str) -> Result<CommandFault, AllocError>
    ensures { IsRefusal result (unknown word.now) }
{
    let text = format!(in alloc; "unknown command \"{word}\"")?;
    refused(alloc, ErrorNumber::Unknown, None, text.as_str())
}

fn wrong_number(alloc: Global, name: Name) -> Result<CommandFault, AllocError>
    ensures { IsRefusal result (ack_of name WrongNumber) }
{
    let text = format!(in alloc; "wrong number of arguments for \"{}\"", name.text())?;
    refused(alloc, ErrorNumber::Argument, Some(name), text.as_str())
}

fn bad_argument(alloc: Global, name: Name, argument: &str) -> Result<CommandFault, AllocError>
    ensures { IsRefusal result (ack_of name (Bad argument.now)) }
{
    let text = format!(in alloc; "bad argument \"{argument}\"")?;
    refused(alloc, ErrorNumber::Argument, Some(name), text.as_str())
}

fn refused(
    alloc: Global,
    number: ErrorNumber,
    command: Option<Name>,
    text: &str,
) -> Result<CommandFault, AllocError>
    ensures { IsRefusal result (record { number = number; command = command; text = text.now }) }
{
    Ok(CommandFault::Refused(Ack {
        number,
        command,
        text: Text::new(alloc, text)?,
    }))
}

impl Request {
    /// What a line without its newline asks for, or its first refusal: words that cannot be read, then those
    /// of [`Command::of_words`].
    #[tactic(auto, unfolding(crate::specs::Requests::request_of))]
    pub fn of_line(alloc: Global, line: &str, set: CommandSet) -> Result<Request, AllocError>
        ensures { IfOk result (λ request. request ≡ request_of line.now set) }
    {
        match words(alloc, line) {
            Ok(words) => Request::of_words(alloc, words.as_slice(), set),
            Err(WordsFault::NoMemory) => Err(AllocError),
            Err(fault) => Ok(Request::Refused(Ack {
                number: ErrorNumber::Argument,
                command: None,
                text: Text::new(alloc, fault_text(fault))?,
            })),
        }
    }

    fn of_words(alloc: Global, words: &[String], set: CommandSet) -> Result<Request, AllocError>
        ensures { IfOk result (λ request. request ≡ request_from (named_of (map string_bytes words.now) set)) }
    {
        match named(alloc, words, set) {
            Ok((name, command)) => Ok(Request::Run(name, command)),
            Err(CommandFault::Refused(ack)) => Ok(Request::Refused(ack)),
            Err(CommandFault::NoMemory) => Err(AllocError),
        }
    }

    /// The name of the command that is asked for; empty where the line names none that is known.
    pub fn name(&self) -> &'static str
        ensures { result.now ≡ name_in self.now }
    {
        match self {
            Request::Run(name, _) => name.text(),
            Request::Refused(ack) => match ack.command {
                Some(name) => name.text(),
                None => "",
            },
        }
    }
}

/// What is said of words that cannot be read.
fn fault_text(fault: WordsFault) -> &'static str
    ensures { result.now ≡ fault_text_lem fault }
{
    match fault {
        WordsFault::BadUnquoted => "bad unquoted argument",
        WordsFault::NoClosingQuote => "missing closing quote",
        WordsFault::NoSpaceAfterQuote => "missing space after quote",
        WordsFault::TooMany => "too many arguments",
        WordsFault::NoMemory => "",
    }
}

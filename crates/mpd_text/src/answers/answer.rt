//! The bytes of an answer (MPD protocol reference, Responses).
ghost use Rattle.std.specs.Prelude.{◌≡◌, ◌++◌, ◌<◌, [], codes, decimal, OnOk, OnErr, IfSome};
ghost use Rattle.std.specs.String.{string_bytes};
ghost use Rattle.mpd_text.specs.Answers.Answer.{pair_line, thousandths_text, ack_line, number_of};

use itoa::Buffer;
use std::alloc::{AllocError, Global};
use std::fmt::Display;
use std::marker::Model;

/// The errors that are sent (MPD protocol reference, Failure responses).
#[derive(Clone, Copy, PartialEq, Eq)]
pub enum ErrorNumber {
    /// A wrong number of arguments, or one of a wrong form: 2.
    Argument,
    /// The command is not allowed: 4.
    Permission,
    /// No such command: 5.
    Unknown,
    /// Something named does not exist: 50.
    NoExist,
    /// A list would become too large: 51.
    PlaylistMax,
    /// The server could not do it, as for lack of memory: 52.
    System,
    /// A scan of the library is running: 54.
    UpdateAlready,
    /// The player is not in a state for it: 55.
    PlayerSync,
    /// Something named exists already: 56.
    Exist,
}

impl ErrorNumber {
    /// The number in an `ACK` line.
    pub fn number(self) -> u8
        ensures { result ≡ number_of self }
    {
        match self {
            ErrorNumber::Argument => 2,
            ErrorNumber::Permission => 4,
            ErrorNumber::Unknown => 5,
            ErrorNumber::NoExist => 50,
            ErrorNumber::PlaylistMax => 51,
            ErrorNumber::System => 52,
            ErrorNumber::UpdateAlready => 54,
            ErrorNumber::PlayerSync => 55,
            ErrorNumber::Exist => 56,
        }
    }
}

/// The lines of an answer in order, each with its newline. A clause sees their bytes. A call that finds no
/// memory returns `AllocError` and leaves the lines as they were.
#[derive(Drop)]
pub struct Answer {
    text: String,
    // A line is made here before it joins the others, so that one which finds no memory leaves no part of
    // itself. The next is made in the same memory.
    line: String,
}

impl Model for Answer {
    ghost use Rattle.std.specs.Prelude.{List, ℕ, string_bytes};

    ghost Value = { List ℕ };

    ghost view = { λ a. string_bytes a.text };
}

impl Answer {
    /// No lines yet. Takes no memory until the first is written.
    pub fn new(alloc: Global) -> Answer
        ensures { result ≡ [] }
    {
        Answer {
            text: String::new(alloc),
            line: String::new(alloc),
        }
    }

    /// The lines that this text is, each with its newline.
    pub fn of(alloc: Global, text: String) -> Answer
        ensures { result ≡ string_bytes text }
    {
        Answer {
            text,
            line: String::new(alloc),
        }
    }

    /// Writes the line `key: value`, the value as it is displayed: a text as it is, a number in decimal.
    pub fn pair<V: Display + Drop>(&mut self, key: &str, value: V) -> Result<(), AllocError>
        ensures ok { OnOk result (IfSome (V.output value) (λ text. self.new ≡ self.old ++ pair_line key.now text)) }
        ensures err { OnErr result (self.new ≡ self.old) }
    {
        self.line.clear();
        write!(self.line, "{key}: {value}\n")?;
        self.text.push_str(self.line.as_str())
    }

    /// Writes the line `key: number`, as [`Answer::pair`] does, in less time.
    pub fn pair_number(&mut self, key: &str, number: u64) -> Result<(), AllocError>
        ensures ok { OnOk result (self.new ≡ self.old ++ pair_line key.now (decimal number)) }
        ensures err { OnErr result (self.new ≡ self.old) }
    {
        self.line.clear();
        self.line.push_str(key)?;
        self.line.push_str(": ")?;
        push_decimal(&mut self.line, number)?;
        self.line.push_str("\n")?;
        self.text.push_str(self.line.as_str())
    }

    /// Writes the line `key: seconds` of a time in thousandths of a second: in seconds with three decimals.
    pub fn pair_seconds(&mut self, key: &str, millis: u64) -> Result<(), AllocError>
        ensures ok { OnOk result (self.new ≡ self.old ++ pair_line key.now (thousandths_text millis)) }
        ensures err { OnErr result (self.new ≡ self.old) }
    {
        self.line.clear();
        self.line.push_str(key)?;
        self.line.push_str(": ")?;
        push_thousandths(&mut self.line, millis)?;
        self.line.push_str("\n")?;
        self.text.push_str(self.line.as_str())
    }

    /// Writes the lines that a text is, each with its newline, in one copy.
    pub fn push_lines(&mut self, lines: &str) -> Result<(), AllocError>
        ensures ok { OnOk result (self.new ≡ self.old ++ lines.now) }
        ensures err { OnErr result (self.new ≡ self.old) }
    {
        self.text.push_str(lines)
    }

    /// Writes the line `OK`, which ends an answer.
    pub fn ok(&mut self) -> Result<(), AllocError>
        ensures ok { OnOk result (self.new ≡ self.old ++ codes "OK\n") }
        ensures err { OnErr result (self.new ≡ self.old) }
    {
        self.text.push_str("OK\n")
    }

    /// Writes the line `list_OK`, which follows each success in a list of commands that asks for it.
    pub fn list_ok(&mut self) -> Result<(), AllocError>
        ensures ok { OnOk result (self.new ≡ self.old ++ codes "list_OK\n") }
        ensures err { OnErr result (self.new ≡ self.old) }
    {
        self.text.push_str("list_OK\n")
    }

    /// Writes the line `ACK [number@place] {command} text` of a failure. The place is that of the command in
    /// its list, from 0; the command is empty where the line names none.
    pub fn ack(
        &mut self,
        number: ErrorNumber,
        place: usize,
        command: &str,
        text: &str,
    ) -> Result<(), AllocError>
        ensures ok { OnOk result (self.new ≡ self.old ++ ack_line (number_of number) place command.now text.now) }
        ensures err { OnErr result (self.new ≡ self.old) }
    {
        let number = number.number();
        self.line.clear();
        write!(self.line, "ACK [{number}@{place}] {{{command}}} {text}\n")?;
        self.text.push_str(self.line.as_str())
    }

    /// The lines so far, each with its newline.
    pub fn bytes(&self) -> &[u8]
        ensures { result.now ≡ self.now }
    {
        self.text.as_bytes()
    }

    /// The lines so far as characters.
    pub fn as_str(&self) -> &str
        ensures { result.now ≡ self.now }
    {
        self.text.as_str()
    }

    /// The lines in the string that they were written to. Takes no memory.
    pub fn into_string(self) -> String
        ensures { string_bytes result ≡ self }
    {
        self.text
    }
}

/// Appends a number in decimal.
fn push_decimal(text: &mut String, number: u64) -> Result<(), AllocError>
    ensures { OnOk result (string_bytes text.new ≡ string_bytes text.old ++ decimal number) }
{
    let mut digits = Buffer::new();
    text.push_str(digits.format(number))
}

/// Appends a number of thousandths in decimal, with three decimals.
fn push_thousandths(text: &mut String, number: u64) -> Result<(), AllocError>
    ensures { OnOk result (string_bytes text.new ≡ string_bytes text.old ++ thousandths_text number) }
{
    push_decimal(text, number / 1000)?;
    text.push_str(".")?;
    push_digit(text, number / 100 % 10)?;
    push_digit(text, number / 10 % 10)?;
    push_digit(text, number % 10)
}

#[tactic(auto, using(std::proofs::lemmas::Fmt::decimal_digit))]
fn push_digit(text: &mut String, digit: u64) -> Result<(), AllocError>
    requires { digit < 10 }
    ensures { OnOk result (string_bytes text.new ≡ string_bytes text.old ++ decimal digit) }
{
    text.push(char::from(b'0' + digit as u8))
}

//! A text in one line.
ghost use Rattle.std.specs.Prelude.{encode_utf8_all};
ghost use Rattle.std.specs.Fmt.{WritesOnOk};
ghost use Rattle.settings.specs.OneLines.{one_line, shown};

use std::fmt;

/// A text as standard error tells it, where each fault is one line: an escape stands for each control
/// character, such as `\n` for a line break. Every other character is told as it is.
#[derive(Clone, Copy)]
pub struct OneLine<'a>(pub &'a str);

impl fmt::Display for OneLine<'_> {
    ghost use Rattle.std.specs.Prelude.{Some};
    ghost use Rattle.settings.specs.OneLines.{one_line};

    ghost output = { λ line. Some (one_line line.0.now) };

    fn fmt<W: fmt::Write>(&self, f: &mut fmt::Formatter<W>) -> fmt::Result {
        write_line(self.0, f)
    }
}

/// Writes a text in one line.
fn write_line<W: fmt::Write>(text: &str, f: &mut fmt::Formatter<W>) -> fmt::Result
    ensures { WritesOnOk W.write_str_gives f.old result (one_line text.now) f.new }
{
    for character in text.chars() {
        write_shown(character, f)?;
    }
    Ok(())
}

/// Writes a character, or the escape that stands for it.
fn write_shown<W: fmt::Write>(character: char, f: &mut fmt::Formatter<W>) -> fmt::Result
    ensures { WritesOnOk W.write_str_gives f.old result (encode_utf8_all (shown character)) f.new }
{
    if !character.is_control() {
        return f.write_char(character);
    }
    let mut escape = character.escape_default();
    'parts: while let Some(part) = escape.next() {
        f.write_char(part)?;
    }
    Ok(())
}

//! Texts cut at a character.
ghost use Rattle.std.specs.Prelude.{◌≡◌, ◌<◌};
ghost use Rattle.script_lines.specs.Cuts.{has_byte, before, after};

/// What is before the first ASCII delimiter, and what is after it; the whole text and nothing where there is
/// none.
pub(crate) fn cut(text: &str, delimiter: char) -> (&str, &str)
    requires { delimiter < 128 }
    ensures front { result.0.now ≡ before delimiter text.now }
    ensures back { result.1.now ≡ after delimiter text.now }
{
    text.split_once(delimiter).unwrap_or((text, ""))
}

/// Whether the ASCII character is in the text.
pub(crate) fn has(text: &str, character: char) -> bool
    requires { character < 128 }
    ensures { result ≡ has_byte character text.now }
{
    text.split_once(character).is_some()
}

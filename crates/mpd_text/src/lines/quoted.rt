//! A text in double quotes (MPD protocol reference, Requests).
ghost use Rattle.std.specs.Prelude.{◌≡◌, ◌<◌, ◌≤◌, ◌++◌, ◌∷◌, [], List, ℕ, length, Ok, Err, IfOk, OnOk, string_bytes};
ghost use Rattle.mpd_text.specs.declared.lines.quoting.WordsFault.TheVariants.{TooMany};
ghost use Rattle.mpd_text.specs.Lines.Scan.{words_of};
ghost use Rattle.mpd_text.specs.Lines.Grammar.{IsQuotedWord, Spells};
ghost use Rattle.mpd_text.specs.Lines.Quoted.{escaped_character, quoted_text, quoted_line};

use std::alloc::{AllocError, Global};

/// The text in double quotes, as an argument of a line: a backslash comes before each quotation mark and
/// each backslash.
pub fn quote(alloc: Global, text: &str) -> Result<String, AllocError>
    ensures bytes { IfOk result (λ quoted. string_bytes quoted ≡ quoted_text text.now) }
    // A line of this alone is read as the text alone.
    ensures alone { IfOk result (λ quoted. words_of (string_bytes quoted) ≡ Ok (text.now ∷ [])) }
{
    let mut quoted = String::from_str(alloc, "\"")?;
    for character in text.chars() {
        push_escaped(&mut quoted, character)?;
    }
    quoted.push('"')?;
    Ok(quoted)
}

/// Adds a character to what is between quotes.
#[tactic(auto, using(crate::proofs::QuotedWords::plain_char))]
fn push_escaped(quoted: &mut String, character: char) -> Result<(), AllocError>
    ensures { OnOk result (string_bytes quoted.new ≡ string_bytes quoted.old ++ escaped_character character) }
{
    match character {
        '"' => quoted.push_str("\\\""),
        '\\' => quoted.push_str("\\\\"),
        _ => quoted.push(character),
    }
}

/// A law: a text in quotes is a word of a line. A line of texts in quotes, with one space between each two,
/// is read as these texts, and is refused where there are more than 65. A caller has it by a call.
pub fn words_read_quotes()
    ensures word { (text : List ℕ) → IsQuotedWord (quoted_text text) text }
    ensures spelled { (texts : List (List ℕ)) → Spells (quoted_line texts) texts }
    ensures read { (texts : List (List ℕ)) → length texts ≤ 65 → words_of (quoted_line texts) ≡ Ok texts }
    ensures refused { (texts : List (List ℕ)) → 65 < length texts → words_of (quoted_line texts) ≡ Err TooMany }
{}

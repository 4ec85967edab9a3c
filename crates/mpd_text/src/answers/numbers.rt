//! Numbers in arguments (MPD protocol reference, Requests).
ghost use Rattle.std.specs.Prelude.{◌≡◌, Some, None, true, false};
ghost use Rattle.std.specs.List.{list_all};
ghost use Rattle.std.specs.Char.{is_ascii_digit};
ghost use Rattle.mpd_text.specs.Answers.Number.{is_digits as is_digits_lem, number_of};

/// A number: one or more decimal digits, with a value of at most 4,294,967,295. Leading zeros are allowed,
/// signs are not.
pub fn number(text: &str) -> Option<u32>
    ensures { result ≡ number_of text.now }
{
    if is_digits(text) {
        text.parse::<u32>().ok()
    } else {
        None
    }
}

pub(super) fn is_digits(text: &str) -> bool
    ensures { result ≡ is_digits_lem text.now }
{
    !text.is_empty() && all_digits(text.as_bytes())
}

fn all_digits(text: &[u8]) -> bool
    ensures { result ≡ list_all is_ascii_digit text.now }
{
    text.iter().all(|b| b.is_ascii_digit())
}

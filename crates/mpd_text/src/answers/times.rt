//! Times in arguments (MPD protocol reference, Playback control: `seek`; how many digits there may be is this
//! profile's).
ghost use Rattle.std.specs.Prelude.{◌≡◌, ◌-◌, ◌≤◌, true, Some, None};
ghost use Rattle.std.specs.List.{list_all};
ghost use Rattle.std.specs.Char.{is_ascii_digit};
ghost use Rattle.mpd_text.specs.Answers.Number.{number_of, is_digits as is_digits_lem};
ghost use Rattle.mpd_text.specs.Answers.Millis.{seconds_of, thousandths as thousandths_lem, fraction_of, millis_of};

use super::numbers::{is_digits, number};
use super::ranges::halves;

/// A time in thousandths of a second.
#[derive(Clone, Copy, Debug, PartialEq, Eq)]
pub struct Millis(pub u64);

impl Millis {
    /// The time of a text in seconds: at most nine digits, then perhaps a point and one or more digits, of
    /// which three are kept.
    #[tactic(auto, unfolding(crate::specs::Answers::Millis::millis_of))]
    pub fn parse(text: &str) -> Option<Millis>
        ensures { result ≡ millis_of text.now }
    {
        let Some((whole, decimals)) = halves(text, '.') else {
            return Some(Millis(u64::from(seconds(text)?) * 1000));
        };
        let whole = seconds(whole)?;
        let decimals = fraction(decimals)?;
        Some(Millis(u64::from(whole) * 1000 + u64::from(decimals)))
    }
}

#[tactic(auto, unfolding(crate::specs::Answers::Millis::seconds_of))]
fn seconds(text: &str) -> Option<u32>
    ensures { result ≡ seconds_of text.now }
{
    if text.len() <= 9 { number(text) } else { None }
}

#[tactic(auto, unfolding(crate::specs::Answers::Millis::fraction_of))]
fn fraction(text: &str) -> Option<u16>
    ensures { result ≡ fraction_of text.now }
{
    if is_digits(text) {
        Some(thousandths(text.as_bytes()))
    } else {
        None
    }
}

fn thousandths(digits: &[u8]) -> u16
    requires { list_all is_ascii_digit digits.now ≡ true }
    ensures { result ≡ thousandths_lem digits.now }
{
    match digits {
        [] => 0,
        [a] => digit(*a) * 100,
        [a, b] => digit(*a) * 100 + digit(*b) * 10,
        [a, b, c, ..] => digit(*a) * 100 + digit(*b) * 10 + digit(*c),
    }
}

fn digit(b: u8) -> u16
    requires { 48 ≤ b }
    ensures { result ≡ b - 48 }
{
    u16::from(b - b'0')
}

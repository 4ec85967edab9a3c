//! The numbers that texts begin with, by which tracks and discs are sorted.
ghost use Rattle.std.specs.Prelude.{◌≡◌, ◌+◌, ◌*◌, min, true};
ghost use Rattle.std.specs.Char.{digit_value, is_ascii_digit};
ghost use Rattle.song_groups.specs.Numbers.{leading_number as leading_number_lem};

/// The number that a text begins with: its first ASCII digits, as many as there are. It is 4,294,967,295 where
/// they write a greater one, and 0 where there are none.
pub(crate) fn leading_number(text: &str) -> u32
    ensures { result ≡ leading_number_lem text.now }
{
    let mut number = 0;
    for byte in text.as_bytes() {
        if !byte.is_ascii_digit() {
            return number;
        }
        number = with_digit(number, *byte);
    }
    number
}

/// A number with one more digit at its end, as far as numbers go.
fn with_digit(number: u32, digit: u8) -> u32
    requires { is_ascii_digit digit ≡ true }
    ensures { result ≡ min 4294967295 (number * 10 + digit_value digit) }
{
    number
        .saturating_mul(10)
        .saturating_add(u32::from(digit - b'0'))
}

//! What the bytes of a tag's text are, before it is known whether they are well formed.
ghost use Rattle.std.specs.Prelude.{◌≡◌, ◌==◌, nat_le};
ghost use Rattle.std.specs.List.{before_first, list_all, position};

fn first_zero(bytes: &[u8]) -> Option<usize>
    ensures { result ≡ position (λ byte. byte == 0) bytes.now }
{
    bytes.iter().position(|byte| *byte == 0)
}

/// The bytes before the first zero byte, or all of them if there is none.
pub fn up_to_zero(bytes: &[u8]) -> &[u8]
    ensures { result.now ≡ before_first (λ byte. byte == 0) bytes.now }
{
    match first_zero(bytes) {
        Some(len) => &bytes[..len],
        None => bytes,
    }
}

/// Whether no byte is a control character, which are the codes below the space. (A text that contains one would break the lines of an
/// answer.)
pub fn has_no_control(bytes: &[u8]) -> bool
    ensures { result ≡ list_all (λ byte. nat_le 32 byte) bytes.now }
{
    bytes.iter().all(|byte| *byte >= b' ')
}

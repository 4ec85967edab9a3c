//! Names of stored playlists and of stickers.

ghost use Rattle.std.specs.Prelude.{◌≡◌, ◌||◌, ◌==◌, nat_lt};
ghost use Rattle.std.specs.List.{list_any};
ghost use Rattle.shelf.specs.Maps.{is_list_name as can_name_list, is_sticker_name as can_name_sticker};

/// Whether a stored playlist may have the name: 1 to 255 bytes, without `/` and bytes below 0x20.
pub fn is_list_name(name: &str) -> bool
    ensures { result ≡ can_name_list name.now }
{
    !name.is_empty() && name.len() <= 255 && !has_slash_or_control(name.as_bytes())
}

/// Whether a sticker may have the name: not empty, and without `=`.
pub fn is_sticker_name(name: &str) -> bool
    ensures { result ≡ can_name_sticker name.now }
{
    !name.is_empty() && !has_equals_sign(name.as_bytes())
}

fn has_slash_or_control(name: &[u8]) -> bool
    ensures { result ≡ list_any (λ b. nat_lt b 0x20 || b == 47) name.now }
{
    name.iter().any(|b| *b < 0x20 || *b == b'/')
}

fn has_equals_sign(name: &[u8]) -> bool
    ensures { result ≡ list_any (λ b. b == 61) name.now }
{
    name.iter().any(|b| *b == b'=')
}

//! Texts that a clause sees as their bytes, so that an enum that holds them can be in an equation.
ghost use Rattle.std.specs.Prelude.{◌≡◌, IfOk};
ghost use Rattle.std.specs.String.{string_bytes};

use std::alloc::{AllocError, Global};
use std::marker::Model;
use std::sync::ArcStr;

/// A text of its own. A clause sees its bytes, which are UTF-8.
pub struct Text {
    string: String,
}

// Written out, so that a proof goes through one call where it lets one go (docs/DECISIONS.md).
impl Drop for Text {
    fn drop(self) {
        let Text { string: _ } = self;
    }
}

impl Model for Text {
    ghost use Rattle.std.specs.Prelude.{List, ℕ, string_bytes};

    ghost Value = { List ℕ };

    ghost view = { λ t. string_bytes t.string };
}

impl Text {
    /// A copy of these characters.
    pub fn new(alloc: Global, text: &str) -> Result<Text, AllocError>
        ensures { IfOk result (λ t. t ≡ text.now) }
    {
        Ok(Text {
            string: String::from_str(alloc, text)?,
        })
    }

    /// The text that this string is. Takes no memory.
    pub fn of(string: String) -> Text
        ensures { result ≡ string_bytes string }
    {
        Text { string }
    }

    /// Its characters.
    pub fn as_str(&self) -> &str
        ensures { result.now ≡ self.now }
    {
        self.string.as_str()
    }

    /// The string that holds it. Takes no memory.
    pub fn into_string(self) -> String
        ensures { string_bytes result ≡ self }
    {
        let Text { string } = self;
        string
    }
}

/// A text that has several owners in one buffer, as a reply that is handed out and kept. A clause sees its
/// bytes.
pub struct SharedText {
    string: ArcStr,
}

// Written out, so that a proof goes through one call where it lets one go (docs/DECISIONS.md).
impl Drop for SharedText {
    fn drop(self) {
        let SharedText { string: _ } = self;
    }
}

impl Model for SharedText {
    ghost use Rattle.std.specs.Prelude.{List, ℕ};
    ghost use Rattle.std.specs.Arc.{arc_str_bytes};

    ghost Value = { List ℕ };

    ghost view = { λ t. arc_str_bytes t.string };
}

impl SharedText {
    /// A copy of these characters.
    pub fn new(alloc: Global, text: &str) -> Result<SharedText, AllocError>
        ensures { IfOk result (λ t. t ≡ text.now) }
    {
        Ok(SharedText {
            string: ArcStr::from_str(alloc, text)?,
        })
    }

    /// The text that this string is, without a copy of its bytes: only the count of owners is new.
    pub fn of(string: String) -> Result<SharedText, AllocError>
        ensures { IfOk result (λ t. t ≡ string_bytes string) }
    {
        Ok(SharedText {
            string: ArcStr::from_string(string)?,
        })
    }

    /// Its characters.
    pub fn as_str(&self) -> &str
        ensures { result.now ≡ self.now }
    {
        self.string.as_str()
    }

    /// Its bytes, which are UTF-8.
    pub fn bytes(&self) -> &[u8]
        ensures { result.now ≡ self.now }
    {
        self.string.as_str().as_bytes()
    }
}

// Another owner of the same buffer: no memory is taken, and `AllocError` comes only where the count of
// owners is at its maximum.
impl Clone for SharedText {
    ghost is_clone = { λ text copy. copy ≡ text };

    fn clone(&self) -> Result<SharedText, AllocError> {
        Ok(SharedText {
            string: self.string.clone()?,
        })
    }
}

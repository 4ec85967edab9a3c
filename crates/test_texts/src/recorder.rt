//! What a test observes, piece by piece.
ghost use Rattle.std.specs.Prelude.{◌≡◌, None, Some, [], IfOk, IfSome, OnErr, string_bytes};
ghost use Rattle.std.specs.Fmt.{AppendsText};
ghost use Rattle.test_texts.specs.Growing.{Grows};

use std::alloc::{AllocError, Global};
use std::fmt::Display;
use std::marker::Model;

/// A text that grows. A fault is kept: who adds to it need not ask after each piece, and a test that gives the
/// text to [`crate::wants`] does not pass. A clause sees its bytes, or none after a fault.
pub struct Recorder {
    text: String,
    is_whole: bool,
}

// Written out, so that a proof goes through one call where it lets one go (docs/DECISIONS.md).
impl Drop for Recorder {
    fn drop(self) {
        let Recorder {
            text: _,
            is_whole: _,
        } = self;
    }
}

impl Model for Recorder {
    ghost use Rattle.std.specs.Prelude.{List, Option, None, Some, ℕ, if◌then◌else◌, string_bytes};

    ghost Value = { Option (List ℕ) };

    ghost view = { λ t. if t.is_whole then Some (string_bytes t.text) else None };
}

impl Recorder {
    pub fn new(alloc: Global) -> Recorder
        ensures { result ≡ Some [] }
    {
        Recorder {
            text: String::new(alloc),
            is_whole: true,
        }
    }

    /// Adds a piece, or keeps that there was no memory for it.
    pub fn add<D: Display + Drop>(&mut self, piece: D)
        ensures added { IfSome self.new (λ new. IfSome self.old (λ old. AppendsText old new (D.output piece))) }
        ensures kept { self.old ≡ None → self.new ≡ None }
    {
        if self.text.write_fmt(piece).is_err() {
            self.fail();
        }
    }

    /// Adds a text that is made, or keeps that it was not.
    pub fn add_made<E: Drop>(&mut self, piece: Result<String, E>)
        ensures added { IfOk piece (λ made. Grows self.old (string_bytes made) self.new) }
        ensures kept { self.old ≡ None → self.new ≡ None }
        ensures fault { OnErr piece (self.new ≡ None) }
    {
        match piece {
            Ok(made) => self.add(made.as_str()),
            Err(_) => self.fail(),
        }
    }

    /// Keeps that there was a fault.
    pub fn fail(&mut self)
        ensures { self.new ≡ None }
    {
        self.is_whole = false;
    }

    /// The text; a fault where one was kept.
    pub fn into_text(self) -> Result<String, AllocError>
        ensures text { IfOk result (λ text. self ≡ Some (string_bytes text)) }
        ensures fault { OnErr result (self ≡ None) }
    {
        let Recorder { text, is_whole } = self;
        if is_whole { Ok(text) } else { Err(AllocError) }
    }
}

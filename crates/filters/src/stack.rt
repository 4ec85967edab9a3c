//! What is open, the innermost first.
ghost use Rattle.std.specs.Prelude.{◌≡◌, ◌∷◌, [], length, MatchOption, is_ok, if◌then◌else◌};

use std::alloc::{AllocFailed, Global};
use std::marker::Model;

/// Items, of which the last put in comes out first. A clause sees them with the last at the front.
#[derive(Drop)]
pub struct Stack<T: Drop> {
    items: Vec<T>,
}

impl<T: Drop> Model for Stack<T> {
    ghost use Rattle.std.specs.Prelude.{List, reverse};

    ghost Value = { List T };

    ghost view = { λ s. reverse s.items.items };
}

impl<T: Drop> Stack<T> {
    /// No items. Takes no memory until the first is put in.
    pub fn new(alloc: Global) -> Stack<T>
        ensures { result ≡ [] }
    {
        Stack {
            items: Vec::new(alloc),
        }
    }

    /// How many items there are.
    pub fn len(&self) -> usize
        ensures { result ≡ length self.now }
    {
        self.items.len()
    }

    /// Puts an item at the front. Without memory nothing changes.
    pub fn push(&mut self, item: T) -> Result<(), AllocFailed<T>>
        ensures { self.new ≡ (if is_ok result then item ∷ self.old else self.old) }
    {
        self.items.push(item)
    }

    /// Takes the front item out.
    pub fn pop(&mut self) -> Option<T>
        ensures { MatchOption result ((self.old ≡ []) × (self.new ≡ [])) (λ item. self.old ≡ item ∷ self.new) }
    {
        self.items.pop()
    }
}

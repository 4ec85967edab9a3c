//! Stickers of one kind, in memory.

ghost use Rattle.std.specs.Prelude.{◌≡◌, ◌≢◌, Some, None, IfOk, is_ok, string_bytes};
ghost use Rattle.shelf.specs.Maps.{Answers, AnswersAll, no_refusal, no_stickers};
ghost use Rattle.shelf.specs.Memory.{Shows, TellsTexts, ChangesTexts, moved, no_texts, refusal_of_text, text_in, texts_of, with_text, with_texts};

use crate::faults::{Entry, ShelfFault};
use std::alloc::Global;
use std::collections::BTreeMap;

/// The stickers of one kind: texts by target and name. A call that is refused leaves them as they were.
#[derive(Drop)]
pub struct Stickers {
    alloc: Global,
    // by target, then by name; where the inner map is empty the target has no stickers
    targets: BTreeMap<String, BTreeMap<String, String>>,
}

impl Stickers {
    /// No stickers.
    pub fn new(alloc: Global) -> Stickers
        ensures { Shows result no_texts }
    {
        Stickers {
            alloc,
            targets: BTreeMap::new(alloc),
        }
    }

    /// The text of a sticker. Refused: `NoSticker`.
    pub fn text(&self, target: &str, name: &str) -> Result<String, ShelfFault>
        ensures answers { Answers ⊥ (refusal_of_text (texts_of self.now target.now name.now)) result }
        ensures value { IfOk result (λ text. texts_of self.now target.now name.now ≡ Some (string_bytes text)) }
    {
        let Some(names) = self.targets.get(target) else {
            return Err(ShelfFault::NoSticker);
        };
        match names.get(name) {
            Some(value) => Ok(value.clone()?),
            None => Err(ShelfFault::NoSticker),
        }
    }

    /// Keeps a text under the target and the name, in place of the one it had.
    pub fn set(&mut self, target: &str, name: &str, value: &str) -> Result<(), ShelfFault>
        ensures answers { Answers ⊥ no_refusal result }
        ensures changes { ChangesTexts self.old self.new (is_ok result) (with_text target.now name.now (Some value.now)) }
    {
        let name = String::from_str(self.alloc, name)?;
        let value = String::from_str(self.alloc, value)?;
        if let Some(names) = self.targets.get_mut(target) {
            names.insert(name, value)?;
            return Ok(());
        }
        let mut names = BTreeMap::new(self.alloc);
        names.insert(name, value)?;
        let target = String::from_str(self.alloc, target)?;
        self.targets.insert(target, names)?;
        Ok(())
    }

    /// Takes a sticker away. Refused: `NoSticker`.
    pub fn delete(&mut self, target: &str, name: &str) -> Result<(), ShelfFault>
        ensures answers { Answers ⊥ (refusal_of_text (texts_of self.old target.now name.now)) result }
        ensures changes { ChangesTexts self.old self.new (is_ok result) (with_text target.now name.now None) }
    {
        let Some(names) = self.targets.get_mut(target) else {
            return Err(ShelfFault::NoSticker);
        };
        if names.remove(name).is_none() {
            return Err(ShelfFault::NoSticker);
        }
        Ok(())
    }

    /// Takes all stickers of a target away. Refused: `NoSticker`, where it has none.
    pub fn delete_all(&mut self, target: &str) -> Result<(), ShelfFault>
        ensures answers { AnswersAll ⊥ no_refusal (texts_of self.old target.now) result }
        ensures changes { ChangesTexts self.old self.new (is_ok result) (with_texts target.now no_stickers) }
        ensures gone { Shows self.new (with_texts target.now no_stickers (texts_of self.old)) }
    {
        let Some(names) = self.targets.remove(target) else {
            return Err(ShelfFault::NoSticker);
        };
        if names.is_empty() {
            return Err(ShelfFault::NoSticker);
        }
        Ok(())
    }

    /// Gives all stickers of a target to another, in place of those that this one had.
    pub fn move_to(&mut self, target: &str, new_target: &str) -> Result<(), ShelfFault>
        requires { target.now ≢ new_target.now }
        ensures answers { Answers ⊥ no_refusal result }
        ensures changes { ChangesTexts self.old self.new (is_ok result) (moved target.now new_target.now) }
    {
        let key = String::from_str(self.alloc, new_target)?;
        self.targets.insert(key, BTreeMap::new(self.alloc))?;
        // what follows takes no memory, so the move cannot stop half way
        let Some(names) = self.targets.remove(target) else {
            return Ok(());
        };
        if let Some(room) = self.targets.get_mut(new_target) {
            *room = names;
        }
        Ok(())
    }

    /// The names and texts of a target's stickers, by rising bytes of the names.
    pub fn of_target(&self, target: &str) -> Result<Vec<Entry>, ShelfFault>
        ensures answers { Answers ⊥ no_refusal result }
        ensures entries { TellsTexts (texts_of self.now target.now) result }
    {
        match self.targets.get(target) {
            Some(names) => all_entries(self.alloc, names),
            None => Ok(Vec::new(self.alloc)),
        }
    }

    /// The targets that have a sticker of the name, with its text, by rising bytes of the targets.
    pub fn find(&self, name: &str) -> Result<Vec<Entry>, ShelfFault>
        ensures answers { Answers ⊥ no_refusal result }
        ensures entries { TellsTexts (λ target. texts_of self.now target name.now) result }
    {
        let mut found = Vec::new(self.alloc);
        for (target, names) in self.targets.iter() {
            if let Some(value) = names.get(name) {
                let key = target.clone()?;
                let value = value.clone()?;
                found.push(Entry { key, value })?;
            }
        }
        Ok(found)
    }
}

fn all_entries(alloc: Global, names: &BTreeMap<String, String>) -> Result<Vec<Entry>, ShelfFault>
    ensures answers { Answers ⊥ no_refusal result }
    ensures entries { TellsTexts (text_in (Some names.now)) result }
{
    let mut entries = Vec::new(alloc);
    for (name, value) in names.iter() {
        let key = name.clone()?;
        let value = value.clone()?;
        entries.push(Entry { key, value })?;
    }
    Ok(entries)
}

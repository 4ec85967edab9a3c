//! A shelf in memory.

ghost use Rattle.std.specs.Prelude.{◌≡◌, Some, None, if◌then◌else◌};
ghost use Rattle.shelf.specs.declared.faults.ShelfFault.TheVariants.{NoSuchList};
ghost use Rattle.shelf.specs.Maps.{Same, no_maps, refusal_of_target};
ghost use Rattle.shelf.specs.Memory.{maps_of, memory_of, of_kind};

use crate::faults::{Entry, ShelfFault};
use crate::kinds::StickerKind;
use crate::names::{is_list_name, is_sticker_name};
use crate::stickers::Stickers;
use crate::traits::Shelf;
use crate::uri_list::UriList;
use std::alloc::Global;
use std::collections::BTreeMap;

/// A shelf that keeps its maps in memory.
#[derive(Drop)]
pub struct MemShelf {
    alloc: Global,
    // by name
    lists: BTreeMap<String, UriList>,
    // by URI
    songs: Stickers,
    // by name
    playlists: Stickers,
}

impl MemShelf {
    /// An empty shelf.
    pub fn new(alloc: Global) -> MemShelf
        ensures { Same no_maps (maps_of result) }
    {
        MemShelf {
            alloc,
            lists: BTreeMap::new(alloc),
            songs: Stickers::new(alloc),
            playlists: Stickers::new(alloc),
        }
    }

    /// The stickers of a kind.
    fn stickers(&self, kind: StickerKind) -> &Stickers
        ensures { result.now ≡ of_kind self.now.songs self.now.playlists kind }
    {
        match kind {
            StickerKind::Song => &self.songs,
            StickerKind::Playlist => &self.playlists,
        }
    }

    /// Whether the target may have stickers: any song may, and a stored playlist that is there.
    fn is_target(&self, kind: StickerKind, target: &str) -> bool
        ensures { refusal_of_target (maps_of self.now) kind target.now ≡ (if result then None else Some NoSuchList) }
    {
        match kind {
            StickerKind::Song => true,
            StickerKind::Playlist => self.lists.contains_key(target),
        }
    }
}

impl Shelf for MemShelf {
    ghost standing = { λ s. memory_of (maps_of s) };

    ghost failed = { λ old new call. ⊥ };

    ghost settled = { λ s m clean ours opened left. absurd left };

    fn lists(&mut self) -> Result<Vec<String>, ShelfFault> {
        let mut names = Vec::new(self.alloc);
        for name in self.lists.keys() {
            names.push(name.clone()?)?;
        }
        Ok(names)
    }

    fn list(&mut self, name: &str) -> Result<UriList, ShelfFault> {
        match self.lists.get(name) {
            Some(uris) => Ok(uris.clone()?),
            None => Err(ShelfFault::NoSuchList),
        }
    }

    fn put(&mut self, name: &str, uris: &UriList) -> Result<(), ShelfFault> {
        if !is_list_name(name) {
            return Err(ShelfFault::BadName);
        }
        let uris = uris.clone()?;
        let name = String::from_str(self.alloc, name)?;
        self.lists.insert(name, uris)?;
        Ok(())
    }

    fn create(&mut self, name: &str, uris: &UriList) -> Result<(), ShelfFault> {
        if self.lists.contains_key(name) {
            return Err(ShelfFault::Exists);
        }
        self.put(name, uris)
    }

    fn rename(&mut self, name: &str, new_name: &str) -> Result<(), ShelfFault> {
        if !self.lists.contains_key(name) {
            return Err(ShelfFault::NoSuchList);
        }
        if self.lists.contains_key(new_name) {
            return Err(ShelfFault::Exists);
        }
        if !is_list_name(new_name) {
            return Err(ShelfFault::BadName);
        }
        let uris = match self.lists.get(name) {
            Some(uris) => uris.clone()?,
            None => return Err(ShelfFault::NoSuchList),
        };
        let key = String::from_str(self.alloc, new_name)?;
        self.lists.insert(key, uris)?;
        if let Err(fault) = self.playlists.move_to(name, new_name) {
            self.lists.remove(new_name);
            return Err(fault);
        }
        self.lists.remove(name);
        Ok(())
    }

    fn remove(&mut self, name: &str) -> Result<(), ShelfFault> {
        if self.lists.remove(name).is_none() {
            return Err(ShelfFault::NoSuchList);
        }
        // a list without stickers is removed as well
        let _ = self.playlists.delete_all(name);
        Ok(())
    }

    fn sticker(
        &mut self,
        kind: StickerKind,
        target: &str,
        name: &str,
    ) -> Result<String, ShelfFault> {
        if !self.is_target(kind, target) {
            return Err(ShelfFault::NoSuchList);
        }
        self.stickers(kind).text(target, name)
    }

    fn set_sticker(
        &mut self,
        kind: StickerKind,
        target: &str,
        name: &str,
        value: &str,
    ) -> Result<(), ShelfFault> {
        if !self.is_target(kind, target) {
            return Err(ShelfFault::NoSuchList);
        }
        if !is_sticker_name(name) {
            return Err(ShelfFault::BadName);
        }
        match kind {
            StickerKind::Song => self.songs.set(target, name, value),
            StickerKind::Playlist => self.playlists.set(target, name, value),
        }
    }

    fn delete_sticker(
        &mut self,
        kind: StickerKind,
        target: &str,
        name: &str,
    ) -> Result<(), ShelfFault> {
        if !self.is_target(kind, target) {
            return Err(ShelfFault::NoSuchList);
        }
        match kind {
            StickerKind::Song => self.songs.delete(target, name),
            StickerKind::Playlist => self.playlists.delete(target, name),
        }
    }

    fn delete_stickers(&mut self, kind: StickerKind, target: &str) -> Result<(), ShelfFault> {
        if !self.is_target(kind, target) {
            return Err(ShelfFault::NoSuchList);
        }
        match kind {
            StickerKind::Song => self.songs.delete_all(target),
            StickerKind::Playlist => self.playlists.delete_all(target),
        }
    }

    fn stickers_of(&mut self, kind: StickerKind, target: &str) -> Result<Vec<Entry>, ShelfFault> {
        if !self.is_target(kind, target) {
            return Err(ShelfFault::NoSuchList);
        }
        self.stickers(kind).of_target(target)
    }

    fn find_stickers(&mut self, kind: StickerKind, name: &str) -> Result<Vec<Entry>, ShelfFault> {
        self.stickers(kind).find(name)
    }
}

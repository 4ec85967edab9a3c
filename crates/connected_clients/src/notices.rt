//! The notices of an event. Few events tell anybody, so that a list of none is one pointer.
ghost use Rattle.std.specs.Prelude.{◌≡◌, ◌++◌, ◌∷◌, ◌<◌, ◌≤◌, [], length, IfOk};
ghost use Rattle.connected_clients.specs.Rooms.{listed, room_in};

use idle_notes::Subsystems;
use std::alloc::{AllocError, Global};

/// What a client that waited is told.
#[derive(Clone, Copy, PartialEq, Eq)]
pub struct Notice {
    pub client: u32,
    /// The subsystems that changed, of those that it waited for.
    pub names: Subsystems,
}

/// Notices, by rising client, in room that was taken before.
pub struct Notices {
    list: Option<Box<Vec<Notice>>>,
}

// Written out, so that a proof goes through one call where it lets one go (docs/DECISIONS.md).
impl Drop for Notices {
    fn drop(self) {
        let Notices { list: _ } = self;
    }
}

impl Notices {
    /// No notices, and no room for any.
    pub fn none() -> Notices
        ensures list { listed result ≡ [] }
        ensures room { room_in result ≡ 0 }
    {
        Notices { list: None }
    }

    /// No notices, with room for so many.
    pub fn with_room(alloc: Global, room: usize) -> Result<Notices, AllocError>
        ensures list { IfOk result (λ notices. listed notices ≡ []) }
        ensures room { IfOk result (λ notices. room ≤ room_in notices) }
    {
        if room == 0 {
            return Ok(Notices::none());
        }
        let list = Vec::with_capacity(alloc, room)?;
        Ok(Notices {
            list: Some(Box::new(alloc, list)?),
        })
    }

    pub fn as_slice(&self) -> &[Notice]
        ensures { result.now ≡ listed self.now }
    {
        match &self.list {
            Some(list) => list.as_slice(),
            None => &[],
        }
    }

    /// Puts a notice after the others.
    pub fn push(&mut self, notice: Notice)
        requires { length (listed self.old) < room_in self.old }
        ensures list { listed self.new ≡ listed self.old ++ notice ∷ [] }
        ensures room { room_in self.old ≤ room_in self.new }
    {
        if let Some(list) = &mut self.list {
            let _ = list.push(notice);
        }
    }

    /// The same notices; room in which there are none is given back.
    pub fn trimmed(self) -> Notices
        ensures list { listed result ≡ listed self }
        ensures room { listed self ≡ [] → room_in result ≡ 0 }
    {
        if self.as_slice().is_empty() {
            return Notices::none();
        }
        self
    }
}

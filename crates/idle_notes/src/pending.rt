//! What is pending for one client.
ghost use Rattle.std.specs.Prelude.{◌≡◌, is_some};
ghost use Rattle.idle_notes.specs.Notes.{everything, fresh, noted, waits, cancelled, notice_of, up_to_date};

use crate::sets::Subsystems;

/// What changed since a client's last notice, and what the client waits for, if it waits. Nothing here takes
/// memory.
#[derive(Clone, Copy, PartialEq, Eq)]
pub struct Pending {
    waiting: Option<Subsystems>,
    changed: Subsystems,
}

impl Pending {
    /// What is pending for a new client: nothing changed, and it does not wait.
    pub fn new() -> Pending
        ensures { result ≡ fresh }
    {
        Pending {
            waiting: None,
            changed: Subsystems::none(),
        }
    }

    /// What is pending for a client to which all is new: everything changed, and it does not wait.
    pub fn everything() -> Pending
        ensures { result ≡ everything }
    {
        Pending {
            waiting: None,
            changed: Subsystems::all(),
        }
    }

    /// These changed.
    pub fn note(&mut self, raised: Subsystems)
        ensures { self.new ≡ noted raised self.old }
    {
        self.changed = self.changed.union(raised);
    }

    /// The client waits for these from now on, whatever changed already.
    pub fn listen(&mut self, named: Subsystems)
        ensures { self.new ≡ waits named self.old }
    {
        self.waiting = Some(named);
    }

    /// The client waits for these. Where one of them changed already, that is its notice, and it does not
    /// wait.
    pub fn wait(&mut self, named: Subsystems) -> Option<Subsystems>
        ensures notice { result ≡ notice_of (waits named self.old) }
        ensures after { self.new ≡ up_to_date (waits named self.old) }
    {
        self.listen(named);
        self.notice()
    }

    /// The client waits no more; what changed stays pending.
    pub fn cancel(&mut self)
        ensures { self.new ≡ cancelled self.old }
    {
        self.waiting = None;
    }

    /// The client's notice, if it waits for something that changed: what changed of what it named. It then
    /// waits no more, and nothing is pending, named or not.
    pub fn notice(&mut self) -> Option<Subsystems>
        ensures notice { result ≡ notice_of self.old }
        ensures after { self.new ≡ up_to_date self.old }
    {
        let Some(named) = self.waiting else {
            return None;
        };
        let due = self.changed.meet(named);
        if due.is_empty() {
            return None;
        }
        *self = Pending::new();
        Some(due)
    }

    /// Whether the client waits.
    pub fn is_waiting(&self) -> bool
        ensures { result ≡ is_some self.now.waiting }
    {
        self.waiting.is_some()
    }

    /// What changed since the last notice.
    pub fn changed(&self) -> Subsystems
        ensures { result ≡ self.now.changed }
    {
        self.changed
    }
}

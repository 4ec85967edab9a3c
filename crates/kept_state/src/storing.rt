//! The file in which a state is kept.
use std::alloc::{AllocError, Global};

/// Who writes files.
pub trait Storing {
    ghost use Rattle.std.specs.Prelude.{ℕ, List, OnOk};

    /// Why a file was not written.
    type Fault;

    /// What is stored, where a file of this name was written with this text.
    ghost writes: { Self → List ℕ → List ℕ → Self → Type 0 };

    /// What is stored, where the file of the first name has the second one instead.
    ghost renames: { Self → List ℕ → List ℕ → Self → Type 0 };

    /// Writes a file, and has it stored.
    fn write(&mut self, path: &str, text: &str) -> Result<(), Self::Fault>
        ensures { OnOk result (writes self.old path.now text.now self.new) };

    /// Renames a file, and has that stored.
    fn rename(&mut self, from: &str, to: &str) -> Result<(), Self::Fault>
        ensures { OnOk result (renames self.old from.now to.now self.new) };

    /// Removes a file that was not written whole.
    fn remove(&mut self, path: &str);
}

/// A file with a state, and the text that was written last.
#[derive(Drop)]
pub struct StateFile<S: Storing + Drop> {
    store: S,
    path: String,
    /// The file beside it, which has each text first.
    aside: String,
    written: String,
}

impl<S: Storing + Drop> StateFile<S> {
    ghost use Rattle.std.specs.Prelude.{◌≡◌, ◌++◌, [], IfOk, OnErr, OnOk, codes, string_bytes};
    ghost use Rattle.kept_state.specs.StateFiles.{KeepsText};
    ghost use Rattle.kept_state.specs.Storing.{SaysWhetherOther};

    /// The file of this path, into which nothing was written yet.
    pub fn new(alloc: Global, store: S, path: String) -> Result<StateFile<S>, AllocError>
        ensures store { IfOk result (λ file. file.store ≡ store) }
        ensures path { IfOk result (λ file. string_bytes file.path ≡ string_bytes path) }
        ensures aside { IfOk result (λ file. string_bytes file.aside ≡ string_bytes path ++ codes ".new") }
        ensures nothing { IfOk result (λ file. string_bytes file.written ≡ []) }
    {
        let aside = format!(in alloc; "{path}.new")?;
        Ok(StateFile {
            store,
            path,
            aside,
            written: String::new(alloc),
        })
    }

    /// Its path.
    pub fn path(&self) -> &str
        ensures { result.now ≡ string_bytes self.now.path }
    {
        self.path.as_str()
    }

    /// Keeps a text, and says whether it was written, as it is where it is another than the one that was written last: into
    /// the file beside, which then takes the name of this one. So after a stop at any moment the file has the earlier text
    /// or this one. Where that fails, the text is written the next time.
    pub fn keep(&mut self, text: String) -> Result<bool, S::Fault>
        ensures written { IfOk result (SaysWhetherOther (string_bytes self.old.written) (string_bytes text)) }
        ensures latest { OnOk result (string_bytes self.new.written ≡ string_bytes text) }
        ensures stored { OnOk result (KeepsText S.writes S.renames self.old self.new (string_bytes text)) }
        ensures failed { OnErr result (self.new.written ≡ self.old.written) }
        ensures names { (self.new.path ≡ self.old.path) × (self.new.aside ≡ self.old.aside) }
    {
        if text.as_str() == self.written.as_str() {
            return Ok(false);
        }
        if let Err(fault) = self.store.write(self.aside.as_str(), text.as_str()) {
            self.store.remove(self.aside.as_str());
            return Err(fault);
        }
        self.store.rename(self.aside.as_str(), self.path.as_str())?;
        self.written = text;
        Ok(true)
    }
}

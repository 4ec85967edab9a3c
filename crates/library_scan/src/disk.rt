//! A disk that is asked for what lies in its folders.
ghost use Rattle.std.specs.Prelude.{◌≡◌, Option, List, IfOk};
ghost use Rattle.counted_devices.specs.CallCounts.{NoFewer};
ghost use Rattle.library_scan.specs.Contents.{UnreadOnFailure};
ghost use Rattle.library_scan.specs.Faults.{ShutOnFailure, MissedOnFailure, UnseenOnFailure};
ghost use Rattle.library_scan.specs.Trees.{Tree, OnTree, OpensFolder, ReadsFile, TellsNext};
ghost use Rattle.library_scan.specs.declared.disk.Entry.{Entry};

use crate::content::Content;
use crate::step::Kind;
use counted_devices::Failing;
use mpd_text::Text;
use song_db::Rate;
use std::alloc::{AllocError, Global};

/// What a folder tells while it is listed.
#[derive(Drop)]
pub enum Entry {
    /// A name.
    Name(Text),
    /// A name that is not UTF-8.
    NotText,
    /// The listing breaks off here.
    Broken,
}

/// A disk that is asked for what lies in one of its folders, and counts how its calls end, with those of its
/// files. A URI is a path from that folder on, and the empty one is the folder itself.
///
/// An answer that tells of a fault comes exactly where a call failed: a folder that cannot be listed, a name
/// that is no text, the end of a listing before its last name, a path of which the system tells nothing, and a
/// file that cannot be read.
pub trait Disk: Failing {
    // What lies there, where it is known.
    ghost known_tree: { Self → Option Tree };

    // What the folder that was opened last has still to tell.
    ghost left: { Self → List Entry };

    /// Opens a folder in place of the one before; false where it cannot be listed.
    fn open_folder(&mut self, alloc: Global, uri: &str) -> Result<bool, AllocError>
        ensures stays { known_tree self.new ≡ known_tree self.old }
        ensures open { OpensFolder (known_tree self.old) uri.now (left self.new) result }
        ensures cause { ShutOnFailure (Self.call_counts self.old) (Self.call_counts self.new) result }
        ensures calm { NoFewer (Self.call_counts self.old) (Self.call_counts self.new) };

    /// What the folder that was opened last tells next.
    fn next_entry(&mut self, alloc: Global) -> Result<Option<Entry>, AllocError>
        ensures stays { known_tree self.new ≡ known_tree self.old }
        ensures tells { TellsNext (known_tree self.old) (left self.old) (left self.new) result }
        ensures cause { MissedOnFailure (Self.call_counts self.old) (Self.call_counts self.new) result }
        ensures calm { NoFewer (Self.call_counts self.old) (Self.call_counts self.new) };

    /// What the system says that a path is.
    fn look(&mut self, alloc: Global, uri: &str) -> Result<Kind, AllocError>
        ensures stays { known_tree self.new ≡ known_tree self.old }
        ensures left { left self.new ≡ left self.old }
        ensures kind { OnTree (known_tree self.old) (λ tree. IfOk result (λ kind. kind ≡ tree.kind uri.now)) }
        ensures cause { UnseenOnFailure (Self.call_counts self.old) (Self.call_counts self.new) result }
        ensures calm { NoFewer (Self.call_counts self.old) (Self.call_counts self.new) };

    /// What a file is at this rate, with the tags of the everyday profile or of the base profile.
    fn read(
        &mut self,
        alloc: Global,
        uri: &str,
        rate: &Rate,
        everyday: bool,
    ) -> Result<Content, AllocError>
        ensures stays { known_tree self.new ≡ known_tree self.old }
        ensures left { left self.new ≡ left self.old }
        ensures reads { ReadsFile (known_tree self.old) everyday rate.now uri.now result }
        ensures cause { UnreadOnFailure (Self.call_counts self.old) (Self.call_counts self.new) result }
        ensures calm { NoFewer (Self.call_counts self.old) (Self.call_counts self.new) };
}

//! A folder of WAVE files as the songs of a library, and why others of its files are not songs.
#![tactic(auto)]

mod content;
mod disk;
mod fault;
mod found;
mod order;
mod path;
mod scanned;
mod step;
mod system_disk;
mod walk;
mod window;

pub use content::{Content, Refusal, content_of};
pub use disk::{Disk, Entry};
pub use fault::ScanFault;
pub use found::MAX_NAMES;
pub use scanned::{Refused, Scanned};
pub use step::{Kind, MAX_DEPTH, MAX_URI, Step, step_of};
pub use system_disk::SystemDisk;
pub use walk::{Unwatched, Watcher, scan, scan_disk};

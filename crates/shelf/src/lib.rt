//! Stored playlists and stickers as two maps, over memory and over a database.
#![tactic(auto)]

mod faults;
mod kinds;
mod memory;
mod names;
mod stickers;
mod traits;
mod uri_list;

pub use faults::{Entry, ShelfFault};
pub use kinds::StickerKind;
pub use memory::MemShelf;
pub use names::{is_list_name, is_sticker_name};
pub use traits::Shelf;
pub use uri_list::{UriList, next_uri};

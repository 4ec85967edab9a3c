//! What commands ask for of the songs.
use crate::sort_by::SortBy;
use command_arguments::{Criteria, Window};
use known_tags::KnownTag;
use mpd_text::Sequence;

/// Which songs, in which order, and which of them are shown.
#[derive(Drop)]
pub struct Selection {
    pub criteria: Criteria,
    /// In the order of the library where it is `None`.
    pub sort: Option<SortBy>,
    /// All of them where it is `None`.
    pub window: Option<Window>,
}

/// What `list` asks for.
#[derive(Drop)]
pub struct Grouping {
    /// The tag that is listed first, then those that it is grouped by, as they stand. No tag is there twice.
    pub tags: Sequence<KnownTag>,
    /// Of all songs where it is `None`.
    pub criteria: Option<Criteria>,
}

/// What `count` asks for. One of both is there at least.
#[derive(Drop)]
pub struct Counting {
    /// The tag by whose texts the songs are counted; all together where it is `None`.
    pub group: Option<KnownTag>,
    /// Of all songs where it is `None`.
    pub criteria: Option<Criteria>,
}

//! What an answer is made for, and how its line comes.
ghost use Rattle.std.specs.Prelude.{◌≡◌};
ghost use Rattle.transitions.specs.Answers.{place_of};

use command_lists::ListForm;
use known_tags::TagSet;
use mpd_command::Name;

/// How a line comes.
#[derive(Clone, Copy, PartialEq, Eq)]
pub enum ListPlace {
    Alone,
    /// In a list of this form, at this place from 0.
    InList(ListForm, usize),
}

impl ListPlace {
    /// The place that a refusal names.
    pub fn place(self) -> usize
        ensures { result ≡ place_of self }
    {
        match self {
            ListPlace::Alone => 0,
            ListPlace::InList(_, place) => place,
        }
    }
}

/// What an answer is made for: a command of a client, the tags that this client is shown, and how its line
/// comes.
#[derive(Clone, Copy)]
pub struct Asked {
    pub client: u32,
    pub tags: TagSet,
    pub name: Name,
    pub list_place: ListPlace,
}

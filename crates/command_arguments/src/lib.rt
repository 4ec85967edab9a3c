//! What the words after a command's name are read as: the forms of arguments, and how many there may be.
#![tactic(auto)]

mod criteria;
mod fade;
mod forms;
mod readers;
mod volume;

pub use criteria::{
    Criteria, FilterHandle, filter, filter_window, is_alone, one_filter, perhaps_filter,
};
pub use fade::FadeSeconds;
pub use forms::{
    Form, Position, ReplayGain, Seeking, SongMode, Uri, VolumeChange, Window, after_sign,
};
pub use readers::{
    Misread, none, number_or_none, one, one_many, one_perhaps, perhaps, read_word, some,
    subsystems, three, two,
};
pub use volume::Volume;

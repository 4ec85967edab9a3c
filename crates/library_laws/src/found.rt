//! The laws of what is found. A caller that calls one may use it; each does nothing.
ghost use Rattle.library_laws.specs.Found.{CountsTheFound, FindsAndAddsTheSame, SongsArePicked};
ghost use Rattle.library_laws.specs.Grouped.{CountsTheFoundByText};
ghost use Rattle.library_laws.specs.Listed.{ListsTheFound};

/// `find` and `search` show the songs that meet a filter, in the order and as far as the selection says, and
/// `findadd` and `searchadd` add just these songs, in this order. Each filter has such songs.
pub fn find_and_add_the_same()
    ensures same { FindsAndAddsTheSame }
    ensures there { SongsArePicked }
{}

/// `count` counts the songs that `find` shows, and how long they play: all together, or for each text that one
/// of them has of a tag those with this text.
pub fn found_songs_are_counted()
    ensures together { CountsTheFound }
    ensures by_text { CountsTheFoundByText }
{}

/// `list` of one tag shows just the texts that the songs have which `find` shows.
pub fn found_texts_are_listed()
    ensures { ListsTheFound }
{}

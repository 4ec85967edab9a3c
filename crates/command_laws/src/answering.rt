//! The laws of what clients of the base profile are shown. A caller that calls one may use it; it does
//! nothing.
ghost use Rattle.command_laws.specs.BaseTags.{BaseKeepsAllTags, BaseListHasTheTexts, BaseShowsAllLines, BaseShowsWholeSongs, BaseStatusHasNoTime};

/// `list` of one tag has a line for each text that the tag has, as the base profile says it.
pub fn base_list_has_the_texts()
    ensures { BaseListHasTheTexts }
{}

/// In the base profile no client chooses tags, each is shown all tags of a song, and `status` has no `time`.
pub fn base_profile_shows_all_tags()
    ensures tags { BaseKeepsAllTags }
    ensures songs { BaseShowsWholeSongs }
    ensures lines { BaseShowsAllLines }
    ensures time { BaseStatusHasNoTime }
{}

//! The law of the tags that clients are shown. A caller that calls it may use it; it does nothing.
ghost use Rattle.command_laws.specs.ChosenTags.{TagsStaySets};
ghost use Rattle.command_laws.specs.HiddenLines.{HiddenTagsAreLeftOut};
ghost use Rattle.command_laws.specs.HiddenTags.{SongsShowLess};

/// What a client that has chosen tags is shown is what it would be shown with all tags, less the lines of the
/// tags that are not in its set: of a song, and by each command. What a client is shown are sets of tags, and
/// others only by the four commands with which it chooses them.
pub fn hidden_tags_are_left_out()
    ensures songs { SongsShowLess }
    ensures answers { HiddenTagsAreLeftOut }
    ensures sets { TagsStaySets }
{}

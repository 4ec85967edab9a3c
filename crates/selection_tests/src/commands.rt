//! What commands ask for, as texts: a filter, an order, a window, a position and groups.
use command_arguments::{Criteria, Misread, Position};
use filters::{Case, Filter, Test};
use mpd_text::TagName;
use selections::{
    Counting, Grouping, Selection, counting, grouping, name_selection, no_tag_is_there_twice,
    options_are_read_from_the_right, placed_selection, selection,
};
use std::alloc::{AllocError, Global};
use std::test::Fail;
use test_songs::song;
use test_texts::{Recorder, wants};

/// The lines again, which have words of a command with `|` between them, ` => `, and what is expected of it, with
/// what is observed of it.
fn observed_of(alloc: Global, lines: &str) -> Result<String, AllocError> {
    let mut recorder = Recorder::new(alloc);
    for line in lines.lines() {
        let (given, _) = line.split_once(" => ").unwrap_or((line, ""));
        recorder.add(format_args!("{given} => "));
        let (name, rest) = given.split_once('|').unwrap_or((given, ""));
        match words(alloc, rest) {
            Ok(words) => tell(&mut recorder, alloc, name, &words),
            Err(_) => recorder.fail(),
        }
        recorder.add("\n");
    }
    recorder.into_text()
}

fn words(alloc: Global, text: &str) -> Result<Vec<String>, AllocError> {
    let mut words = Vec::new(alloc);
    for word in text.split('|') {
        words
            .push(String::from_str(alloc, word)?)
            .map_err(AllocError::from)?;
    }
    Ok(words)
}

fn tell(recorder: &mut Recorder, alloc: Global, name: &str, words: &[String]) {
    match name {
        "find" => tell_selected(recorder, alloc, selection(alloc, true, words, Test::Equals)),
        "search" => tell_selected(
            recorder,
            alloc,
            selection(alloc, true, words, Test::Contains),
        ),
        "base find" => tell_selected(
            recorder,
            alloc,
            selection(alloc, false, words, Test::Equals),
        ),
        "findadd" => tell_placed(
            recorder,
            alloc,
            placed_selection(alloc, true, words, Test::Equals),
        ),
        "searchadd" => tell_placed(
            recorder,
            alloc,
            placed_selection(alloc, true, words, Test::Contains),
        ),
        "base findadd" => tell_placed(
            recorder,
            alloc,
            placed_selection(alloc, false, words, Test::Equals),
        ),
        "searchaddpl" => tell_named(recorder, alloc, words),
        "list" => tell_listed(recorder, alloc, true, words),
        "base list" => tell_listed(recorder, alloc, false, words),
        _ => tell_counted(recorder, alloc, words),
    }
}

fn tell_selected(recorder: &mut Recorder, alloc: Global, selected: Result<Selection, Misread>) {
    match selected {
        Ok(selection) => tell_selection(recorder, alloc, &selection),
        Err(misread) => tell_refused(recorder, misread),
    }
}

fn tell_placed(
    recorder: &mut Recorder,
    alloc: Global,
    placed: Result<(Selection, Option<Position>), Misread>,
) {
    match placed {
        Ok((selection, position)) => {
            tell_selection(recorder, alloc, &selection);
            tell_position(recorder, position);
        }
        Err(misread) => tell_refused(recorder, misread),
    }
}

fn tell_named(recorder: &mut Recorder, alloc: Global, words: &[String]) {
    match name_selection(alloc, words, Test::Contains) {
        Ok((name, selection)) => {
            recorder.add(format_args!("{}: ", name.as_str()));
            tell_selection(recorder, alloc, &selection);
        }
        Err(misread) => tell_refused(recorder, misread),
    }
}

fn tell_listed(recorder: &mut Recorder, alloc: Global, everyday: bool, words: &[String]) {
    match grouping(alloc, everyday, words) {
        Ok(grouping) => {
            for tag in grouping.tags.items() {
                recorder.add(format_args!("{} ", tag.text()));
            }
            tell_perhaps_criteria(recorder, alloc, &grouping.criteria);
        }
        Err(misread) => tell_refused(recorder, misread),
    }
}

fn tell_counted(recorder: &mut Recorder, alloc: Global, words: &[String]) {
    match counting(alloc, true, words) {
        Ok(counting) => {
            tell_perhaps_criteria(recorder, alloc, &counting.criteria);
            if let Some(tag) = counting.group {
                recorder.add(format_args!(" by {}", tag.text()));
            }
        }
        Err(misread) => tell_refused(recorder, misread),
    }
}

fn tell_refused(recorder: &mut Recorder, misread: Misread) {
    match misread {
        Misread::WrongNumber => recorder.add("wrong number"),
        Misread::Bad(word) => recorder.add(format_args!("bad {}", word.as_str())),
        Misread::NoMemory => recorder.add("no memory"),
    }
}

fn tell_selection(recorder: &mut Recorder, alloc: Global, selection: &Selection) {
    tell_criteria(recorder, alloc, &selection.criteria);
    if let Some(sort) = selection.sort {
        let way = if sort.falling { "falling" } else { "rising" };
        recorder.add(format_args!(" {way} {}", sort.tag.text()));
    }
    if let Some(window) = selection.window {
        recorder.add(format_args!(" {}:{}", window.start, window.end));
    }
}

fn tell_position(recorder: &mut Recorder, position: Option<Position>) {
    match position {
        Some(Position::At(n)) => recorder.add(format_args!(" at {n}")),
        Some(Position::After(n)) => recorder.add(format_args!(" after {n}")),
        Some(Position::Before(n)) => recorder.add(format_args!(" before {n}")),
        None => {}
    }
}

fn tell_perhaps_criteria(recorder: &mut Recorder, alloc: Global, criteria: &Option<Criteria>) {
    match criteria {
        Some(criteria) => tell_criteria(recorder, alloc, criteria),
        None => recorder.add("all"),
    }
}

/// Adds a letter for each of two songs that meets a filter, `b` and `o`.
fn tell_criteria(recorder: &mut Recorder, alloc: Global, criteria: &Criteria) {
    match criteria {
        Criteria::Meeting(filter) => {
            recorder.add("songs ");
            tell_song(recorder, alloc, filter, "b", "Zo\u{eb}");
            tell_song(recorder, alloc, filter, "o", "Olm");
        }
        Criteria::Refused(text) => recorder.add(text.as_str()),
    }
}

fn tell_song(recorder: &mut Recorder, alloc: Global, filter: &Filter, uri: &str, artist: &str) {
    let tags = &[(TagName::Artist, artist), (TagName::Album, "One")];
    let Ok(song) = song(alloc, uri, tags, 16_000) else {
        return recorder.fail();
    };
    match filter.matches(&song, Case::Heeded) {
        Ok(true) => recorder.add(uri),
        Ok(false) => {}
        Err(_) => recorder.fail(),
    }
}

const FIND_AND_SEARCH: &str = "find|artist|Zo\u{eb} => songs b
find|(artist == 'Olm') => songs o
find|album|One|sort|Title => songs bo rising Title
find|album|One|sort|-dAtE|window|0:10 => songs bo falling Date 0:10
find|album|One|window|2:2 => songs bo 2:2
find|(album == 'One')|sort|AlbumArtistSort => songs bo rising AlbumArtistSort
find|(album == 'One')|window|1:2 => songs bo 1:2
search|album|n => songs bo
find|album|n => songs\u{20}
search|artist|lm|artist|O|sort|artist|window|5:6 => songs o rising Artist 5:6
find|composer|x => songs\u{20}
find|albumartist|Olm|sort|-Track => songs o falling Track
find|any|One|sort|disc => songs bo rising Disc
find|window|0:1|window|0:2 => unknown tag \"window\" 0:2
find|sort|a|sort|title => unknown tag \"sort\" rising Title
find|album|One|Sort|Title => unknown tag \"Sort\"
";

// The number of FILTER's words first, then the words of a wrong form from the left.
const FIND_REFUSES: &str = "find|album => wrong number
find|album|One|more => wrong number
find|album|window|0:1 => wrong number
find|album|sort|-nosuch|window|1 => wrong number
find|(album == 'One')|more|sort|nosuch => wrong number
find|artist|Zo\u{eb}|sort|-nosuch => bad -nosuch
find|artist|Zo\u{eb}|sort|- => bad -
find|artist|Zo\u{eb}|sort|--title => bad --title
find|artist|Zo\u{eb}|sort|file => bad file
find|artist|Zo\u{eb}|sort|nosuch|window|1 => bad nosuch
find|artist|Zo\u{eb}|sort|title|window|1 => bad 1
find|artist|Zo\u{eb}|sort|title|window|2:1 => bad 2:1
find|nosuch|x|sort|-no => bad -no
find|nosuch|x|sort|title => unknown tag \"nosuch\" rising Title
find|sort|title => unknown tag \"sort\"
find|window|0:1 => unknown tag \"window\"
find|artist|x|window|0:1|sort|title => unknown tag \"window\" rising Title
find|artist|x|position|0 => unknown tag \"position\"
";

const QUEUE: &str = "findadd|artist|Olm => songs o
findadd|artist|Olm|position|3 => songs o at 3
searchadd|artist|O|sort|-Title|window|0:5|position|+0 => songs o falling Title 0:5 after 0
searchadd|(album == 'One')|position|-7 => songs bo before 7
findadd|artist|Olm|position|x => bad x
findadd|artist|Olm|window|9|position|x => bad 9
findadd|artist|Olm|sort|no|window|9|position|x => bad no
findadd|artist|position|x => wrong number
findadd|position|3 => unknown tag \"position\"
searchaddpl|my list|artist|O => my list: songs o
searchaddpl||(album == 'One')|sort|genre|window|1:2 => : songs bo rising Genre 1:2
searchaddpl|my list => wrong number
searchaddpl|my list|artist => wrong number
searchaddpl|my list|artist|O|position|1 => my list: unknown tag \"position\"
searchaddpl|my list|artist|O|sort|-no => bad -no
";

const BASE: &str = "base find|artist|Olm => songs o
base find|artist|Olm|window|0:1 => songs o 0:1
base find|(artist == 'Olm')|window|0:1 => songs o 0:1
base find|(artist == 'Olm')|sort|title => bad sort
base find|artist|Olm|sort|title => unknown tag \"sort\"
base find|composer|x => unknown tag \"composer\"
base find|artist|Olm|window|1 => bad 1
base findadd|artist|Olm => songs o
base findadd|artist|x|position|0 => unknown tag \"position\"
base findadd|artist|x|window|0:1 => unknown tag \"window\"
base findadd|artist|x|more => wrong number
base list|COMMENT => Comment all
base list|artist|artist|Olm => Artist songs o
base list|Track => bad Track
base list|albumartist => bad albumartist
base list|Artist|albumartist|Olm => Artist unknown tag \"albumartist\"
";

const LIST_GROUPS: &str = "list|Title => Title all
list|title|artist|Olm => Title songs o
list|title|group|Artist => Title Artist all
list|title|group|Artist|group|ALBUM => Title Artist Album all
list|title|(album == 'One')|group|date => Title Date songs bo
list|title|artist|Olm|group|date => Title Date songs o
list|title|group|Artist|group|artist => bad artist
list|title|group|Title => bad Title
list|title|group|nosuch => bad nosuch
list|nosuch|group|other => bad nosuch
list|title|group|no|group|Title => bad no
list|title|group|Title|group|no => bad Title
list|nosuch|artist => wrong number
list|title|artist|group|no => wrong number
list|title|group|date|artist|Olm => Title unknown tag \"group\"
list|title|group|group|date => wrong number
list|title|Group|date => Title unknown tag \"Group\"
list|title|artist|Olm|sort|title => Title unknown tag \"sort\"
";

const LIST_ALBUMS: &str = "list|album|Olm => Album songs o
list|ALBUM|Zo\u{eb} => Album songs b
list|album|artist|Zo\u{eb} => Album songs b
list|album|group => Album songs\u{20}
list|album| => Album songs\u{20}
list|album|(artist == 'Zo\u{eb}') => Album songs b
list|album|( => Album bad filter at byte 1
list|album|Olm|group|artist => wrong number
list|title|Olm => wrong number
list|albumartist|Olm => wrong number
list|album => Album all
";

const COUNT: &str = "count|artist|Olm => songs o
count|(album == 'One')|group|artist => songs bo by Artist
count|group|Artist => all by Artist
count|group => wrong number
count|artist => wrong number
count|artist|group|no => wrong number
count|artist|Olm|group|no => bad no
count|group|no => bad no
count|group|a|group|artist => unknown tag \"group\" by Artist
count|nosuch|x|group|artist => unknown tag \"nosuch\" by Artist
";

// A line has 64 words after its command: all 31 tags, which are 61 words, and 30, 29 and 31 pairs with options.
const MOST_WORDS: &str =
    "list|Artist|group|ArtistSort|group|Album|group|AlbumSort|group|AlbumArtist|group|AlbumArtistSort|group|\
Title|group|Track|group|Name|group|Genre|group|Date|group|OriginalDate|group|Composer|group|ComposerSort|\
group|Performer|group|Conductor|group|Work|group|Ensemble|group|Movement|group|MovementNumber|group|Location|\
group|Grouping|group|Comment|group|Disc|group|Label|group|MUSICBRAINZ_ARTISTID|group|MUSICBRAINZ_ALBUMID|\
group|MUSICBRAINZ_ALBUMARTISTID|group|MUSICBRAINZ_TRACKID|group|MUSICBRAINZ_RELEASETRACKID|group|\
MUSICBRAINZ_WORKID => Artist ArtistSort Album AlbumSort AlbumArtist AlbumArtistSort Title Track Name Genre \
Date OriginalDate Composer ComposerSort Performer Conductor Work Ensemble Movement MovementNumber Location \
Grouping Comment Disc Label MUSICBRAINZ_ARTISTID MUSICBRAINZ_ALBUMID MUSICBRAINZ_ALBUMARTISTID \
MUSICBRAINZ_TRACKID MUSICBRAINZ_RELEASETRACKID MUSICBRAINZ_WORKID all
list|Artist|group|ArtistSort|group|Album|group|AlbumSort|group|AlbumArtist|group|AlbumArtistSort|group|Title|\
group|Track|group|Name|group|Genre|group|Date|group|OriginalDate|group|Composer|group|ComposerSort|group|\
Performer|group|Conductor|group|Work|group|Ensemble|group|Movement|group|MovementNumber|group|Location|group|\
Grouping|group|Comment|group|Disc|group|Label|group|MUSICBRAINZ_ARTISTID|group|MUSICBRAINZ_ALBUMID|group|\
MUSICBRAINZ_ALBUMARTISTID|group|MUSICBRAINZ_TRACKID|group|MUSICBRAINZ_RELEASETRACKID|group|MUSICBRAINZ_WORKID|\
group|Work => bad Work
find|album|One|album|One|album|One|album|One|album|One|album|One|album|One|album|One|album|One|album|One|\
album|One|album|One|album|One|album|One|album|One|album|One|album|One|album|One|album|One|album|One|album|One|\
album|One|album|One|album|One|album|One|album|One|album|One|album|One|album|One|album|One|sort|-Date|window|\
0:4294967295 => songs bo falling Date 0:4294967295
findadd|album|One|album|One|album|One|album|One|album|One|album|One|album|One|album|One|album|One|album|One|\
album|One|album|One|album|One|album|One|album|One|album|One|album|One|album|One|album|One|album|One|album|One|\
album|One|album|One|album|One|album|One|album|One|album|One|album|One|album|One|sort|Date|window|7:7|position|\
4294967295 => songs bo rising Date 7:7 at 4294967295
count|album|One|album|One|album|One|album|One|album|One|album|One|album|One|album|One|album|One|album|One|\
album|One|album|One|album|One|album|One|album|One|album|One|album|One|album|One|album|One|album|One|album|One|\
album|One|album|One|album|One|album|One|album|One|album|One|album|One|album|One|album|One|album|One|group|\
Album => songs bo by Album
find|album|One|window|0:4294967296 => bad 0:4294967296
";

const TABLES: &[&str] = &[
    FIND_AND_SEARCH,
    FIND_REFUSES,
    QUEUE,
    BASE,
    LIST_GROUPS,
    LIST_ALBUMS,
    COUNT,
    MOST_WORDS,
];

#[test]
fn what_words_ask_for(rt: HostRuntime) -> Result<(), Fail> {
    options_are_read_from_the_right();
    no_tag_is_there_twice();
    let alloc = rt.alloc();
    for table in TABLES {
        wants(observed_of(alloc, table), table)?;
    }
    Ok(())
}

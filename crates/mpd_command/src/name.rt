//! The names of commands.
ghost use Rattle.std.specs.Prelude.{◌≡◌, Option, map, position, slice_index_or};
ghost use Rattle.std.specs.Str.{bytes_eq};
ghost use Rattle.mpd_command.specs.Names.{all_names, is_added_name, is_forbidden as is_forbidden_lem, is_there as is_there_lem, letter_of as letter_of_lem, name_of, starts as starts_lem, text_of};

use crate::command_set::CommandSet;

/// All commands, in the byte order of their names.
#[derive(Clone, Copy)]
struct Commands {
    /// The name of each.
    names: &'static [&'static str],
    /// Whether the everyday profile adds it.
    added: &'static [bool],
}

const BASE: bool = false;

const ADDED: bool = true;

macro_rules! commands {
    ($($name:literal: $added:expr),* $(,)?) => {
        Commands { names: &[$($name),*], added: &[$($added),*] }
    };
}

/// The name of each command, in their byte order, and whether it is there always or the everyday profile
/// adds it.
#[rattlefmt::skip]
const COMMANDS: Commands = commands! {
    "add": BASE, "addid": BASE, "albumart": ADDED, "channels": BASE, "clear": BASE, "clearerror": BASE,
    "close": BASE, "commands": BASE, "consume": BASE, "count": BASE, "crossfade": BASE,
    "currentsong": BASE, "decoders": ADDED, "delete": BASE, "deleteid": BASE, "delpartition": BASE,
    "disableoutput": BASE, "enableoutput": BASE, "find": BASE, "findadd": BASE, "getvol": BASE,
    "idle": BASE, "kill": BASE, "list": BASE, "listall": BASE, "listallinfo": ADDED, "listmounts": ADDED,
    "listpartitions": BASE, "listplaylist": BASE, "listplaylistinfo": BASE, "listplaylists": BASE,
    "load": BASE, "lsinfo": BASE, "move": BASE, "moveid": BASE, "moveoutput": BASE, "newpartition": BASE,
    "next": BASE, "noidle": BASE, "notcommands": BASE, "outputs": BASE, "partition": BASE, "pause": BASE,
    "ping": BASE, "play": BASE, "playid": BASE, "playlist": ADDED, "playlistadd": BASE,
    "playlistclear": BASE, "playlistdelete": BASE, "playlistfind": ADDED, "playlistid": BASE,
    "playlistinfo": BASE, "playlistmove": BASE, "playlistsearch": ADDED, "plchanges": BASE,
    "plchangesposid": BASE, "previous": BASE, "prio": BASE, "prioid": BASE, "random": BASE,
    "readcomments": ADDED, "readmessages": BASE, "readpicture": ADDED, "rename": BASE, "repeat": BASE,
    "replay_gain_mode": ADDED, "replay_gain_status": ADDED, "rescan": BASE, "rm": BASE, "save": BASE,
    "search": BASE, "searchadd": BASE, "searchaddpl": ADDED, "seek": BASE, "seekcur": BASE,
    "seekid": BASE, "sendmessage": BASE, "setvol": BASE, "shuffle": BASE, "single": BASE, "stats": ADDED,
    "status": BASE, "sticker": BASE, "stop": BASE, "subscribe": BASE, "swap": BASE, "swapid": BASE,
    "tagtypes": BASE, "toggleoutput": BASE, "unsubscribe": BASE, "update": BASE, "urlhandlers": ADDED,
    "volume": ADDED,
};

/// How many names come before each letter, from `a` on, and before the character after `z`.
#[rattlefmt::skip]
const STARTS: &[usize] = &[
    0, 3, 3, 12, 17, 18, 20, 21, 21, 22, 22, 23, 33, 36, 40, 41, 60, 60, 70, 88, 90, 93, 94, 94, 94, 94, 94,
];

/// The names of all commands, in their byte order (MPD protocol reference, Command reference).
#[tactic(auto, unfolding(crate::specs::Names::all_names, crate::specs::Connection::rows, crate::specs::Connection::rows_from_notcommands, crate::specs::Database::rows, crate::specs::Database::rows_from_listall, crate::specs::Database::rows_from_rescan, crate::specs::Messages::rows, crate::specs::Options::rows, crate::specs::Options::rows_from_replay_gain_mode, crate::specs::Outputs::rows, crate::specs::Partitions::rows, crate::specs::Playback::rows, crate::specs::Playback::rows_from_seek, crate::specs::Playlists::rows, crate::specs::Playlists::rows_from_playlistadd, crate::specs::Queue::rows, crate::specs::Queue::rows_from_playlist, crate::specs::Queue::rows_from_prio, crate::specs::Status::rows, crate::specs::Stickers::rows,))]
pub fn names() -> &'static [&'static str]
    ensures { map (λ name. name.now) result.now ≡ all_names }
{
    COMMANDS.names
}

/// Whether the everyday profile adds the command of each name.
#[tactic(auto, unfolding(crate::specs::Names::all_names, crate::specs::Connection::rows, crate::specs::Connection::rows_from_notcommands, crate::specs::Database::rows, crate::specs::Database::rows_from_listall, crate::specs::Database::rows_from_rescan, crate::specs::Messages::rows, crate::specs::Options::rows, crate::specs::Options::rows_from_replay_gain_mode, crate::specs::Outputs::rows, crate::specs::Partitions::rows, crate::specs::Playback::rows, crate::specs::Playback::rows_from_seek, crate::specs::Playlists::rows, crate::specs::Playlists::rows_from_playlistadd, crate::specs::Queue::rows, crate::specs::Queue::rows_from_playlist, crate::specs::Queue::rows_from_prio, crate::specs::Status::rows, crate::specs::Stickers::rows,))]
fn added() -> &'static [bool]
    ensures { result.now ≡ map is_added_name all_names }
{
    COMMANDS.added
}

/// How many names come before each letter, from `a` on, and before the character after `z`.
#[tactic(auto, unfolding(crate::specs::Names::starts, crate::specs::Names::all_names, crate::specs::Connection::rows, crate::specs::Connection::rows_from_notcommands, crate::specs::Database::rows, crate::specs::Database::rows_from_listall, crate::specs::Database::rows_from_rescan, crate::specs::Messages::rows, crate::specs::Options::rows, crate::specs::Options::rows_from_replay_gain_mode, crate::specs::Outputs::rows, crate::specs::Partitions::rows, crate::specs::Playback::rows, crate::specs::Playback::rows_from_seek, crate::specs::Playlists::rows, crate::specs::Playlists::rows_from_playlistadd, crate::specs::Queue::rows, crate::specs::Queue::rows_from_playlist, crate::specs::Queue::rows_from_prio, crate::specs::Status::rows, crate::specs::Stickers::rows,))]
fn starts() -> &'static [usize]
    ensures { result.now ≡ starts_lem }
{
    STARTS
}

/// The name of a command: its index among all names.
#[derive(Clone, Copy, PartialEq, Eq)]
pub struct Name {
    index: usize,
}

impl Name {
    ghost use Rattle.std.specs.Prelude.{◌≡◌, Option};
    ghost use Rattle.mpd_command.specs.Names.{is_added_name, is_there as is_there_lem, name_of, text_of};

    /// The name that a word is, if it is one. Upper and lower case are two things.
    pub fn of_word(word: &str) -> Option<Name>
        ensures { result ≡ name_of word.now }
    {
        match index_of(word) {
            Some(index) => Some(Name { index }),
            None => None,
        }
    }

    /// The word of the command.
    pub fn text(self) -> &'static str
        ensures { result.now ≡ text_of self }
    {
        match names().get(self.index) {
            Some(name) => *name,
            None => "",
        }
    }

    /// Whether there is such a command: one that the everyday profile adds has to be asked for.
    pub(crate) fn is_there(self, set: CommandSet) -> bool
        ensures { result ≡ is_there_lem (text_of self) set }
    {
        set.everyday || !self.is_added()
    }

    /// Whether the everyday profile adds the command.
    fn is_added(self) -> bool
        ensures { result ≡ is_added_name (text_of self) }
    {
        match added().get(self.index) {
            Some(added) => *added,
            None => false,
        }
    }
}

/// The index of a word among all names. It is compared only with those that begin with its letter: each line
/// of a client is looked up here.
fn index_of(word: &str) -> Option<usize>
    ensures { result ≡ position (λ name. bytes_eq name word.now) all_names }
{
    let letter = letter_of(word);
    let start = start_of(letter);
    let texts = names().get(start..start_of(letter + 1))?;
    match index_among(texts, word) {
        Some(index) => Some(start + index),
        None => None,
    }
}

/// The letter that a word begins with, by its index from `a` on.
fn letter_of(word: &str) -> usize
    ensures { result ≡ letter_of_lem word.now }
{
    match word.as_bytes().first() {
        Some(first) => first.saturating_sub(b'a') as usize,
        None => 0,
    }
}

/// How many names come before a letter; none before what is no letter.
fn start_of(letter: usize) -> usize
    ensures { result ≡ slice_index_or starts_lem letter 0 }
{
    match starts().get(letter) {
        Some(start) => *start,
        None => 0,
    }
}

/// The index of a word among some texts.
fn index_among(texts: &[&'static str], word: &str) -> Option<usize>
    ensures { result ≡ position (λ text. bytes_eq text.now word.now) texts.now }
{
    texts.iter().position(|text| *text == word)
}

/// Whether there is a command of this name: one that the everyday profile adds has to be asked for.
pub fn is_there(name: &str, set: CommandSet) -> bool
    ensures { result ≡ is_there_lem name.now set }
{
    match Name::of_word(name) {
        Some(name) => name.is_there(set),
        None => true,
    }
}

/// Whether the command of this name may not be run: the settings have to allow `kill`.
pub fn is_forbidden(name: &str, set: CommandSet) -> bool
    ensures { result ≡ is_forbidden_lem name.now set }
{
    name == "kill" && !set.kill
}

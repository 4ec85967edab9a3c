//! The limits that a script may lower.
ghost use Rattle.std.specs.Prelude.{◌≡◌};
ghost use Rattle.script_lines.specs.Limits.{limit_text, greatest_of, limit_named, number_within as number_within_lem};

use mpd_text::number;

/// The greatest length of the queue, in songs.
pub const MAX_QUEUE: u32 = 16_384;

/// The greatest version of the queue.
pub const MAX_VERSION: u32 = 2_147_483_647;

/// The greatest id of a song in the queue.
pub const MAX_ID: u32 = 2_147_483_647;

/// The greatest number of cuts, starts and jobs that a script can set, since its words say no greater number.
pub const MAX_CUT: u32 = u32::MAX;

/// The greatest number of events that a player keeps one by one.
pub const MAX_HISTORY: u32 = 4_096;

/// The everyday profile is on, or it is not named.
pub const EVERYDAY: u32 = 1;

/// A limit that a script may lower.
#[derive(Clone, Copy, Debug, PartialEq, Eq)]
pub enum LimitName {
    /// How many songs the queue may hold.
    MaxQueue,
    /// The greatest version of the queue.
    MaxVersion,
    /// The greatest id of a song in the queue.
    MaxId,
    /// How many cuts, how many starts and how many jobs a player may make.
    MaxCut,
    /// How many events of its history a player keeps one by one.
    History,
    /// That the commands and forms of the everyday profile are there.
    Everyday,
}

const LIMITS: [LimitName; 6] = [
    LimitName::MaxQueue,
    LimitName::MaxVersion,
    LimitName::MaxId,
    LimitName::MaxCut,
    LimitName::History,
    LimitName::Everyday,
];

impl LimitName {
    /// The limit of a name. Upper and lower case are two things.
    #[tactic(auto, unfolding(crate::specs::Limits::limit_named))]
    pub fn of_word(word: &str) -> Option<LimitName>
        ensures { result ≡ limit_named word.now }
    {
        LIMITS.iter().copied().find(|name| name.text() == word)
    }

    /// The greatest value that the limit may have; the least is 1.
    pub fn greatest(self) -> u32
        ensures { result ≡ greatest_of self }
    {
        match self {
            LimitName::MaxQueue => MAX_QUEUE,
            LimitName::MaxVersion => MAX_VERSION,
            LimitName::MaxId => MAX_ID,
            LimitName::MaxCut => MAX_CUT,
            LimitName::History => MAX_HISTORY,
            LimitName::Everyday => EVERYDAY,
        }
    }

    fn text(self) -> &'static str
        ensures { result.now ≡ limit_text self }
    {
        match self {
            LimitName::MaxQueue => "max_queue",
            LimitName::MaxVersion => "max_version",
            LimitName::MaxId => "max_id",
            LimitName::MaxCut => "max_cut",
            LimitName::History => "history",
            LimitName::Everyday => "everyday",
        }
    }
}

/// A number from 1 up to the greatest.
#[tactic(auto, unfolding(crate::specs::Limits::number_within))]
pub(crate) fn number_within(word: &str, greatest: u32) -> Option<u32>
    ensures { result ≡ number_within_lem greatest word.now }
{
    number(word).filter(|n| (1..=greatest).contains(n))
}

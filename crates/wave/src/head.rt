//! What a file says of itself.
ghost use Rattle.std.specs.Prelude.{◌≡◌, ◌+◌, ◌*◌, ◌^◌, ◌<◌};
ghost use Rattle.pcm_mix.specs.Layouts.{width, count};
ghost use Rattle.wave.specs.Formats.{block};

use crate::format::Layout;
use mpd_text::Tag;

/// How the samples of a file lie, how many frames there are and where, and the file's tags.
#[derive(Drop)]
pub struct Head {
    pub(crate) layout: Layout,
    pub(crate) frames: u64,
    pub(crate) tags: Vec<Tag>,
    pub(crate) offset: u64,
    ghost ends: { offset + frames * block layout < 2 ^ 64 },
}

impl Head {
    /// How samples lie in the data.
    pub fn layout(&self) -> Layout
        ensures { result ≡ self.now.layout }
    {
        self.layout
    }

    /// How many channels there are: 1 or 2.
    pub fn channels(&self) -> usize
        ensures { result ≡ count self.now.layout.channels }
    {
        self.layout.channels.count()
    }

    /// How many bits a sample has: 8, 16 or 24.
    pub fn bits(&self) -> usize
        ensures { result ≡ 8 * width self.now.layout.depth }
    {
        8 * self.layout.depth.width()
    }

    /// How many whole frames there are.
    pub fn frames(&self) -> u64
        ensures { result ≡ self.now.frames }
    {
        self.frames
    }

    /// The tags, each once and in the order of answers.
    pub fn tags(&self) -> &[Tag]
        ensures { result.now ≡ self.now.tags.items }
    {
        self.tags.as_slice()
    }

    /// The tags alone, for a song of the library. Takes no memory.
    pub fn into_tags(self) -> Vec<Tag>
        ensures { result ≡ self.tags }
    {
        let Head { tags, .. } = self;
        tags
    }

    /// Where the first frame begins, in bytes from the start of the file.
    pub fn offset(&self) -> u64
        ensures { result ≡ self.now.offset }
    {
        self.offset
    }
}

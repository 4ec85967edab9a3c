//! The first texts of lists, and the tags that they give.
ghost use Rattle.std.specs.Prelude.{◌≡◌, ◌++◌, IfOk, OnOk};
ghost use Rattle.mpd_text.specs.Songs.Tags.{tag_with};
ghost use Rattle.wave.specs.Found.{no_texts, put, base_listed, first_six, last_four, listed, shown};

use crate::tag::ItemName;
use id3_tags::Id3Texts;
use mpd_text::{Tag, TagName, Text};
use std::alloc::{AllocError, Global};

/// The first text of each name of items.
#[derive(Drop)]
pub(crate) struct Texts {
    inam: Option<Text>,
    iart: Option<Text>,
    iprd: Option<Text>,
    icrd: Option<Text>,
    ignr: Option<Text>,
    icmt: Option<Text>,
    itrk: Option<Text>,
    iprt: Option<Text>,
    imus: Option<Text>,
}

impl Texts {
    ghost use Rattle.wave.specs.Found.{no_texts, put, base_listed, listed};

    /// No text of any name.
    pub(crate) fn none() -> Texts
        ensures { result ≡ no_texts }
    {
        Texts {
            inam: None,
            iart: None,
            iprd: None,
            icrd: None,
            ignr: None,
            icmt: None,
            itrk: None,
            iprt: None,
            imus: None,
        }
    }

    /// These with one more, which counts only where there is none of its name.
    pub(crate) fn with(mut self, name: ItemName, text: Text) -> Texts
        ensures { result ≡ put name text self }
    {
        match name {
            ItemName::Inam => self.inam = self.inam.or(Some(text)),
            ItemName::Iart => self.iart = self.iart.or(Some(text)),
            ItemName::Iprd => self.iprd = self.iprd.or(Some(text)),
            ItemName::Icrd => self.icrd = self.icrd.or(Some(text)),
            ItemName::Ignr => self.ignr = self.ignr.or(Some(text)),
            ItemName::Icmt => self.icmt = self.icmt.or(Some(text)),
            ItemName::Itrk => self.itrk = self.itrk.or(Some(text)),
            ItemName::Iprt => self.iprt = self.iprt.or(Some(text)),
            ItemName::Imus => self.imus = self.imus.or(Some(text)),
        }
        self
    }

    /// The tags of the base profile, in the order of answers.
    pub(crate) fn into_base_tags(self, alloc: Global) -> Result<Vec<Tag>, AllocError>
        ensures { IfOk result (λ tags. tags.items ≡ base_listed self) }
    {
        let mut tags = Vec::new(alloc);
        add(&mut tags, TagName::Title, self.inam)?;
        add(&mut tags, TagName::Artist, self.iart)?;
        add(&mut tags, TagName::Album, self.iprd)?;
        add(&mut tags, TagName::Date, self.icrd)?;
        add(&mut tags, TagName::Genre, self.ignr)?;
        add(&mut tags, TagName::Comment, self.icmt)?;
        Ok(tags)
    }

    /// The tags of the everyday profile, in the order of answers. The texts of an ID3v2 tag go before these.
    pub(crate) fn into_everyday_tags(
        self,
        alloc: Global,
        id3: Id3Texts,
    ) -> Result<Vec<Tag>, AllocError>
        ensures { IfOk result (λ tags. tags.items ≡ listed id3 self) }
    {
        let mut tags = Vec::new(alloc);
        add(&mut tags, TagName::Title, id3.title.or(self.inam))?;
        add(&mut tags, TagName::Artist, id3.artist.or(self.iart))?;
        add(&mut tags, TagName::Album, id3.album.or(self.iprd))?;
        add(&mut tags, TagName::Date, id3.date.or(self.icrd))?;
        add(&mut tags, TagName::Genre, id3.genre.or(self.ignr))?;
        add(&mut tags, TagName::Comment, id3.comment.or(self.icmt))?;
        add(&mut tags, TagName::AlbumArtist, id3.album_artist)?;
        let track = self.itrk.or(self.iprt);
        add(&mut tags, TagName::Track, id3.track.or(track))?;
        add(&mut tags, TagName::Disc, id3.disc)?;
        add(&mut tags, TagName::Composer, id3.composer.or(self.imus))?;
        Ok(tags)
    }
}

/// Appends the tag with this text, if there is one.
fn add(tags: &mut Vec<Tag>, name: TagName, text: Option<Text>) -> Result<(), AllocError>
    ensures { OnOk result (tags.new.items ≡ tags.old.items ++ shown (tag_with name text)) }
{
    if let Some(text) = text {
        tags.push(Tag::new(name, text.into_string()))?;
    }
    Ok(())
}

//! The set of tags that a client wants to see (MPD protocol reference, Connection settings: `tagtypes`).
ghost use Rattle.std.specs.Prelude.{◌≡◌, ◌<◌, ◌↔◌, ◌^◌, ◌-◌, [], IsTrue};
ghost use Rattle.mpd_text.specs.Songs.Tags.{base_tag_names, tag_names, tag_number};
ghost use Rattle.known_tags.specs.Bits.{is_set, members};
ghost use Rattle.known_tags.specs.Sets.{has, is_all, joined, left, joined_by, left_by, enabled, disabled};

use crate::known_tag::KnownTag;
use mpd_text::TagName;
use std::marker::Model;

/// A set of the ten tags of songs. A clause sees its tags, in the order in which answers show them.
#[derive(Clone, Copy, PartialEq, Eq)]
pub struct TagSet {
    pub(crate) bits: u16,
}

impl Model for TagSet {
    ghost use Rattle.std.specs.Prelude.{◌<◌, List};
    ghost use Rattle.mpd_text.specs.declared.songs.song.TagName.{TagName};

    ghost Value = { List TagName };

    ghost use Rattle.known_tags.specs.Bits.{members, bits_of, bits_of-members};

    ghost view = { λ s. members s.bits };

    ghost invariant = { λ s. s.bits < 1024 };

    ghost inverse = { λ tags. record { bits = bits_of tags } };

    ghost inverse_ok = { λ s below i. record { bits = bits_of-members s.bits below i } };
}

impl TagSet {
    /// The set of all tags, which a client has when it connects.
    pub fn all() -> TagSet
        ensures { result ≡ tag_names }
    {
        TagSet { bits: 1023 }
    }

    /// The set of the six tags of the base profile.
    pub fn base() -> TagSet
        ensures { result ≡ base_tag_names }
    {
        TagSet { bits: 63 }
    }

    /// The empty set.
    pub fn empty() -> TagSet
        ensures { result ≡ [] }
    {
        TagSet { bits: 0 }
    }

    /// Whether all tags are in the set.
    pub fn is_all(self) -> bool
        ensures value { result ≡ is_all self }
        ensures all { IsTrue result ↔ (self ≡ tag_names) }
    {
        self.bits == 1023
    }

    /// Whether a tag is in the set.
    pub fn holds(self, name: TagName) -> bool
        ensures { result ≡ has name self }
    {
        is_among(self.bits, name)
    }

    /// The set with one more tag.
    pub fn with(self, name: TagName) -> TagSet
        ensures { result ≡ joined name self }
    {
        TagSet {
            bits: bits_with(self.bits, name),
        }
    }

    /// The set without a tag.
    pub fn without(self, name: TagName) -> TagSet
        ensures { result ≡ left name self }
    {
        TagSet {
            bits: bits_without(self.bits, name),
        }
    }

    /// The set after `tagtypes enable NAME..`: those of the ten that are named join it.
    pub fn enable(self, named: &[KnownTag]) -> TagSet
        ensures { result ≡ enabled named.now self }
    {
        let mut bits = self.bits;
        for tag in named {
            bits = bits_with_known(bits, *tag);
        }
        TagSet { bits }
    }

    /// The set after `tagtypes disable NAME..`: those of the ten that are named leave it.
    pub fn disable(self, named: &[KnownTag]) -> TagSet
        ensures { result ≡ disabled named.now self }
    {
        let mut bits = self.bits;
        for tag in named {
            bits = bits_without_known(bits, *tag);
        }
        TagSet { bits }
    }
}

/// The bit of a tag, by its index in the order.
fn bit(name: TagName) -> u16
    ensures bit { result ≡ 2 ^ tag_number name }
    ensures small { result < 1024 }
{
    match name {
        TagName::Title => 1,
        TagName::Artist => 2,
        TagName::Album => 4,
        TagName::Date => 8,
        TagName::Genre => 16,
        TagName::Comment => 32,
        TagName::AlbumArtist => 64,
        TagName::Track => 128,
        TagName::Disc => 256,
        TagName::Composer => 512,
    }
}

/// Whether the bit of a tag is set.
pub(crate) fn is_among(bits: u16, name: TagName) -> bool
    ensures { result ≡ is_set bits name }
{
    bits & bit(name) != 0
}

fn bits_with(bits: u16, name: TagName) -> u16
    requires { bits < 1024 }
    ensures members { members result ≡ joined name (members bits) }
    ensures small { result < 1024 }
{
    bits | bit(name)
}

fn bits_without(bits: u16, name: TagName) -> u16
    requires { bits < 1024 }
    ensures members { members result ≡ left name (members bits) }
    ensures small { result < 1024 }
{
    bits & (1023 - bit(name))
}

fn bits_with_known(bits: u16, tag: KnownTag) -> u16
    requires { bits < 1024 }
    ensures members { members result ≡ joined_by tag (members bits) }
    ensures small { result < 1024 }
{
    match tag.base() {
        Some(name) => bits_with(bits, name),
        None => bits,
    }
}

fn bits_without_known(bits: u16, tag: KnownTag) -> u16
    requires { bits < 1024 }
    ensures members { members result ≡ left_by tag (members bits) }
    ensures small { result < 1024 }
{
    match tag.base() {
        Some(name) => bits_without(bits, name),
        None => bits,
    }
}

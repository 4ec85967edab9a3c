//! Fades: whether another song is mixed into the end of the current one, and from where.
ghost use Rattle.std.specs.Prelude.{◌≡◌, ◌<◌, ◌≤◌};
ghost use Rattle.std.specs.Option.{option_copied, ForSome};
ghost use Rattle.player_core.specs.Decoding as decoding;

use crate::player::Player;
use crate::player::entries::is_entry_with;
use crate::state::{Fade, FadePart};
use song_queue::Entry;

impl Player {
    fn can_fade(&self, entry: &Entry, next: &Entry) -> bool
        ensures { result ≡ decoding.can_fade self.now entry.now next.now }
    {
        self.crossfade != 0 && !self.gave_up && self.fade.is_none() && next.id != entry.id
    }

    /// Where a fade into the next entry would begin.
    fn fade_offset(&self, rate: u32, entry: &Entry, next: &Entry) -> u64
        ensures offset { result ≡ decoding.fade_offset rate self.now entry.now next.now }
        ensures within { result ≤ entry.now.song.frames }
    {
        let frames = entry.song.song().frames();
        frames - fade_len(rate, self.crossfade, frames, next)
    }

    /// How far a job may go: to the song's end, or to where a fade would begin.
    pub(super) fn reach(&self, rate: u32, entry: &Entry, next: Option<&Entry>) -> u64
        requires { self.now.offset < entry.now.song.frames }
        ensures end { result ≡ decoding.reach rate self.now entry.now (option_copied next.entry) }
        ensures ahead { self.now.offset < result }
    {
        match next {
            None => entry.song.song().frames(),
            Some(next) => {
                let offset = self.fade_offset(rate, entry, next);
                if self.can_fade(entry, next) && self.offset < offset {
                    offset
                } else {
                    entry.song.song().frames()
                }
            }
        }
    }

    /// Fixes a fade whose offset is reached.
    pub(super) fn fix_fade(&mut self, rate: u32, entry: &Entry, next: Option<&Entry>)
        requires { self.old.offset < entry.now.song.frames }
        ensures { self.new ≡ decoding.faded rate self.old entry.now (option_copied next.entry) }
    {
        if let Some(next) = next {
            if self.can_fade(entry, next) && self.fade_offset(rate, entry, next) <= self.offset {
                let left = entry.song.song().frames() - self.offset;
                let len = fade_len(rate, self.crossfade, left, next);
                self.fade = Some(Fade {
                    partner: next.id,
                    len,
                });
            }
        }
    }

    /// The part of a fade that begins at the player's offset.
    pub(super) fn part_of_fade(&self, entry: &Entry) -> Option<FadePart>
        ensures part { result ≡ decoding.part_of self.now entry.now self.now.fade }
        ensures within { ForSome result (λ part. part.index ≤ self.now.offset) }
    {
        match self.fade {
            None => None,
            Some(fade) => Some(FadePart {
                partner: fade.partner,
                index: self
                    .offset
                    .saturating_sub(entry.song.song().frames().saturating_sub(fade.len)),
                len: fade.len,
            }),
        }
    }

    /// Gives up a fade into what is no longer next.
    pub(super) fn check_fade(&mut self, next: Option<&Entry>)
        ensures { self.new ≡ decoding.checked self.old (option_copied next.entry) self.old.fade }
    {
        if let Some(fade) = self.fade {
            if !is_entry_with(next, fade.partner) {
                self.give_up_fade();
            }
        }
    }
}

/// The frames of a fade into a partner, where so many are left.
fn fade_len(rate: u32, seconds: u32, left: u64, partner: &Entry) -> u64
    ensures { result ≡ decoding.fade_len rate seconds left partner.now }
{
    (rate as u64 * seconds as u64)
        .min(left)
        .min(partner.song.song().frames())
}

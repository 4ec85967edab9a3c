//! Byte order of URIs, each once.
ghost use Rattle.std.specs.Prelude.{◌≤◌, length, All};
ghost use Rattle.std.specs.List.{Contains};
ghost use Rattle.mpd_text.specs.Songs.Song.{SongData};
ghost use Rattle.song_db.specs.Library.{InByteOrder};
ghost use Rattle.library_scan.specs.Faults.{unread_in};
ghost use Rattle.library_scan.specs.Scans.{KeepsEachUri, RefusedInOrder};
ghost use Rattle.library_scan.specs.declared.scanned.Refused.{Refused};

use crate::scanned::Refused;
use mpd_text::Song;

/// Puts songs in byte order of URI, and keeps one of each URI. A folder that changes while it is listed may
/// tell a name twice.
pub(crate) fn sort_songs(songs: &mut Vec<Song>)
    ensures order { InByteOrder songs.new.items }
    ensures among { All (Contains songs.old.items) songs.new.items }
    ensures each { KeepsEachUri (λ (song : SongData). song.uri) songs.old.items songs.new.items }
    ensures few { length songs.new.items ≤ length songs.old.items }
{
    songs.sort_unstable_by(|a, b| a.uri().cmp(b.uri()));
    songs.dedup_by(|a, b| a.uri() == b.uri());
}

/// Puts refused files in byte order of URI, and keeps one of each URI.
pub(crate) fn sort_refused(refused: &mut Vec<Refused>)
    ensures order { RefusedInOrder refused.new.items }
    ensures among { All (Contains refused.old.items) refused.new.items }
    ensures each { KeepsEachUri (λ (file : Refused). file.uri) refused.old.items refused.new.items }
    ensures unread { unread_in refused.new.items ≤ unread_in refused.old.items }
{
    refused.sort_unstable_by(|a, b| a.uri.as_str().cmp(b.uri.as_str()));
    refused.dedup_by(|a, b| a.uri.as_str() == b.uri.as_str());
}

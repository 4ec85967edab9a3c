//! Whether an event makes the songs of a library others.
ghost use Rattle.std.specs.Prelude.{◌≡◌, not};
ghost use Rattle.player_state.specs.Libraries.{same_songs as same_songs_lem, songs_after};

use player_state::{Library, ScanMove, same_songs};
use transitions::Transition;

/// Whether a transition changes the songs of a library.
#[tactic(auto, using(player_state::proofs::Songs::unchanged))]
pub fn changes_songs(transition: &Transition, library: &Library) -> bool
    ensures { result ≡ not (same_songs_lem library.now.songs (songs_after library.now transition.now.scan)) }
{
    let ScanMove::End(Some(songs), _) = &transition.scan else {
        return false;
    };
    if library.scan.running().is_none() {
        return false;
    }
    !same_songs(library.songs.db().songs(), songs.db().songs())
}

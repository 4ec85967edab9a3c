//! The laws of stored playlists. A caller that calls one may use it; each does nothing.
ghost use Rattle.library_laws.specs.Playlists.{EntriesAreMoved, EntriesAreTakenOut, FoundSongsJoinLists, ListsAreCleared, ListsAreRemoved, ListsAreRenamed, ListsAreShown, QueuesAreSaved, SavedAreLoaded, SongsAreAddedToLists};

/// What `save` kept is what `listplaylist` shows and what `load` adds: the queue's songs, in their order.
pub fn saved_lists_are_loaded()
    ensures saved { QueuesAreSaved }
    ensures shown { ListsAreShown }
    ensures loaded { SavedAreLoaded }
{}

/// `rename` moves a list whole, `rm` takes it away and `playlistclear` empties it; each leaves all other lists as
/// they were.
pub fn lists_are_kept_whole()
    ensures renamed { ListsAreRenamed }
    ensures removed { ListsAreRemoved }
    ensures cleared { ListsAreCleared }
{}

/// `playlistadd` and `searchaddpl` make a list longer by a song or by those that `search` shows, `playlistdelete`
/// takes one entry out and `playlistmove` puts it at another position; the other entries stay in their order, and all
/// other lists as they were.
pub fn entries_stay_in_order()
    ensures added { SongsAreAddedToLists }
    ensures joined { FoundSongsJoinLists }
    ensures taken { EntriesAreTakenOut }
    ensures moved { EntriesAreMoved }
{}

//! Texts in byte order, each once.
ghost use Rattle.std.specs.Prelude.{◌≡◌, ◌↔◌, ℕ, List};
ghost use Rattle.std.specs.List.{Contains};
ghost use Rattle.std.specs.List.Sorted.{IsStrictlySortedBy};
ghost use Rattle.mpd_text.specs.Texts.{by_bytes, ascending, values_now};

/// The law that `ascending` is the list of the texts of a list in byte order, each before all that follow it.
pub fn ascending_has_each_once()
    ensures order { (texts : List (List ℕ)) → IsStrictlySortedBy by_bytes (ascending texts) }
    ensures texts { (texts : List (List ℕ)) (text : List ℕ) → Contains (ascending texts) text ↔ Contains texts text }
{}

/// Puts texts in byte order, and keeps each once.
pub fn sort_once(texts: &mut Vec<&str>)
    ensures { values_now texts.new.items ≡ ascending (values_now texts.old.items) }
{
    texts.sort_unstable();
    texts.dedup();
}

//! The first key for which a table is refused.
ghost use Rattle.std.specs.Prelude.{◌≡◌, [], Some, MatchOption};
ghost use Rattle.settings.specs.Keys.{absent, bad, settings_keys};
ghost use Rattle.settings.specs.Refusals.{IsFirst, IsRefusedFor, IsTaken};
ghost use Rattle.toml.specs.View.{table_view};

use crate::keys::{has, is_good};
use toml::Table;

/// The key for which the table is refused: the first bad one, or else the first absent one.
pub(crate) fn first_fault(table: &Table) -> Option<&str>
    ensures { let entries = table_view table.now in
        MatchOption result (IsTaken entries) (λ name. IsRefusedFor (Some entries) name.now) }
{
    match first_bad(table) {
        Some(name) => Some(name),
        None => first_absent(table),
    }
}

/// The first bad key. The table goes through its keys in byte order.
fn first_bad(table: &Table) -> Option<&str>
    ensures { let names = bad settings_keys (table_view table.now) in
        MatchOption result (names ≡ []) (λ name. IsFirst names name.now) }
{
    'members: for (name, value) in table.iter() {
        if !is_good(name.as_str(), value) {
            return Some(name.as_str());
        }
    }
    None
}

/// The first key that must be there and is not.
fn first_absent(table: &Table) -> Option<&'static str>
    ensures { let names = absent settings_keys (table_view table.now) in
        MatchOption result (names ≡ []) (λ name. IsFirst names name.now) }
{
    if !has(table, "listen") {
        return Some("listen");
    }
    if !has(table, "music") {
        return Some("music");
    }
    None
}

//! Which keys a table may have, and which values may be there.
ghost use Rattle.std.specs.Prelude.{◌≡◌, ◌≤◌, is_some, option_map};
ghost use Rattle.std.specs.List.{list_any};
ghost use Rattle.std.specs.Str.{bytes_eq};
ghost use Rattle.settings.specs.Keys as keys;
ghost use Rattle.settings.specs.Keys.{bad, output_keys, settings_keys};
ghost use Rattle.toml.specs.Data.{get_member};
ghost use Rattle.toml.specs.View.{array_view, items_view, table_view, view};

use toml::value::Array;
use toml::{Table, Value};

/// The numbers that a key takes, and the one that stands for it where it is left out.
#[derive(Clone, Copy)]
pub(crate) struct Span {
    pub(crate) least: u32,
    pub(crate) most: u32,
    pub(crate) default: u32,
    ghost above: { least ≤ default },
    ghost below: { default ≤ most },
}

pub(crate) const HISTORY: Span = Span {
    least: 1,
    most: 65_536,
    default: 4_096,
};

pub(crate) const RATE: Span = Span {
    least: 8_000,
    most: 192_000,
    default: 44_100,
};

pub(crate) const RING: Span = Span {
    least: 1_024,
    most: 65_536,
    default: 8_192,
};

/// The least and the most of a number that no other stands for where it is left out.
pub(crate) const LEAST_PATIENCE: u32 = 1;

pub(crate) const MOST_PATIENCE: u32 = 86_400;

/// Whether settings have this key, and it takes the value.
pub(crate) fn is_good(name: &str, value: &Value) -> bool
    ensures { result ≡ keys.is_good settings_keys name.now (view value.now) }
{
    match name {
        "everyday" | "kill" => value.is_bool(),
        "history" => is_number(value, HISTORY.least, HISTORY.most),
        "listen" | "music" | "shelf" | "state" => value.is_str(),
        "output" => are_outputs(value),
        "random_start" => natural(value).is_some(),
        "rate" => is_number(value, RATE.least, RATE.most),
        "ring" => is_number(value, RING.least, RING.most),
        _ => false,
    }
}

/// Whether an output has this key, and it takes the value.
fn is_good_output(name: &str, value: &Value) -> bool
    ensures { result ≡ keys.is_good output_keys name.now (view value.now) }
{
    match name {
        "name" => is_line(value),
        "path" => value.is_str(),
        "enabled" => value.is_bool(),
        "patience" => is_number(value, LEAST_PATIENCE, MOST_PATIENCE),
        _ => false,
    }
}

/// Whether the value is a text without a line feed.
fn is_line(value: &Value) -> bool
    ensures { result ≡ keys.is_line (view value.now) }
{
    match value.as_str() {
        Some(text) => !text.as_bytes().contains(&b'\n'),
        None => false,
    }
}

/// The whole number that the value is, where it is one of 0 or above.
pub(crate) fn natural(value: &Value) -> Option<u64>
    ensures { result ≡ keys.natural (view value.now) }
{
    match value.as_integer() {
        Some(number) => u64::try_from(number).ok(),
        None => None,
    }
}

fn is_number(value: &Value, least: u32, most: u32) -> bool
    ensures { result ≡ keys.is_number least most (view value.now) }
{
    match natural(value) {
        Some(number) => u64::from(least) <= number && number <= u64::from(most),
        None => false,
    }
}

/// Whether the value is an array of at most 8 outputs, each of another name.
#[tactic(auto, using(crate::proofs::Taken::item_count_of_view))]
fn are_outputs(value: &Value) -> bool
    ensures { result ≡ keys.are_outputs (view value.now) }
{
    match value.as_array() {
        Some(items) => items.len() <= 8 && each_output(items) && have_own_names(items),
        None => false,
    }
}

fn each_output(items: &Array) -> bool
    ensures { result ≡ keys.each_output (array_view items.now) }
{
    'items: for item in items {
        if !is_output(item) {
            return false;
        }
    }
    true
}

/// Whether no two of the outputs have the same name.
#[tactic(auto, using(crate::proofs::Names::any_of_names))]
fn have_own_names(outputs: &[Value]) -> bool
    ensures { result ≡ keys.all_differ (keys.names_of (items_view outputs.now)) }
{
    let mut rest = outputs;
    'outputs: while let Some((output, others)) = rest.split_first() {
        if has_named(others, name_of(output)) {
            return false;
        }
        rest = others;
    }
    true
}

/// Whether one of the outputs has this name.
fn has_named(outputs: &[Value], name: &str) -> bool
    ensures { result ≡ list_any (λ output. bytes_eq name.now (keys.name_of (view output))) outputs.now }
{
    outputs.iter().any(|output| name == name_of(output))
}

/// The name of an output; empty where it has none.
fn name_of(output: &Value) -> &str
    ensures { result.now ≡ keys.name_of (view output.now) }
{
    match output.get("name") {
        Some(name) => name.as_str().unwrap_or(""),
        None => "",
    }
}

/// Whether the value is a table with the keys of an output, and no other.
fn is_output(value: &Value) -> bool
    ensures { result ≡ keys.is_output (view value.now) }
{
    match value.as_table() {
        Some(table) => has_good_output(table) && has(table, "name") && has(table, "path"),
        None => false,
    }
}

fn has_good_output(table: &Table) -> bool
    ensures { result ≡ keys.are_none (bad output_keys (table_view table.now)) }
{
    'members: for (name, value) in table.iter() {
        if !is_good_output(name.as_str(), value) {
            return false;
        }
    }
    true
}

/// Whether the table has this key.
pub(crate) fn has(table: &Table, name: &str) -> bool
    ensures { result ≡ is_some (get_member name.now (table_view table.now)) }
{
    value_at(table, name).is_some()
}

/// The value at a key.
pub(crate) fn value_at<'a>(table: &'a Table, name: &str) -> Option<&'a Value>
    ensures { option_map (λ value. view value.now) result ≡ get_member name.now (table_view table.now) }
{
    table.get(name)
}

//! What is read of a table that is taken.
ghost use Rattle.std.specs.Prelude.{◌≡◌, ◌≤◌, Some, string_bytes, true, IfOk, IfSome, IsSome, vec_len};
ghost use Rattle.settings.specs.Keys.{are_outputs, each_output, is_flag, is_natural, is_number, is_output, is_text, stands_for};
ghost use Rattle.settings.specs.Values.{AreOutputs, AreOutputsAt, HaveOwnNames, IsNumberAt, IsOutput, IsNumberOrNoneAt, IsTextAt, IsTextOrNoneAt, PassesAt, found_at};
ghost use Rattle.toml.specs.Data.{boolean, get_member};
ghost use Rattle.toml.specs.View.{array_view, table_view, view};

use crate::keys::{LEAST_PATIENCE, MOST_PATIENCE, Span, natural, value_at};
use crate::values::OutputSettings;
use std::alloc::{AllocError, Global};
use toml::value::Array;
use toml::{Table, Value};

/// The text at a key that is there.
pub(crate) fn text_at(alloc: Global, table: &Table, name: &str) -> Result<String, AllocError>
    requires there { IsSome (get_member name.now (table_view table.now)) }
    requires good { PassesAt is_text name.now (table_view table.now) }
    ensures { IfOk result (λ text. IsTextAt name.now (table_view table.now) (string_bytes text)) }
{
    match text_perhaps(alloc, table, name)? {
        Some(text) => Ok(text),
        None => unreachable!(),
    }
}

/// The text at a key that may be left out.
pub(crate) fn text_perhaps(
    alloc: Global,
    table: &Table,
    name: &str,
) -> Result<Option<String>, AllocError>
    requires { PassesAt is_text name.now (table_view table.now) }
    ensures { IfOk result (λ text. IsTextOrNoneAt name.now (table_view table.now) text) }
{
    let Some(value) = value_at(table, name) else {
        return Ok(None);
    };
    let Some(text) = value.as_str() else {
        unreachable!()
    };
    Ok(Some(String::from_str(alloc, text)?))
}

/// The whole number at a key, or 0 where it is left out.
pub(crate) fn natural_at(table: &Table, name: &str) -> u64
    requires { PassesAt is_natural name.now (table_view table.now) }
    ensures { IsNumberAt name.now (table_view table.now) 0 result }
{
    match value_at(table, name) {
        Some(value) => natural(value).unwrap_or(0),
        None => 0,
    }
}

/// The number at a key, or the one that stands for it.
pub(crate) fn number_at(table: &Table, name: &str, span: Span) -> u32
    requires { PassesAt (is_number span.least span.most) name.now (table_view table.now) }
    ensures value { IsNumberAt name.now (table_view table.now) span.default result }
    ensures range { (span.least ≤ result) × (result ≤ span.most) }
{
    let Some(value) = value_at(table, name) else {
        return span.default;
    };
    let Some(number) = natural(value) else {
        unreachable!()
    };
    number as u32
}

/// The number at a key that may be left out.
fn number_perhaps(table: &Table, name: &str, least: u32, most: u32) -> Option<u32>
    requires { PassesAt (is_number least most) name.now (table_view table.now) }
    ensures value { IsNumberOrNoneAt name.now (table_view table.now) result }
    ensures range { IfSome result (λ n. (least ≤ n) × (n ≤ most)) }
{
    let Some(value) = value_at(table, name) else {
        return None;
    };
    let Some(number) = natural(value) else {
        unreachable!()
    };
    Some(number as u32)
}

/// The truth at a key, or the one that stands for it.
pub(crate) fn flag_at(table: &Table, name: &str, default: bool) -> bool
    requires { PassesAt is_flag name.now (table_view table.now) }
    ensures { found_at name.now (table_view table.now) (stands_for (boolean default)) ≡ Some (boolean result) }
{
    match value_at(table, name) {
        Some(value) => value.as_bool().unwrap_or(default),
        None => default,
    }
}

/// The outputs at a key; none where it is left out.
pub(crate) fn outputs_at(
    alloc: Global,
    table: &Table,
    name: &str,
) -> Result<Vec<OutputSettings>, AllocError>
    requires { PassesAt are_outputs name.now (table_view table.now) }
    ensures says { IfOk result (λ outputs. AreOutputsAt name.now (table_view table.now) outputs.items) }
    ensures most { IfOk result (λ outputs. vec_len outputs ≤ 8) }
    ensures own_names { IfOk result (λ outputs. HaveOwnNames outputs.items) }
{
    let Some(value) = value_at(table, name) else {
        return Ok(Vec::new(alloc));
    };
    let Some(items) = value.as_array() else {
        unreachable!()
    };
    outputs_of(alloc, items)
}

fn outputs_of(alloc: Global, items: &Array) -> Result<Vec<OutputSettings>, AllocError>
    requires { each_output (array_view items.now) ≡ true }
    ensures says { IfOk result (λ outputs. AreOutputs (array_view items.now) outputs.items) }
    ensures as_many { IfOk result (λ outputs. vec_len outputs ≡ vec_len items.now) }
{
    let mut outputs = Vec::new(alloc);
    'items: for item in items {
        outputs.push(output_of(alloc, item)?)?;
    }
    Ok(outputs)
}

fn output_of(alloc: Global, value: &Value) -> Result<OutputSettings, AllocError>
    requires { is_output (view value.now) ≡ true }
    ensures { IfOk result (λ output. IsOutput (view value.now) output) }
{
    let Some(table) = value.as_table() else {
        unreachable!()
    };
    Ok(OutputSettings {
        name: text_at(alloc, table, "name")?,
        path: text_at(alloc, table, "path")?,
        enabled: flag_at(table, "enabled", true),
        patience: number_perhaps(table, "patience", LEAST_PATIENCE, MOST_PATIENCE),
    })
}

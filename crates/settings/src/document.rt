//! A text as settings.
ghost use Rattle.std.specs.Prelude.{◌≡◌, Some, IfErr, IfOk, codes};
ghost use Rattle.settings.specs.Refusals.{IsRefusedBy, IsRefusedFor, IsTaken};
ghost use Rattle.settings.specs.Keys.{is_number};
ghost use Rattle.settings.specs.Values.{AreWithin, HaveOwnNames, IsNumberAt, PassesAt, Says};
ghost use Rattle.toml.specs.Data.{Members};
ghost use Rattle.toml.specs.Parse.{parse_document};
ghost use Rattle.toml.specs.View.{table_view};

use crate::faults::first_fault;
use crate::keys::{HISTORY, RATE, RING};
use crate::reads::{flag_at, natural_at, number_at, outputs_at, text_at, text_perhaps};
use crate::values::{Settings, SettingsFault};
use song_db::Rate;
use std::alloc::{AllocError, Global};
use toml::Table;

/// The settings that a text says.
pub fn settings(alloc: Global, text: &str) -> Result<Settings, SettingsFault>
    // The text is TOML, its table is taken, and the settings are what it says.
    ensures taken { IfOk result (λ settings. (entries : Members) × (parse_document text.now ≡ Some entries)
        × IsTaken entries × Says entries settings) }
    ensures within { IfOk result AreWithin }
    ensures own_names { IfOk result (λ settings. HaveOwnNames settings.outputs.items) }
    // It is refused for the one key that the definition names.
    ensures refused { IfErr result (IsRefusedBy (parse_document text.now)) }
{
    match toml::table_from_str(alloc, text) {
        Ok(table) => settings_of(alloc, &table),
        Err(error) if error.is_memory() => Err(SettingsFault::NoMemory),
        Err(_) => Err(SettingsFault::BadSetting(String::new(alloc))),
    }
}

fn settings_of(alloc: Global, table: &Table) -> Result<Settings, SettingsFault>
    ensures taken { IfOk result (λ settings. IsTaken (table_view table.now) × Says (table_view table.now) settings) }
    ensures within { IfOk result AreWithin }
    ensures own_names { IfOk result (λ settings. HaveOwnNames settings.outputs.items) }
    ensures refused { IfErr result (IsRefusedBy (Some (table_view table.now))) }
{
    if let Some(name) = first_fault(table) {
        return Err(refusal(alloc, name));
    }
    match read(alloc, table) {
        Ok(settings) => Ok(settings),
        Err(AllocError) => Err(SettingsFault::NoMemory),
    }
}

fn refusal(alloc: Global, name: &str) -> SettingsFault
    ensures { (entries : Members) → IsRefusedFor (Some entries) name.now → IsRefusedBy (Some entries) result }
{
    match String::from_str(alloc, name) {
        Ok(name) => SettingsFault::BadSetting(name),
        Err(AllocError) => SettingsFault::NoMemory,
    }
}

fn read(alloc: Global, table: &Table) -> Result<Settings, AllocError>
    requires { IsTaken (table_view table.now) }
    ensures says { IfOk result (Says (table_view table.now)) }
    ensures within { IfOk result AreWithin }
    ensures own_names { IfOk result (λ settings. HaveOwnNames settings.outputs.items) }
{
    Ok(Settings {
        music: text_at(alloc, table, "music")?,
        listen: text_at(alloc, table, "listen")?,
        shelf: text_perhaps(alloc, table, "shelf")?,
        state: text_perhaps(alloc, table, "state")?,
        rate: rate_of(table),
        random_start: natural_at(table, "random_start"),
        history: number_at(table, "history", HISTORY),
        ring: number_at(table, "ring", RING),
        kill: flag_at(table, "kill", false),
        everyday: flag_at(table, "everyday", false),
        outputs: outputs_at(alloc, table, "output")?,
    })
}

fn rate_of(table: &Table) -> Rate
    requires { PassesAt (is_number 8000 192000) (codes "rate") (table_view table.now) }
    ensures { IsNumberAt (codes "rate") (table_view table.now) 44100 result }
{
    match Rate::new(number_at(table, "rate", RATE)) {
        Some(rate) => rate,
        None => unreachable!(),
    }
}

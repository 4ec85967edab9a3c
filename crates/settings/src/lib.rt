//! The settings of the daemon, which are a text of TOML.
#![tactic(auto)]

mod document;
mod faults;
mod keys;
mod laws;
mod one_line;
mod reads;
mod values;

pub use document::settings;
pub use laws::{one_cause, one_lines, readings};
pub use one_line::OneLine;
pub use values::{OutputSettings, Settings, SettingsFault};

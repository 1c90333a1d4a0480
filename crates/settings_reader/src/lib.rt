//! The settings of a server from a source: a trace up to the line that ends its settings, and no
//! octet after it.
#![tactic(auto)]

mod reader;
mod settings_err;

pub use reader::read_settings;
pub use settings_err::SettingsErr;

#[cfg(test)]
mod tests;

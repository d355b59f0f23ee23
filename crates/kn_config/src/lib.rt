//! The autoscaler's ConfigMap: its keys, what each may be, and the settings that a text gives.
#![tactic(auto)]

mod config;
mod json;
mod key;
pub mod value;

pub use config::{Config, ConfigError, other_keys_are_ignored};
pub use json::{JsonError, read_json};
pub use key::{Key, Rule};
pub use value::KeyError;

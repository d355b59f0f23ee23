//! The settings in force of a setup: what each is, and where it comes from.
#![tactic(auto)]

mod blocks;
pub mod laws;
mod scaled;
mod settings;
mod show;

pub use settings::settings_text;
pub use show::show_settings;

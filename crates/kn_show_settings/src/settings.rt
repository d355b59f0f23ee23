//! The settings of a setup.
ghost use Rattle.std.specs.Prelude.{◌≡◌, ◌++◌, [], IfOk, OnOk};
ghost use Rattle.kn_show_settings.specs.Settings.{AddsSettings, fixed_settings, settings_text, text_by_blocks};

use crate::blocks::{config_block, revision_block, value_of};
use crate::scaled::add_scaled;
use kn_event::{Kind, Memory, Spec};
use kn_journal::Setup;
use kn_origins::{Origin, add_number};
use std::alloc::Global;

/// Adds the settings of fixed pods.
#[tactic(auto, using(crate::proofs::Pieces::six_lines))]
fn add_fixed(text: &mut Vec<u8>, pods: u64, spec: &Spec) -> Result<(), Memory>
    ensures { AddsSettings text.old text.new (fixed_settings pods spec.now) result }
{
    add_number(text, b"limit", spec.cc, Origin::Setup)?;
    add_number(text, b"depth", spec.slots.depth, Origin::Setup)?;
    add_number(text, b"max", spec.slots.max, Origin::Setup)?;
    add_number(text, b"pods", pods, Origin::Setup)?;
    add_number(text, b"timeout", spec.timeout_ms / 1000, Origin::Setup)?;
    add_number(text, b"seed", spec.slots.seed, Origin::Setup)
}

/// Adds the settings of a revision that scales, whose setup has this text.
fn add_kpa(alloc: Global, text: &mut Vec<u8>, spec: &Spec, setup: &[u8]) -> Result<(), Memory>
    ensures { OnOk result (text.new.items ≡ text.old.items ++ text_by_blocks spec.now setup.now) }
{
    let config = value_of(alloc, config_block(setup))?;
    let revision = value_of(alloc, revision_block(setup))?;
    add_scaled(alloc, text, spec, &config, &revision)
}

/// Adds the settings of a setup.
#[tactic(auto, unfolding(crate::specs::Settings::settings_text))]
fn add_settings(alloc: Global, text: &mut Vec<u8>, setup: &Setup) -> Result<(), Memory>
    ensures { OnOk result (text.new.items ≡ text.old.items ++ settings_text setup.now) }
{
    match setup.spec.kind {
        Kind::Fixed(pods) => add_fixed(text, pods, &setup.spec),
        Kind::Kpa => add_kpa(alloc, text, &setup.spec, setup.text.bytes()),
    }
}

/// The settings of a setup, a line each: of a fixed one its fields; of a revision that scales what is in force and where each
/// comes from, and then which keys and annotations are ignored.
pub fn settings_text(alloc: Global, setup: &Setup) -> Result<Vec<u8>, Memory>
    ensures { IfOk result (λ text. text.items ≡ settings_text setup.now) }
{
    let mut text = Vec::new(alloc);
    match add_settings(alloc, &mut text, setup) {
        Ok(()) => Ok(text),
        Err(Memory) => Err(Memory),
    }
}

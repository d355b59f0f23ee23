//! The ConfigMap and the Revision in a setup's text.
ghost use Rattle.std.specs.Prelude.{◌≡◌, ◌≤◌, IfOk, drop, length, take};
ghost use Rattle.serde_json.specs.View.{view};
ghost use Rattle.kn_show_settings.specs.Blocks.{behind_config, behind_revision, block, config_block, place_of, revision_block, value_of};

use kn_config::{JsonError, read_json};
use kn_event::Memory;
use serde_json::Value;
use std::alloc::Global;

/// The place of the first such bytes, or the length where there are none.
#[tactic(auto, using(crate::proofs::Places::place_here, crate::proofs::Places::place_more), unfolding(crate::specs::Blocks::place_of))]
fn place_of(word: &[u8], text: &[u8]) -> usize
    ensures value { result ≡ place_of word.now text.now }
    ensures most { result ≤ length text.now }
{
    for i in 0..text.len() {
        if text[i..].starts_with(word) {
            return i;
        }
    }
    text.len()
}

/// The first so many bytes, or all.
fn front(text: &[u8], n: usize) -> &[u8]
    ensures { result.now ≡ take n text.now }
{
    if n < text.len() { &text[..n] } else { text }
}

/// What stands behind so many bytes.
fn behind(text: &[u8], n: usize) -> &[u8]
    ensures { result.now ≡ drop n text.now }
{
    if n < text.len() {
        &text[n..]
    } else {
        &text[..0]
    }
}

/// The lines up to one with a single point.
fn block(text: &[u8]) -> &[u8]
    ensures { result.now ≡ block text.now }
{
    front(text, place_of(b"\n.\n", text) + 1)
}

/// What stands behind the first line and the line `config`.
fn behind_config(text: &[u8]) -> &[u8]
    ensures { result.now ≡ behind_config text.now }
{
    behind(text, place_of(b"\n", text) + b"\nconfig\n".len())
}

/// What stands behind the first block, its point and the line `revision`.
fn behind_revision(text: &[u8]) -> &[u8]
    ensures { result.now ≡ behind_revision text.now }
{
    behind(text, place_of(b"\n.\n", text) + b"\n.\nrevision\n".len())
}

/// The ConfigMap in a setup's text.
pub fn config_block(text: &[u8]) -> &[u8]
    ensures { result.now ≡ config_block text.now }
{
    block(behind_config(text))
}

/// The Revision in a setup's text.
pub fn revision_block(text: &[u8]) -> &[u8]
    ensures { result.now ≡ revision_block text.now }
{
    block(behind_revision(behind_config(text)))
}

/// The value of a block.
pub fn value_of(alloc: Global, text: &[u8]) -> Result<Value, Memory>
    ensures { IfOk result (λ value. view value ≡ value_of text.now) }
{
    match read_json(alloc, text) {
        Ok(value) => Ok(value),
        Err(JsonError::NotJson) => Ok(Value::Null),
        Err(JsonError::Memory) => Err(Memory),
    }
}

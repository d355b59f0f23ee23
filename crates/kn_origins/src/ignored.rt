//! What a ConfigMap and a Revision say and no setting comes from.
ghost use Rattle.std.specs.Prelude.{◌≡◌, ◌<◌, ◌++◌, OnOk, bytes_eq};
ghost use Rattle.std.specs.List.{filter};
ghost use Rattle.serde_json.specs.View.{members_view, view};
ghost use Rattle.kn_config.specs.Keys.{key_text};
ghost use Rattle.kn_origins.specs.Ignored.{byte_text, hex_digit, ignored_annotations, ignored_if, ignored_keys, ignored_lines, ignored_text, is_among, is_old, is_read, is_unread, is_unset, name_text, names_of};

use crate::lines::add;
use crate::origin::{annotations, has_annotation, prefix};
use kn_config::Key;
use kn_event::Memory;
use serde_json::{Map, Value};
use std::alloc::Global;

fn is_text(key: Key, name: &[u8]) -> bool
    ensures { result ≡ bytes_eq name.now (key_text key) }
{
    name == key.text().as_bytes()
}

/// Whether it is the text of one of these keys.
fn is_among(keys: &[Key], name: &[u8]) -> bool
    ensures { result ≡ is_among keys.now name.now }
{
    keys.iter().any(|key| is_text(*key, name))
}

/// Whether it is no key of the table.
#[tactic(auto, unfolding(crate::specs::Ignored::is_unset))]
fn is_unset(name: &[u8]) -> bool
    ensures { result ≡ is_unset name.now }
{
    let keys = [
        Key::ContainerConcurrencyTargetPercentage,
        Key::ContainerConcurrencyTargetDefault,
        Key::RequestsPerSecondTargetDefault,
        Key::TargetBurstCapacity,
        Key::StableWindow,
        Key::PanicWindowPercentage,
        Key::PanicThresholdPercentage,
        Key::MaxScaleUpRate,
        Key::MaxScaleDownRate,
        Key::EnableScaleToZero,
        Key::ScaleToZeroGracePeriod,
        Key::ScaleToZeroPodRetentionPeriod,
        Key::MinScale,
        Key::MaxScale,
        Key::AllowZeroInitialScale,
        Key::InitialScale,
        Key::ScaleDownDelay,
    ];
    !is_among(&keys, name)
}

/// Whether it is an old spelling, where the new one isn't there.
fn is_old(old: Key, has_new: bool, name: &[u8]) -> bool
    ensures { result ≡ is_old old has_new name.now }
{
    !has_new && is_text(old, name)
}

/// Whether an annotation of this name is read.
#[tactic(auto, unfolding(crate::specs::Ignored::is_read))]
fn is_read(has_min: bool, has_max: bool, name: &[u8]) -> bool
    ensures { result ≡ is_read has_min has_max name.now }
{
    let keys = [
        Key::Class,
        Key::Metric,
        Key::MinScale,
        Key::MaxScale,
        Key::InitialScale,
        Key::Target,
        Key::TargetUtilizationPercentage,
        Key::Window,
        Key::PanicWindowPercentage,
        Key::PanicThresholdPercentage,
        Key::TargetBurstCapacity,
        Key::ScaleDownDelay,
        Key::ScaleToZeroPodRetentionPeriod,
        Key::ActivationScale,
    ];
    is_among(&keys, name)
        || is_old(Key::OldMinScale, has_min, name)
        || is_old(Key::OldMaxScale, has_max, name)
}

/// Whether it is an annotation of the autoscaler that isn't read.
#[tactic(auto, unfolding(crate::specs::Ignored::is_unread))]
fn is_unread(has_min: bool, has_max: bool, name: &[u8]) -> bool
    ensures { result ≡ is_unread has_min has_max name.now }
{
    let start = prefix().as_bytes();
    name.starts_with(start) && !is_read(has_min, has_max, &name[start.len()..])
}

/// A digit of a byte in base 16.
fn hex_digit(n: u8) -> u8
    requires { n < 16 }
    ensures { result ≡ hex_digit n }
{
    if n < 10 { 48 + n } else { 87 + n }
}

/// Adds a byte of a name as JSON spells it, so that no control code breaks the line.
fn add_byte(text: &mut Vec<u8>, b: u8) -> Result<(), Memory>
    ensures { OnOk result (text.new.items ≡ text.old.items ++ byte_text b) }
{
    if b < 32 {
        let spelled = [92, 117, 48, 48, hex_digit(b / 16), hex_digit(b % 16)];
        return add(text, &spelled);
    }
    if b == 92 {
        return add(text, &[92, 92]);
    }
    add(text, &[b])
}

/// Adds a name as it stands in a line.
#[tactic(auto, unfolding(crate::specs::Ignored::name_text))]
fn add_spelled(text: &mut Vec<u8>, name: &[u8]) -> Result<(), Memory>
    ensures { OnOk result (text.new.items ≡ text.old.items ++ name_text name.now) }
{
    for b in name {
        add_byte(text, *b)?;
    }
    Ok(())
}

/// Adds the line of a name, where it is ignored.
#[tactic(auto, using(crate::proofs::Pieces::three_pieces), unfolding(crate::specs::Ignored::ignored_line))]
fn add_name(text: &mut Vec<u8>, name: &[u8], is_ignored: bool) -> Result<(), Memory>
    ensures { OnOk result (text.new.items ≡ text.old.items ++ ignored_if is_ignored name.now) }
{
    if !is_ignored {
        return Ok(());
    }
    add(text, b"ignored ")?;
    add_spelled(text, name)?;
    add(text, b"\n")
}

/// Adds a line for each key of the data that is in no table.
fn add_keys(text: &mut Vec<u8>, members: &Map<String, Value>) -> Result<(), Memory>
    ensures { OnOk result (text.new.items ≡ text.old.items
        ++ ignored_lines (filter is_unset (names_of (members_view members.now.entries)))) }
{
    for (name, _value) in members.iter() {
        let bytes = name.as_bytes();
        add_name(text, bytes, is_unset(bytes))?;
    }
    Ok(())
}

/// Adds a line for each annotation of the autoscaler that isn't read.
fn add_annotations(
    text: &mut Vec<u8>,
    members: &Map<String, Value>,
    has_min: bool,
    has_max: bool,
) -> Result<(), Memory>
    ensures { OnOk result (text.new.items ≡ text.old.items
        ++ ignored_lines (filter (is_unread has_min has_max) (names_of (members_view members.now.entries)))) }
{
    for (name, _value) in members.iter() {
        let bytes = name.as_bytes();
        add_name(text, bytes, is_unread(has_min, has_max, bytes))?;
    }
    Ok(())
}

/// Adds what is ignored of a ConfigMap.
fn add_ignored_keys(text: &mut Vec<u8>, config: &Value) -> Result<(), Memory>
    ensures { OnOk result (text.new.items ≡ text.old.items ++ ignored_lines (ignored_keys (view config.now))) }
{
    let Some(keys) = config.get("data") else {
        return Ok(());
    };
    match keys.as_object() {
        Some(members) => add_keys(text, members),
        None => Ok(()),
    }
}

/// Adds what is ignored of a Revision's annotations.
fn add_ignored_annotations(
    alloc: Global,
    text: &mut Vec<u8>,
    revision: &Value,
) -> Result<(), Memory>
    ensures { OnOk result (text.new.items ≡ text.old.items ++ ignored_lines (ignored_annotations (view revision.now))) }
{
    let has_min = has_annotation(alloc, Key::MinScale, revision)?;
    let has_max = has_annotation(alloc, Key::MaxScale, revision)?;
    let Some(annotations) = annotations(revision) else {
        return Ok(());
    };
    match annotations.as_object() {
        Some(members) => add_annotations(text, members, has_min, has_max),
        None => Ok(()),
    }
}

/// Adds a line `ignored NAME` for each key of the ConfigMap's `data` that no setting comes from, and then for each annotation
/// of the Revision below `autoscaling.knative.dev/` that none comes from, each in the order of their names' bytes. In a name a
/// control code and a backslash are spelled as JSON does. Both are given by the values of their texts. The only error is want
/// of memory; some first bytes may then have been added.
#[tactic(auto, using(std::proofs::Common::append_assoc), unfolding(crate::specs::Ignored::ignored_text))]
pub fn add_ignored_text(
    alloc: Global,
    text: &mut Vec<u8>,
    config: &Value,
    revision: &Value,
) -> Result<(), Memory>
    ensures { OnOk result (text.new.items ≡ text.old.items ++ ignored_text (view config.now) (view revision.now)) }
{
    add_ignored_keys(text, config)?;
    add_ignored_annotations(alloc, text, revision)
}

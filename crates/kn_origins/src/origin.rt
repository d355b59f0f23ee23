//! Where a setting comes from.
ghost use Rattle.std.specs.Prelude.{◌≡◌, IfOk, option_map, string_bytes};
ghost use Rattle.serde_json.specs.View.{view};
ghost use Rattle.kn_revision.specs.Members.{inner};
ghost use Rattle.kn_origins.specs.Origins.{above, annotated, annotation, annotation_text, annotations, config_or, configured, has_annotation, origin_text, overridden, prefix, renamed, specified};

use kn_config::Key;
use kn_event::Memory;
use serde_json::Value;
use std::alloc::Global;

/// What gives the value of a setting.
#[derive(Clone, Copy)]
pub enum Origin {
    /// Nothing that was said.
    Default,
    /// The ConfigMap.
    Config,
    /// The Revision.
    Revision,
    /// The setup's first line.
    Setup,
}

impl Origin {
    /// Its word in a setting's line: `default`, `config`, `revision` or `setup`.
    pub fn text(self) -> &'static [u8]
        ensures { result.now ≡ origin_text self }
    {
        match self {
            Origin::Default => b"default",
            Origin::Config => b"config",
            Origin::Revision => b"revision",
            Origin::Setup => b"setup",
        }
    }

    /// The configuration, or the Revision where that is the other one.
    fn config_or(self) -> Origin
        ensures { result ≡ config_or self }
    {
        match self {
            Origin::Revision => Origin::Revision,
            Origin::Default => Origin::Config,
            Origin::Config => Origin::Config,
            Origin::Setup => Origin::Setup,
        }
    }

    /// Of two that have a part in a setting, the one that overrides the other: the Revision the ConfigMap, and that the
    /// default.
    pub fn above(self, other: Origin) -> Origin
        ensures { result ≡ above self other }
    {
        match self {
            Origin::Default => other,
            Origin::Config => other.config_or(),
            Origin::Revision => Origin::Revision,
            Origin::Setup => Origin::Setup,
        }
    }
}

/// The member of an object's member, if it is there.
pub fn inner<'v>(root: &'v Value, outer: &str, name: &str) -> Option<&'v Value>
    ensures { option_map (λ v. view v.now) result ≡ inner outer.now name.now (view root.now) }
{
    match root.get(outer) {
        None => None,
        Some(object) => object.get(name),
    }
}

/// The annotations of a Revision.
pub fn annotations(revision: &Value) -> Option<&Value>
    ensures { option_map (λ v. view v.now) result ≡ annotations (view revision.now) }
{
    inner(revision, "metadata", "annotations")
}

/// What all annotations of the autoscaler begin with.
pub fn prefix() -> &'static str
    ensures { result.now ≡ prefix }
{
    "autoscaling.knative.dev/"
}

/// An annotation as it is written.
fn annotation_text(alloc: Global, key: Key) -> Result<String, Memory>
    ensures { IfOk result (λ text. string_bytes text ≡ annotation_text key) }
{
    let Ok(mut text) = String::from_str(alloc, prefix()) else {
        return Err(Memory);
    };
    match text.push_str(key.text()) {
        Ok(()) => Ok(text),
        Err(_) => Err(Memory),
    }
}

/// An annotation of a Revision, if it is there.
pub fn annotation(alloc: Global, key: Key, revision: &Value) -> Result<Option<&Value>, Memory>
    ensures { IfOk result (λ found. option_map (λ v. view v.now) found ≡ annotation key (view revision.now)) }
{
    let Some(annotations) = annotations(revision) else {
        return Ok(None);
    };
    match annotation_text(alloc, key) {
        Ok(text) => Ok(annotations.get(text.as_str())),
        Err(Memory) => Err(Memory),
    }
}

/// Whether a Revision has an annotation.
pub fn has_annotation(alloc: Global, key: Key, revision: &Value) -> Result<bool, Memory>
    ensures { IfOk result (λ has. has ≡ has_annotation key (view revision.now)) }
{
    match annotation(alloc, key, revision) {
        Ok(Some(_)) => Ok(true),
        Ok(None) => Ok(false),
        Err(Memory) => Err(Memory),
    }
}

/// The Revision where it has the annotation of this key, below `autoscaling.knative.dev/`, or what it is otherwise.
/// `revision` is the value of the Revision's text. The only error is want of memory.
#[tactic(auto, unfolding(crate::specs::Origins::annotated))]
pub fn annotated(
    alloc: Global,
    key: Key,
    revision: &Value,
    otherwise: Origin,
) -> Result<Origin, Memory>
    ensures { IfOk result (λ from. from ≡ annotated key (view revision.now) otherwise) }
{
    match has_annotation(alloc, key, revision) {
        Ok(true) => Ok(Origin::Revision),
        Ok(false) => Ok(otherwise),
        Err(Memory) => Err(Memory),
    }
}

/// The Revision where its `spec` has the member of this key, whatever that says, else the default. `revision` is the value of
/// the Revision's text.
#[tactic(auto, unfolding(crate::specs::Origins::specified))]
pub fn specified(key: Key, revision: &Value) -> Origin
    ensures { result ≡ specified key (view revision.now) }
{
    match inner(revision, "spec", key.text()) {
        Some(_) => Origin::Revision,
        None => Origin::Default,
    }
}

/// The configuration where its `data` has the key, whatever that says, else the default. `config` is the value of the
/// ConfigMap's text.
#[tactic(auto, unfolding(crate::specs::Origins::configured))]
pub fn configured(key: Key, config: &Value) -> Origin
    ensures { result ≡ configured key (view config.now) }
{
    match inner(config, "data", key.text()) {
        Some(_) => Origin::Config,
        None => Origin::Default,
    }
}

/// An annotation of the Revision before the ConfigMap's key of the same name, and that before the default. Both are given by
/// the values of their texts. The only error is want of memory.
#[tactic(auto, unfolding(crate::specs::Origins::overridden))]
pub fn overridden(
    alloc: Global,
    key: Key,
    config: &Value,
    revision: &Value,
) -> Result<Origin, Memory>
    ensures { IfOk result (λ from. from ≡ overridden key (view config.now) (view revision.now)) }
{
    annotated(alloc, key, revision, configured(key, config))
}

/// An annotation of the Revision before its old spelling, that before the ConfigMap's key of the new name, and that before the
/// default. Both are given by the values of their texts. The only error is want of memory.
#[tactic(auto, unfolding(crate::specs::Origins::renamed))]
pub fn renamed(
    alloc: Global,
    key: Key,
    old: Key,
    config: &Value,
    revision: &Value,
) -> Result<Origin, Memory>
    ensures { IfOk result (λ from. from ≡ renamed key old (view config.now) (view revision.now)) }
{
    match annotated(alloc, old, revision, configured(key, config)) {
        Ok(otherwise) => annotated(alloc, key, revision, otherwise),
        Err(Memory) => Err(Memory),
    }
}

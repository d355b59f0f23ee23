//! The members of a Revision that are no annotations.
ghost use Rattle.std.specs.Prelude.{◌≡◌, IfOk, IsTrue, MatchResult, option_map, Ok, Err, codes};
ghost use Rattle.std.specs.List.{list_all};
ghost use Rattle.kn_event.specs.Ranges.{is_name, is_name_byte};
ghost use Rattle.serde_json.specs.View.{view};
ghost use Rattle.kn_config.specs.Keys.{key_text, IsInRange};
ghost use Rattle.kn_revision.specs.Members.{inner, name_of, field_key, field_text, whole_of, limits_of, AreLimits};

use crate::error::{Field, SpecError};
use kn_config::value::in_range;
use kn_config::{Key, KeyError};
use serde_json::Value;

/// What `spec` says.
#[derive(Clone, Copy)]
pub struct Limits {
    /// containerConcurrency, 0 to 1,000.
    pub cc: u64,
    /// timeoutSeconds, 1 to 3,600.
    pub timeout_s: u64,
}

impl Field {
    fn key(self) -> Key
        ensures { result ≡ field_key self }
    {
        match self {
            Field::Namespace => Key::Namespace,
            Field::Name => Key::Name,
        }
    }

    fn text(self) -> &'static str
        ensures { result.now ≡ field_text self }
    {
        match self {
            Field::Namespace => "namespace",
            Field::Name => "name",
        }
    }
}

/// The member of an object's member. None where one is missing, or the first is no object.
pub fn inner<'v>(root: &'v Value, outer: &str, name: &str) -> Option<&'v Value>
    ensures { option_map (λ v. view v.now) result ≡ inner outer.now name.now (view root.now) }
{
    match root.get(outer) {
        None => None,
        Some(object) => object.get(name),
    }
}

/// A name in the metadata: 1 to 253 bytes of the name alphabet.
pub fn name(root: &Value, field: Field) -> Result<&str, SpecError>
    ensures gives { MatchResult result
        (λ name. name_of field (inner (codes "metadata") (field_text field) (view root.now)) ≡ Ok name.now)
        (λ fault. name_of field (inner (codes "metadata") (field_text field) (view root.now)) ≡ Err fault) }
    ensures range { IfOk result (λ name. IsTrue (is_name name.now)) }
{
    match inner(root, "metadata", field.text()) {
        None => Err(SpecError::Missing(field)),
        Some(member) => match member.as_str() {
            None => Err(SpecError::NotText(field.key())),
            Some(name) => if is_name(name.as_bytes()) {
                Ok(name)
            } else {
                Err(SpecError::OutOfRange(field.key()))
            },
        },
    }
}

fn is_name(bytes: &[u8]) -> bool
    ensures { result ≡ is_name bytes.now }
{
    1 <= bytes.len() && bytes.len() <= 253 && are_name_bytes(bytes)
}

fn are_name_bytes(bytes: &[u8]) -> bool
    ensures { result ≡ list_all is_name_byte bytes.now }
{
    bytes.iter().all(|b| is_name_byte(*b))
}

fn is_name_byte(byte: u8) -> bool
    ensures { result ≡ is_name_byte byte }
{
    byte.is_ascii_lowercase() || byte.is_ascii_digit() || byte == b'-' || byte == b'.'
}

/// A whole number that is written without sign, fraction and exponent, or the key's default where it is missing.
fn whole(root: &Value, key: Key) -> Result<u64, KeyError>
    ensures value { result ≡ whole_of key (inner (codes "spec") (key_text key) (view root.now)) }
    ensures range { IfOk result (λ whole. IsInRange key whole) }
{
    match inner(root, "spec", key.text()) {
        None => Ok(key.rule().default),
        Some(member) => match member.as_u64() {
            None => Err(KeyError::OutOfRange(key)),
            Some(whole) => in_range(key, whole),
        },
    }
}

impl Limits {
    pub fn read(root: &Value) -> Result<Limits, KeyError>
        ensures value { result ≡ limits_of (view root.now) }
        ensures ranges { IfOk result (λ limits. AreLimits limits) }
    {
        Ok(Limits {
            cc: whole(root, Key::ContainerConcurrency)?,
            timeout_s: whole(root, Key::TimeoutSeconds)?,
        })
    }
}

//! How `HOST:PORT` and lists of it are read.
ghost use Rattle.std.specs.Prelude.{◌≡◌, ◌<◌, ◌==◌, All, IfOk, MatchBool, map};
ghost use Rattle.std.specs.List.{list_all, slice_split};
ghost use Rattle.kn_plan.specs.Plan.{IsAddress, is_host, is_host_byte, is_port};

use kn_event::{Items, Memory, Text, read_number};
use std::alloc::Global;

fn are_host_bytes(bytes: &[u8]) -> bool
    ensures { result ≡ list_all is_host_byte bytes.now }
{
    bytes.iter().all(|b| *b != b',' && *b != b';')
}

fn is_host(bytes: &[u8]) -> bool
    ensures { result ≡ is_host bytes.now }
{
    match bytes {
        [] => false,
        _ => are_host_bytes(bytes),
    }
}

fn is_port(bytes: &[u8]) -> bool
    ensures { result ≡ is_port bytes.now }
{
    match read_number(bytes) {
        Some(n) => n <= 65535,
        None => false,
    }
}

/// Whether the text is `HOST:PORT`.
pub fn is_address(text: &str) -> bool
    ensures { MatchBool result (IsAddress text.now) (IsAddress text.now → ⊥) }
{
    match text.rsplit_once(':') {
        Some((host, port)) => is_host(host.as_bytes()) && is_port(port.as_bytes()),
        None => false,
    }
}

/// Whether each of the texts is `HOST:PORT`.
pub fn are_addresses(texts: &[&str]) -> bool
    ensures { MatchBool result (All (λ t. IsAddress t.now) texts.now) (All (λ t. IsAddress t.now) texts.now → ⊥) }
{
    texts.iter().all(|t| is_address(t))
}

/// The texts, copied.
pub fn copies(alloc: Global, texts: &[&str]) -> Result<Items<Text>, Memory>
    ensures { IfOk result (λ copied. copied ≡ map (λ t. t.now) texts.now) }
{
    let mut copied = Vec::new(alloc);
    for text in texts {
        let one = copy(alloc, text)?;
        if copied.push(one).is_err() {
            return Err(Memory);
        }
    }
    Ok(Items::new(copied))
}

/// The text, copied.
pub fn copy(alloc: Global, text: &str) -> Result<Text, Memory>
    ensures { IfOk result (λ copied. copied ≡ text.now) }
{
    match Vec::from_slice(alloc, text.as_bytes()) {
        Ok(bytes) => Ok(Text::new(bytes)),
        Err(_) => Err(Memory),
    }
}

/// The parts of the text between these characters.
pub fn parts<'a>(alloc: Global, text: &'a str, between: char) -> Result<Vec<&'a str>, Memory>
    requires { between < 128 }
    ensures { IfOk result (λ v. map (λ t. t.now) v.items ≡ slice_split (λ b. b == between) text.entry.now) }
{
    match text.split(between).collect(alloc) {
        Ok(found) => Ok(found),
        Err(_) => Err(Memory),
    }
}

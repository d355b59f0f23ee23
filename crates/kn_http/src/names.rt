//! Names and words, compared whatever their case.
ghost use Rattle.std.specs.Prelude.{◌≡◌, true, map, IsTrue};
ghost use Rattle.std.specs.Char.{to_ascii_lowercase};
ghost use Rattle.http_header.specs.FieldName.{is_header_name};
ghost use Rattle.kn_http.specs.Names.{connection_names, is_among, is_word};

use http_header::HeaderName;
use std::str;

/// Whether the bytes are this word, which is in lower case, whatever their own case.
pub fn is_word(bytes: &[u8], word: &[u8]) -> bool
    requires { map to_ascii_lowercase word.now ≡ word.now }
    ensures { result ≡ is_word word.now bytes.now }
{
    bytes.eq_ignore_ascii_case(word)
}

/// Whether both may be the same name: where they are as long, and begin with the same letter. Most names that differ do so at once.
#[inline(always)]
fn may_be(name: &[u8], known: &[u8]) -> bool
    ensures { is_word known.now name.now ≡ true → result ≡ true }
{
    match name {
        [] => true,
        [first, ..] => name.len() == known.len() && first.to_ascii_lowercase() == known[0],
    }
}

/// Whether a field's name is this one, which is in lower case, whatever its own case. No memory is taken.
#[inline(always)]
pub fn is_named(name: &[u8], known: &'static str) -> bool
    requires { IsTrue (is_header_name known.now) }
    ensures { result ≡ is_word known.now name.now }
{
    may_be(name, known.as_bytes()) && is_same_name(name, known)
}

/// The same, by way of the crate `http_header`.
#[inline(never)]
fn is_same_name(name: &[u8], known: &'static str) -> bool
    requires { IsTrue (is_header_name known.now) }
    ensures { result ≡ is_word known.now name.now }
{
    match str::from_utf8(name) {
        Ok(name) => HeaderName::from_static(known).eq_str(name),
        Err(_) => false,
    }
}

/// Whether a field of this name belongs to one connection.
pub fn is_of_connection(name: &[u8]) -> bool
    ensures { result ≡ is_among connection_names name.now }
{
    is_named(name, "connection")
        || is_named(name, "keep-alive")
        || is_named(name, "proxy-connection")
}

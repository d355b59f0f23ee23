//! What the fields of a head settle: whose request it is, and how its body comes.
ghost use Rattle.std.specs.Prelude.{◌≡◌, ◌≢◌, ◌++◌, ◌∷◌, [], ℕ, List, None, Some, IsTrue, MatchOption};
ghost use Rattle.http_header.specs.FieldName.{is_header_name};
ghost use Rattle.kn_head.specs.Fields.{values_named};
ghost use Rattle.kn_head.specs.Rules.{form_by_length, form_by_coding, form_of, owner_of, NameOwner, AreValues};

use crate::head::{HeadError, Headers};
use kn_http::{is_named, is_word, number};

/// How a body comes: as so many bytes, or in chunks.
#[derive(Clone, Copy)]
pub(crate) enum Form {
    Plain(u64),
    Chunked,
}

/// The values of the fields with one name.
#[derive(Clone, Copy)]
pub(crate) enum Values<'a> {
    Absent,
    One(&'a [u8]),
    Several,
}

/// The values with one more.
fn with_value<'a>(found: Values<'a>, value: &'a [u8]) -> Values<'a>
    ensures { (vs : List (List ℕ)) → AreValues vs found.entry → AreValues (vs ++ value.now ∷ []) result }
{
    match found {
        Values::Absent => Values::One(value),
        Values::One(_) | Values::Several => Values::Several,
    }
}

/// The values of the fields with this name, which is given in lower case.
fn values_of<'a>(headers: &'a Headers, known: &'static str) -> Values<'a>
    requires { IsTrue (is_header_name known.now) }
    ensures { AreValues (values_named known.now headers.now) result }
{
    let mut found = Values::Absent;
    for field in headers.items() {
        if is_named(field.0.bytes(), known) {
            found = with_value(found, field.1.bytes());
        }
    }
    found
}

/// The namespace and the revision, where the fields name each exactly once.
pub(crate) fn owner(headers: &Headers) -> Option<(&[u8], &[u8])>
    ensures { MatchOption result (owner_of headers.now ≡ None) (λ owner. NameOwner headers.now owner.0.now owner.1.now) }
{
    let namespaces = values_of(headers, "knative-serving-namespace");
    let revisions = values_of(headers, "knative-serving-revision");
    match namespaces {
        Values::One(namespace) => match revisions {
            Values::One(revision) => Some((namespace, revision)),
            Values::Absent | Values::Several => None,
        },
        Values::Absent | Values::Several => None,
    }
}

fn form_of_length(value: &[u8]) -> Result<Form, HeadError>
    ensures { result ≡ form_by_length (value.now ∷ []) }
{
    if value.len() > 19 {
        return Err(HeadError::BadLength);
    }
    match number(value) {
        Some(n) if n <= 1_048_576 => Ok(Form::Plain(n)),
        Some(_) => Err(HeadError::BodyTooLong),
        None => Err(HeadError::BadLength),
    }
}

fn form_of_lengths(lengths: Values) -> Result<Form, HeadError>
    ensures { (ls : List (List ℕ)) → AreValues ls lengths.entry → result ≡ form_by_length ls }
{
    match lengths {
        Values::Absent => Ok(Form::Plain(0)),
        Values::One(value) => form_of_length(value),
        Values::Several => Err(HeadError::BadLength),
    }
}

/// The form where the fields name a coding, and no length.
fn form_of_codings(codings: Values) -> Result<Form, HeadError>
    ensures { (cs : List (List ℕ)) → AreValues cs codings.entry → cs ≢ [] → result ≡ form_by_coding cs [] }
{
    match codings {
        Values::One(coding) if is_word(coding, b"chunked") => Ok(Form::Chunked),
        _ => Err(HeadError::BadCoding),
    }
}

/// How the body comes, or why it isn't read.
pub(crate) fn body_form(headers: &Headers) -> Result<Form, HeadError>
    ensures { result ≡ form_of headers.now }
{
    let codings = values_of(headers, "transfer-encoding");
    let lengths = values_of(headers, "content-length");
    match codings {
        Values::Absent => form_of_lengths(lengths),
        Values::One(_) | Values::Several => match lengths {
            Values::Absent => form_of_codings(codings),
            Values::One(_) | Values::Several => Err(HeadError::BadLength),
        },
    }
}

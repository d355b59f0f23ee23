//! What a client is handed of a pod's reply.
ghost use Rattle.std.specs.Prelude.{◌≡◌, ◌≤◌, ◌<◌, ◌+◌, ◌%◌, ◌++◌, ℕ, List, length, All, IfOk, OnOk};
ghost use Rattle.httparse.specs.Grammar.{ResponseHead};
ghost use Rattle.httparse.specs.Spans.{IsHeaderWithin, IsResponseWithin};
ghost use Rattle.kn_reply.specs.Ends.{IsHeadAt, ReadsHeads, fields_in};
ghost use Rattle.kn_reply.specs.Closing.{AddsHead, Closes, answer_line, field_line, kept_lines, line_start, three_digits};

use crate::heads::{MOST_FIELDS, answer_head};
use httparse::Status;
use httparse::spans::{EMPTY_HEADER_SPAN, HeaderSpan, ResponseSpans};
use kn_event::Text;
use kn_http::is_of_connection;
use kn_io::LinkError;
use std::alloc::Global;

/// How many bytes longer than the reply an answer may be.
const MOST_ADDED: usize = 534;

/// The answer to a client, whose connection ends with it: the pod's reply, in the head of which `Connection: close` stands
/// in place of what belongs to the pod's connection. After status 101 a connection goes on, and the reply stays as it came.
pub(crate) fn closed(alloc: Global, reply: &[u8]) -> Result<Text, LinkError>
    requires short { length reply.now ≤ 1114112 }
    requires heads { (head : ResponseHead) × (rest : List ℕ) × ReadsHeads 0 reply.now head rest }
    ensures { IfOk result (Closes reply.now) }
{
    let mut spans = [EMPTY_HEADER_SPAN; MOST_FIELDS];
    match answer_head(reply, &mut spans) {
        Ok(Status::Complete((start, head))) => {
            let answer = written(alloc, reply, start, &head, &spans)?;
            Ok(Text::new(answer))
        }
        Ok(Status::Partial) => unreachable!(),
        Err(_) => unreachable!(),
    }
}

/// The bytes of that answer, where the head begins at this place.
fn written(
    alloc: Global,
    reply: &[u8],
    start: usize,
    head: &ResponseSpans,
    spans: &[HeaderSpan],
) -> Result<Vec<u8>, LinkError>
    requires short { length reply.now ≤ 1114112 }
    requires head { IsHeadAt reply.now spans.now start head.now }
    ensures { IfOk result (λ answer. Closes reply.now answer.items) }
{
    let Ok(mut answer) = Vec::with_capacity(alloc, reply.len() + MOST_ADDED) else {
        return Err(LinkError::Memory);
    };
    let (interim, text) = reply.split_at(start);
    put(&mut answer, interim)?;
    put_head(&mut answer, text, head, spans)?;
    put(&mut answer, &text[head.len..])?;
    Ok(answer)
}

fn put(out: &mut Vec<u8>, bytes: &[u8]) -> Result<(), LinkError>
    ensures { OnOk result (out.new.items ≡ out.old.items ++ bytes.now) }
{
    match out.extend_from_slice(bytes) {
        Ok(()) => Ok(()),
        Err(_) => Err(LinkError::Memory),
    }
}

/// Writes the head of the answer.
fn put_head(
    out: &mut Vec<u8>,
    text: &[u8],
    head: &ResponseSpans,
    spans: &[HeaderSpan],
) -> Result<(), LinkError>
    requires { IsResponseWithin text.now spans.now head.now }
    ensures { OnOk result (AddsHead text.now spans.now head.now out.old.items out.new.items) }
{
    if head.code == 101 {
        put(out, &text[..head.len])?;
        return Ok(());
    }
    put_status(out, head.version, head.code, head.reason.of(text))?;
    put_kept(out, text, &spans[..head.headers])?;
    put(out, b"Connection: close\r\n\r\n")?;
    Ok(())
}

#[tactic(auto, using(std::proofs::Common::append_assoc), unfolding(crate::specs::Closing::status_line))]
fn put_status(out: &mut Vec<u8>, version: u8, code: u16, reason: &[u8]) -> Result<(), LinkError>
    requires version { version ≤ 1 }
    requires code { code < 1000 }
    ensures { OnOk result (out.new.items ≡ out.old.items ++ answer_line version code reason.now) }
{
    put_start(out, version, code)?;
    put(out, reason)?;
    put(out, b"\r\n")?;
    Ok(())
}

/// Writes the first line up to its phrase.
#[tactic(auto, using(std::proofs::Common::append_assoc), unfolding(crate::specs::Closing::line_start))]
fn put_start(out: &mut Vec<u8>, version: u8, code: u16) -> Result<(), LinkError>
    requires version { version ≤ 1 }
    requires code { code < 1000 }
    ensures { OnOk result (out.new.items ≡ out.old.items ++ line_start version (three_digits code)) }
{
    put(out, b"HTTP/1.")?;
    put(out, &[b'0' + version, b' '])?;
    put(out, &three_digits(code))?;
    put(out, b" ")?;
    Ok(())
}

fn last_digit(n: u16) -> u8
    ensures { result ≡ 48 + n % 10 }
{
    b'0' + (n % 10) as u8
}

/// The three digits of a pod's status, which may be below 100 too, as no `StatusCode` is.
pub(crate) fn three_digits(code: u16) -> [u8; 3]
    ensures { result ≡ three_digits code }
{
    [
        last_digit(code / 100),
        last_digit(code / 10),
        last_digit(code),
    ]
}

/// Writes the fields that stay.
fn put_kept(out: &mut Vec<u8>, text: &[u8], fields: &[HeaderSpan]) -> Result<(), LinkError>
    requires { All (IsHeaderWithin (length text.now)) fields.now }
    ensures { OnOk result (out.new.items ≡ out.old.items ++ kept_lines (fields_in text.now fields.now)) }
{
    for field in fields {
        let name = field.name.of(text);
        if !is_of_connection(name) {
            put_field(out, name, field.value.of(text))?;
        }
    }
    Ok(())
}

#[tactic(auto, using(std::proofs::Common::append_assoc), unfolding(crate::specs::Closing::field_line))]
fn put_field(out: &mut Vec<u8>, name: &[u8], value: &[u8]) -> Result<(), LinkError>
    ensures { OnOk result (out.new.items ≡ out.old.items ++ field_line (name.now, value.now)) }
{
    put(out, name)?;
    put(out, b": ")?;
    put(out, value)?;
    put(out, b"\r\n")?;
    Ok(())
}

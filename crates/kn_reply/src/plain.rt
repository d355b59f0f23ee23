//! What a client of HTTP/1.0, which knows no chunks, is sent of an answer.
ghost use Rattle.std.specs.Prelude.{◌≡◌, ◌≤◌, ◌<◌, ◌++◌, ℕ, List, length, drop, All, IsNone, IfSome, MatchBool};
ghost use Rattle.std.specs.List.{flat_map, list_any};
ghost use Rattle.httparse.specs.Spans.{IsHeaderWithin};
ghost use Rattle.kn_http.specs.Names.{is_among};
ghost use Rattle.kn_io.specs.Causes.{HasCause};
ghost use Rattle.kn_reply.specs.Closing.{answer_line};
ghost use Rattle.kn_reply.specs.Ends.{fields_in};
ghost use Rattle.kn_reply.specs.Plain.{AreChunks, AreChunksOf, HeadInChunks, IsPlainOf, NotChunks, NotInChunks, OnPlainForm, Puts};
ghost use Rattle.kn_reply.specs.Plain.{are_chunks_alone, end_names, is_other_coding, plain_lines};

use crate::answer::three_digits;
use crate::chunks::{BOUNDS, Followed, follow};
use crate::heads::{MOST_FIELDS, answer_head};
use crate::reply::is_coded;
use httparse::Status;
use httparse::spans::{EMPTY_HEADER_SPAN, HeaderSpan, ResponseSpans};
use kn_http::{Chunk, chunks_are_determined, is_named, is_word, next_chunk};
use kn_io::{Failed, Sink, put_all};

/// Writes what a client of HTTP/1.0 is sent of an answer. One that is whole and in chunks goes plain: its interim heads as they
/// are, its head without `Transfer-Encoding`, `Trailer` and `Content-Length`, and the bytes that the chunks hold, which end with
/// the connection. Any other goes as it is, also where there is another coding beside the chunks. It takes no memory.
pub fn put_plain<O: Sink>(out: &mut O, answer: &[u8]) -> Result<(), Failed>
    ensures puts { (sent : List ℕ) × IsPlainOf answer.now sent × Puts (O.held out.old) (O.held out.new) result sent }
    ensures kept_stays { O.kept out.new ≡ O.kept out.old }
    ensures cause { HasCause (O.Faulty.faults out.old) (O.Faulty.faults out.new) result }
{
    let mut spans = [EMPTY_HEADER_SPAN; MOST_FIELDS];
    match head_in_chunks(answer, &mut spans) {
        Some((start, head)) => put_parts(out, answer, start, &head, &spans),
        None => put_all(out, answer),
    }
}

/// The head of an answer that is whole and in chunks, and where it begins.
fn head_in_chunks(answer: &[u8], spans: &mut [HeaderSpan]) -> Option<(usize, ResponseSpans)>
    requires { length spans.old ≡ 256 }
    ensures some { IfSome result (λ found. HeadInChunks answer.now spans.new found.0 found.1) }
    ensures none { IsNone result → NotInChunks answer.now }
{
    match answer_head(answer, spans) {
        Ok(Status::Complete((start, head))) => {
            let (_, text) = answer.split_at(start);
            if !are_chunks_alone(text, &spans[..head.headers]) {
                return None;
            }
            if !is_in_chunks(answer, start + head.len) {
                return None;
            }
            Some((start, head))
        }
        Ok(Status::Partial) => None,
        Err(_) => None,
    }
}

/// Whether the answer is a whole body in chunks from this place on.
fn is_in_chunks(answer: &[u8], start: usize) -> bool
    requires { start ≤ length answer.now }
    ensures { MatchBool result (AreChunks (drop start answer.now)) (NotChunks (drop start answer.now)) }
{
    chunks_are_determined();
    match follow(answer, start) {
        Followed::Ended(end) => end == answer.len(),
        Followed::Cut(_) => false,
        Followed::Never => false,
    }
}

fn are_chunks_alone(text: &[u8], fields: &[HeaderSpan]) -> bool
    requires { All (IsHeaderWithin (length text.now)) fields.now }
    ensures { result ≡ are_chunks_alone (fields_in text.now fields.now) }
{
    is_coded(text, fields) && !has_other_coding(text, fields)
}

fn has_other_coding(text: &[u8], fields: &[HeaderSpan]) -> bool
    requires { All (IsHeaderWithin (length text.now)) fields.now }
    ensures { result ≡ list_any is_other_coding (fields_in text.now fields.now) }
{
    for field in fields {
        if is_other_coding(field.name.of(text), field.value.of(text)) {
            return true;
        }
    }
    false
}

fn is_other_coding(name: &[u8], value: &[u8]) -> bool
    ensures { result ≡ is_other_coding (name.now, value.now) }
{
    is_named(name, "transfer-encoding") && !is_word(value, b"chunked")
}

/// Writes the plain form of an answer whose head begins at this place.
fn put_parts<O: Sink>(
    out: &mut O,
    answer: &[u8],
    start: usize,
    head: &ResponseSpans,
    spans: &[HeaderSpan],
) -> Result<(), Failed>
    requires { HeadInChunks answer.now spans.now start head.now }
    ensures puts { OnPlainForm answer.now spans.now start head.now (Puts (O.held out.old) (O.held out.new) result) }
    ensures kept_stays { O.kept out.new ≡ O.kept out.old }
    ensures cause { HasCause (O.Faulty.faults out.old) (O.Faulty.faults out.new) result }
{
    let (interim, text) = answer.split_at(start);
    let reason = head.reason.of(text);
    match put_start(out, interim, head.version, head.code, reason) {
        Ok(()) => {}
        Err(failed) => return Err(failed),
    }
    match put_fields(out, text, &spans[..head.headers]) {
        Ok(()) => {}
        Err(failed) => return Err(failed),
    }
    let (_, body) = text.split_at(head.len);
    put_value(out, body)
}

/// Writes the pieces, one after the other.
fn put_pieces<O: Sink>(out: &mut O, pieces: &[&[u8]]) -> Result<(), Failed>
    ensures puts { Puts (O.held out.old) (O.held out.new) result (flat_map (λ p. p.now) pieces.now) }
    ensures kept_stays { O.kept out.new ≡ O.kept out.old }
    ensures cause { HasCause (O.Faulty.faults out.old) (O.Faulty.faults out.new) result }
{
    for piece in pieces {
        match put_all(out, piece) {
            Ok(()) => {}
            Err(failed) => return Err(failed),
        }
    }
    Ok(())
}

/// Writes what stands before the head, and its first line.
fn put_start<O: Sink>(
    out: &mut O,
    interim: &[u8],
    version: u8,
    code: u16,
    reason: &[u8],
) -> Result<(), Failed>
    requires version { version ≤ 1 }
    requires code { code < 1000 }
    ensures puts { Puts (O.held out.old) (O.held out.new) result (interim.now ++ answer_line version code reason.now) }
    ensures kept_stays { O.kept out.new ≡ O.kept out.old }
    ensures cause { HasCause (O.Faulty.faults out.old) (O.Faulty.faults out.new) result }
{
    let version = [b'0' + version, b' '];
    put_pieces(
        out,
        &[
            interim,
            b"HTTP/1.",
            &version,
            &three_digits(code),
            b" ",
            reason,
            b"\r\n",
        ],
    )
}

/// Writes the fields that don't say how the body ends, and the end of the head.
fn put_fields<O: Sink>(out: &mut O, text: &[u8], fields: &[HeaderSpan]) -> Result<(), Failed>
    requires { All (IsHeaderWithin (length text.now)) fields.now }
    ensures puts { Puts (O.held out.old) (O.held out.new) result (plain_lines (fields_in text.now fields.now)) }
    ensures kept_stays { O.kept out.new ≡ O.kept out.old }
    ensures cause { HasCause (O.Faulty.faults out.old) (O.Faulty.faults out.new) result }
{
    for field in fields {
        let name = field.name.of(text);
        if !is_of_end(name) {
            match put_pieces(out, &[name, b": ", field.value.of(text), b"\r\n"]) {
                Ok(()) => {}
                Err(failed) => return Err(failed),
            }
        }
    }
    put_all(out, b"\r\n")
}

/// Whether a field of this name says how the body ends.
fn is_of_end(name: &[u8]) -> bool
    ensures { result ≡ is_among end_names name.now }
{
    is_named(name, "transfer-encoding")
        || is_named(name, "trailer")
        || is_named(name, "content-length")
}

/// Writes what a body in chunks stands for.
fn put_value<O: Sink>(out: &mut O, body: &[u8]) -> Result<(), Failed>
    requires { AreChunks body.now }
    ensures puts { (value : List ℕ) → AreChunksOf value body.now → Puts (O.held out.old) (O.held out.new) result value }
    ensures kept_stays { O.kept out.new ≡ O.kept out.old }
    ensures cause { HasCause (O.Faulty.faults out.old) (O.Faulty.faults out.new) result }
{
    chunks_are_determined();
    let mut at = 0;
    'chunks: loop {
        let (_, rest) = body.split_at(at);
        match next_chunk(rest, BOUNDS) {
            Chunk::Data(start, end) => match put_all(out, &rest[start..end]) {
                Ok(()) => at += end + 2,
                Err(failed) => return Err(failed),
            },
            Chunk::Last(_) => return Ok(()),
            Chunk::Cut => unreachable!(),
            Chunk::Never => unreachable!(),
        }
    }
}

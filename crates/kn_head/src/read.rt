//! A whole request, read from a stream.
ghost use Rattle.std.specs.Prelude.{◌≡◌, ◌≤◌, IfOk, IfErr, IfSome, Err};
ghost use Rattle.kn_io.specs.Causes.{Rose};
ghost use Rattle.kn_head.specs.Told.{unread, LosesFront};
ghost use Rattle.kn_head.specs.Chunks.{BytesFail};
ghost use Rattle.kn_head.specs.Reading.{HasBodyOf, HasBody, BodyFails, is_chunked, GivesOwner, Reads};
ghost use Rattle.kn_head.specs.Calls.{DrawsSource, IsFaultIn, TakesHead};

use crate::chunks::{take_bytes, take_chunks};
use crate::find::find_head;
use crate::head::{Head, HeadError, Headers};
use crate::parts::{Parts, copy_parts, copy_text};
use crate::rules::{Form, body_form, owner};
use crate::window::Window;
use httparse::spans::EMPTY_HEADER_SPAN;
use kn_event::{Memory, Text};
use kn_io::Source;
use std::alloc::Global;

/// Takes the head and copies its parts.
fn read_parts<S: Source>(
    alloc: Global,
    source: &mut S,
    window: &mut Window,
) -> Result<Parts, HeadError>
    ensures parts { IfOk result (TakesHead window.old window.new S.Source.own source.old source.new) }
    ensures fails { IfErr result (IsFaultIn (λ bytes e. Reads bytes (Err e)) window.old S.Source.own source.old) }
    ensures fault { result ≡ Err HeadError.ReadFault → Rose (S.Faulty.faults source.old) (S.Faulty.faults source.new) }
    ensures source { DrawsSource S.Source.own S.Faulty source.old source.new }
{
    let mut spans = [EMPTY_HEADER_SPAN; 100];
    let found = find_head(source, window, &mut spans)?;
    match copy_parts(alloc, window.bytes(), &spans, found) {
        Ok(parts) => {
            window.advance(found.len);
            Ok(parts)
        }
        Err(Memory) => Err(HeadError::Memory),
    }
}

/// Whose request it is.
fn read_owner(alloc: Global, headers: &Headers) -> Result<(Text, Text), HeadError>
    ensures { GivesOwner headers.now result }
{
    match owner(headers) {
        Some((namespace, revision)) => match copy_text(alloc, namespace) {
            Ok(namespace) => match copy_text(alloc, revision) {
                Ok(revision) => Ok((namespace, revision)),
                Err(Memory) => Err(HeadError::Memory),
            },
            Err(Memory) => Err(HeadError::Memory),
        },
        None => Err(HeadError::NoRevision),
    }
}

/// Takes a body of so many bytes.
fn read_plain<S: Source>(
    alloc: Global,
    source: &mut S,
    window: &mut Window,
    n: u64,
) -> Result<Text, HeadError>
    ensures body { IfOk result (λ body. IfSome (unread window.old (S.left source.old)) (HasBodyOf n body)) }
    ensures fails { IfErr result (IsFaultIn (BytesFail n) window.old S.Source.own source.old) }
    ensures fault { result ≡ Err HeadError.ReadFault → Rose (S.Faulty.faults source.old) (S.Faulty.faults source.new) }
    ensures source { DrawsSource S.Source.own S.Faulty source.old source.new }
{
    let n = n as usize;
    let mut body = match Vec::with_capacity(alloc, n) {
        Ok(body) => body,
        Err(_) => return Err(HeadError::Memory),
    };
    match take_bytes(source, window, n, &mut body) {
        Ok(()) => Ok(Text::new(body)),
        Err(e) => Err(e),
    }
}

/// Takes the body, in whichever form it comes.
fn read_body<S: Source>(
    alloc: Global,
    source: &mut S,
    window: &mut Window,
    form: Form,
) -> Result<Text, HeadError>
    ensures body { IfOk result (λ body. IfSome (unread window.old (S.left source.old)) (λ bytes. HasBody form bytes body)) }
    ensures fails { IfErr result (IsFaultIn (BodyFails form) window.old S.Source.own source.old) }
    ensures fault { result ≡ Err HeadError.ReadFault → Rose (S.Faulty.faults source.old) (S.Faulty.faults source.new) }
    ensures source { DrawsSource S.Source.own S.Faulty source.old source.new }
{
    match form {
        Form::Plain(n) => read_plain(alloc, source, window, n),
        Form::Chunked => match take_chunks(alloc, source, window) {
            Ok(body) => Ok(Text::new(body)),
            Err(e) => Err(e),
        },
    }
}

fn is_chunked(form: Form) -> bool
    ensures { result ≡ is_chunked form }
{
    match form {
        Form::Plain(_) => false,
        Form::Chunked => true,
    }
}

/// Reads a request: its head of at most 16,384 bytes and 100 fields, and its body of at most 1,048,576 bytes, which
/// comes as `Content-Length` says or in chunks. What follows it in the bytes that were read is dropped.
pub fn read_head<S: Source>(alloc: Global, source: &mut S) -> Result<Head, HeadError>
    ensures reads { IfSome (S.left source.old) (λ bytes. Reads bytes result) }
    ensures fault { result ≡ Err HeadError.ReadFault → Rose (S.Faulty.faults source.old) (S.Faulty.faults source.new) }
    ensures front { LosesFront (S.left source.old) (S.left source.new) }
    ensures apart_stays { S.apart source.new ≡ S.apart source.old }
    ensures never_falls { S.Faulty.faults source.old ≤ S.Faulty.faults source.new }
{
    let mut window = Window::new();
    let parts = read_parts(alloc, source, &mut window)?;
    let Parts {
        method,
        target,
        minor,
        headers,
    } = parts;
    let (namespace, revision) = read_owner(alloc, &headers)?;
    let form = body_form(&headers)?;
    let body = read_body(alloc, source, &mut window, form)?;
    let chunked = is_chunked(form);
    Ok(Head {
        method,
        target,
        minor,
        headers,
        namespace,
        revision,
        body,
        chunked,
    })
}

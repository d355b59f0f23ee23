//! The bytes that are sent on to a pod.
ghost use Rattle.std.specs.Prelude.{◌≡◌, ◌≤◌, ◌+◌, ◌++◌, Bool, true, length, sum, vec_capacity, IfOk, IfSome};
ghost use Rattle.kn_head.specs.Forwarding.{request_line, field_line, is_kept, kept_lines, length_line, proxy_line, last_lines, forwarded};

use crate::fields::{is_hop, is_of_chunks};
use crate::head::{Head, Headers};
use itoa::Buffer;
use kn_event::{Memory, Text};
use std::alloc::Global;
use std::marker::Model;

/// Room for a request as it is sent on, taken before it is known by which way it goes. Contracts see how many bytes
/// it holds.
#[derive(Drop)]
pub struct Forward {
    out: Vec<u8>,
}

impl Model for Forward {
    ghost use Rattle.std.specs.Prelude.{◌≡◌, ℕ, [], vec_capacity};

    ghost Value = { ℕ };

    ghost view = { λ f. vec_capacity f.out };

    ghost invariant = { λ f. f.out.items ≡ [] };
}

/// The sum, if it fits.
fn total(parts: &[usize]) -> Option<usize>
    ensures { IfSome result (λ n. n ≡ sum parts.now) }
{
    let mut all = 0usize;
    for part in parts {
        all = all.checked_add(*part)?;
    }
    Some(all)
}

#[tactic(auto, unfolding(crate::specs::Forwarding::is_kept))]
fn is_kept(field: &(Text, Text), chunked: bool) -> bool
    ensures { result ≡ is_kept chunked field.now }
{
    let name = field.0.bytes();
    !(is_hop(name) || (chunked && is_of_chunks(name)))
}

#[tactic(auto, using(std::proofs::lemmas::Grind::common_steps), unfolding(crate::specs::Forwarding::field_line))]
fn field_length(field: &(Text, Text)) -> Option<usize>
    ensures { IfSome result (λ n. n ≡ length (field_line field.now)) }
{
    total(&[field.0.bytes().len(), field.1.bytes().len(), 4])
}

fn kept_length(headers: &Headers, chunked: bool) -> Option<usize>
    ensures { IfSome result (λ n. n ≡ length (kept_lines chunked headers.now)) }
{
    let mut all = 0usize;
    for field in headers.items() {
        if is_kept(field, chunked) {
            all = all.checked_add(field_length(field)?)?;
        }
    }
    Some(all)
}

#[tactic(auto, unfolding(crate::specs::Forwarding::length_line))]
fn length_length(body: &[u8], chunked: bool) -> usize
    ensures { result ≡ length (length_line chunked body.now) }
{
    if !chunked {
        return 0;
    }
    let mut digits = Buffer::new();
    18 + digits.format(body.len()).len()
}

/// How many bytes the request has as it is sent on where it went through the activator: the other form has no more.
#[tactic(auto, using(std::proofs::lemmas::Grind::common_steps), unfolding(crate::specs::Forwarding::forwarded, crate::specs::Forwarding::last_lines, crate::specs::Forwarding::request_line, crate::specs::Forwarding::proxy_line))]
fn forward_length(head: &Head) -> Option<usize>
    ensures { IfSome result (λ n. n ≡ length (forwarded head.now true)) }
{
    let kept = kept_length(&head.headers, head.chunked)?;
    let said = length_length(head.body.bytes(), head.chunked);
    total(&[
        head.method.bytes().len(),
        head.target.bytes().len(),
        12,
        kept,
        said,
        28 + 21,
        head.body.bytes().len(),
    ])
}

fn put(out: &mut Vec<u8>, bytes: &[u8])
    requires { length out.old.items + length bytes.now ≤ vec_capacity out.old }
    ensures bytes { out.new.items ≡ out.old.items ++ bytes.now }
    ensures room { vec_capacity out.old ≤ vec_capacity out.new }
{
    match out.extend_from_slice(bytes) {
        Ok(()) => {}
        Err(_) => unreachable!(),
    }
}

#[tactic(auto, using(std::proofs::Common::append_assoc), unfolding(crate::specs::Forwarding::request_line))]
fn put_request_line(out: &mut Vec<u8>, head: &Head)
    requires { length out.old.items + length (request_line head.now) ≤ vec_capacity out.old }
    ensures bytes { out.new.items ≡ out.old.items ++ request_line head.now }
    ensures room { vec_capacity out.old ≤ vec_capacity out.new }
{
    put(out, head.method.bytes());
    put(out, b" ");
    put(out, head.target.bytes());
    put(out, b" HTTP/1.1\r\n");
}

#[tactic(auto, using(std::proofs::Common::append_assoc), unfolding(crate::specs::Forwarding::field_line))]
fn put_field(out: &mut Vec<u8>, field: &(Text, Text))
    requires { length out.old.items + length (field_line field.now) ≤ vec_capacity out.old }
    ensures bytes { out.new.items ≡ out.old.items ++ field_line field.now }
    ensures room { vec_capacity out.old ≤ vec_capacity out.new }
{
    put(out, field.0.bytes());
    put(out, b": ");
    put(out, field.1.bytes());
    put(out, b"\r\n");
}

fn put_kept(out: &mut Vec<u8>, headers: &Headers, chunked: bool)
    requires { length out.old.items + length (kept_lines chunked headers.now) ≤ vec_capacity out.old }
    ensures bytes { out.new.items ≡ out.old.items ++ kept_lines chunked headers.now }
    ensures room { vec_capacity out.old ≤ vec_capacity out.new }
{
    for field in headers.items() {
        if is_kept(field, chunked) {
            put_field(out, field);
        }
    }
}

#[tactic(auto, using(std::proofs::Common::append_assoc), unfolding(crate::specs::Forwarding::length_line))]
fn put_length(out: &mut Vec<u8>, body: &[u8], chunked: bool)
    requires { length out.old.items + length (length_line chunked body.now) ≤ vec_capacity out.old }
    ensures bytes { out.new.items ≡ out.old.items ++ length_line chunked body.now }
    ensures room { vec_capacity out.old ≤ vec_capacity out.new }
{
    if !chunked {
        return;
    }
    let mut digits = Buffer::new();
    put(out, b"Content-Length: ");
    put(out, digits.format(body.len()).as_bytes());
    put(out, b"\r\n");
}

#[tactic(auto, unfolding(crate::specs::Forwarding::proxy_line))]
fn put_proxy(out: &mut Vec<u8>, proxied: bool)
    requires { length out.old.items + length (proxy_line proxied) ≤ vec_capacity out.old }
    ensures bytes { out.new.items ≡ out.old.items ++ proxy_line proxied }
    ensures room { vec_capacity out.old ≤ vec_capacity out.new }
{
    if proxied {
        put(out, b"K-Proxy-Request: activator\r\n");
    }
}

impl Forward {
    /// Room for the request by either way, and for no more.
    pub fn reserve(alloc: Global, head: &Head) -> Result<Forward, Memory>
        ensures either { IfOk result (λ room. (proxied : Bool) → length (forwarded head.now proxied) ≤ room) }
        ensures least { IfOk result (λ room. room ≡ length (forwarded head.now true)) }
    {
        let Some(room) = forward_length(head) else {
            return Err(Memory);
        };
        match Vec::with_capacity(alloc, room) {
            Ok(out) => Ok(Forward { out }),
            Err(_) => Err(Memory),
        }
    }

    /// The request as it is sent on: `proxied` where it went through the activator. No memory is taken.
    #[tactic(auto, using(std::proofs::Common::append_assoc), unfolding(crate::specs::Forwarding::forwarded, crate::specs::Forwarding::last_lines))]
    pub fn fill(self, head: &Head, proxied: bool) -> Text
        requires { length (forwarded head.now proxied) ≤ self }
        ensures { result ≡ forwarded head.now proxied }
    {
        let Forward { mut out } = self;
        put_request_line(&mut out, head);
        put_kept(&mut out, &head.headers, head.chunked);
        put_length(&mut out, head.body.bytes(), head.chunked);
        put_proxy(&mut out, proxied);
        put(&mut out, b"Connection: close\r\n\r\n");
        put(&mut out, head.body.bytes());
        Text::new(out)
    }
}

/// The bytes of a request as they are sent on: `proxied` where it went through the activator.
pub fn forward_bytes(alloc: Global, head: &Head, proxied: bool) -> Result<Text, Memory>
    ensures { IfOk result (λ bytes. bytes ≡ forwarded head.now proxied) }
{
    let room = Forward::reserve(alloc, head)?;
    Ok(room.fill(head, proxied))
}

//! Where a pod's reply ends.
ghost use Rattle.std.specs.Prelude.{◌≡◌, ◌≤◌, ◌==◌, ◌||◌, ℕ, true, false, IfSome, All, length, OnErr, IsNone};
ghost use Rattle.std.specs.List.{list_all, list_any};
ghost use Rattle.httparse.specs.Outcome.{IfComplete, OnPartial};
ghost use Rattle.httparse.specs.Spans.{IsHeaderWithin};
ghost use Rattle.kn_http.specs.Numbers.{says};
ghost use Rattle.kn_reply.specs.Replies.{ends_in_chunks, has_no_body, is_chunks_coding, is_coding};
ghost use Rattle.kn_reply.specs.Ends.{AllAgree, FindsLength, IsStageOf, JudgedIs, Meets, MeetsAny, NeverReply, NoReply, NoStage, StageWithin};
ghost use Rattle.kn_reply.specs.Ends.{agrees, fields_in};

use crate::chunks::{Followed, follow};
use crate::heads::{MOST_FIELDS, Never, answer_head};
use http::StatusCode;
use httparse::Status;
use httparse::spans::{EMPTY_HEADER_SPAN, HeaderSpan};
use kn_http::{is_named, is_word, number};

/// How many bytes a reply may have.
pub(crate) const MOST_REPLY: usize = 1_114_112;

/// What decides where a reply ends, once its heads are here: this place; chunks, of which the first that isn't here whole
/// begins at this place; or the end of the stream.
#[derive(Clone, Copy)]
pub(crate) enum Stage {
    Until(usize),
    Chunks(usize),
    Open,
}

/// What the bytes that came are: a whole reply, of so many of them; no whole reply yet, and this far; or what never is one,
/// whatever follows.
#[derive(Clone, Copy)]
pub(crate) enum Judged {
    Ended(usize),
    More(Option<Stage>),
    Never,
}

/// Judges what came of the reply to a request, from the stage that was reached before on. A reply is at most 15 interim
/// heads, of a status 1xx that isn't 101, then the head of the answer, with at most 256 fields each, and a body. An answer
/// to HEAD, and one of status 101, 204 or 304, has no body whatever its fields say. Else the body ends
///
/// - with the last chunk and its trailer, of at most 256 fields, where a `Transfer-Encoding` ends in `chunked`;
/// - with the stream, where there is another `Transfer-Encoding`, or neither that nor a `Content-Length`;
/// - else after so many bytes as each `Content-Length` says. Where two don't agree, there is no reply.
pub(crate) fn judge(request: &[u8], reply: &[u8], stage: Option<Stage>) -> Judged
    requires short { length reply.now ≤ 1122304 }
    requires right { MeetsAny request.now reply.now stage }
    ensures { JudgedIs request.now reply.now result }
{
    match reached(request, reply, stage) {
        Ok(Status::Complete(stage)) => match stage {
            Stage::Until(end) if end <= reply.len() => Judged::Ended(end),
            Stage::Until(_) | Stage::Open => Judged::More(Some(stage)),
            Stage::Chunks(at) => match follow(reply, at) {
                Followed::Ended(n) => Judged::Ended(n),
                Followed::Cut(n) => Judged::More(Some(Stage::Chunks(n))),
                Followed::Never => Judged::Never,
            },
        },
        Ok(Status::Partial) => Judged::More(None),
        Err(_) => Judged::Never,
    }
}

/// The stage, which may have been reached before.
fn reached(request: &[u8], reply: &[u8], stage: Option<Stage>) -> Result<Status<Stage>, Never>
    requires short { length reply.now ≤ 1122304 }
    requires right { MeetsAny request.now reply.now stage }
    ensures whole { IfComplete result (Meets request.now reply.now) }
    ensures cut { OnPartial result (NoReply request.now reply.now) }
    ensures never { OnErr result (NeverReply request.now reply.now) }
{
    match stage {
        Some(stage) => Ok(Status::Complete(stage)),
        None => stage_of(request, reply),
    }
}

/// The stage after the heads.
fn stage_of(request: &[u8], reply: &[u8]) -> Result<Status<Stage>, Never>
    requires { length reply.now ≤ 1122304 }
    ensures whole { IfComplete result (Meets request.now reply.now) }
    ensures cut { OnPartial result (NoReply request.now reply.now) }
    ensures never { OnErr result (NeverReply request.now reply.now) }
{
    let mut spans = [EMPTY_HEADER_SPAN; MOST_FIELDS];
    match answer_head(reply, &mut spans) {
        Ok(Status::Complete((start, head))) => {
            let none = has_no_body(request, head.code);
            let fields = &spans[..head.headers];
            match body_of(none, &reply[start..], fields, start + head.len) {
                Some(stage) => Ok(Status::Complete(stage)),
                None => Err(Never),
            }
        }
        Ok(Status::Partial) => Ok(Status::Partial),
        Err(_) => Err(Never),
    }
}

fn is_bodiless(code: u16) -> bool
    ensures { result ≡ (code == 101 || (code == 204 || code == 304)) }
{
    match StatusCode::from_u16(code) {
        Ok(status) => {
            status == StatusCode::SWITCHING_PROTOCOLS
                || status == StatusCode::NO_CONTENT
                || status == StatusCode::NOT_MODIFIED
        }
        Err(_) => false,
    }
}

/// Whether an answer to this request with this status has no body.
fn has_no_body(request: &[u8], code: u16) -> bool
    ensures { result ≡ has_no_body request.now code }
{
    request.starts_with(b"HEAD ") || is_bodiless(code)
}

/// How a body ends that begins at this place, by the fields, whose spans are of this text. There may be none.
fn body_of(none: bool, text: &[u8], fields: &[HeaderSpan], at: usize) -> Option<Stage>
    requires fields { All (IsHeaderWithin (length text.now)) fields.now }
    requires at { at ≤ 1122304 }
    ensures stage { IfSome result (IsStageOf none (fields_in text.now fields.now) at) }
    ensures within { IfSome result (StageWithin at) }
    ensures none { IsNone result → NoStage none (fields_in text.now fields.now) }
{
    if none {
        return Some(Stage::Until(at));
    }
    if is_in_chunks(text, fields) {
        return Some(Stage::Chunks(at));
    }
    if is_coded(text, fields) {
        return Some(Stage::Open);
    }
    match length_of(text, fields) {
        None => Some(Stage::Open),
        Some(value) => {
            let count = size_of(text, fields, value)?;
            Some(Stage::Until(at + count))
        }
    }
}

/// How many bytes each length says, where the value is of one of them.
fn size_of(text: &[u8], fields: &[HeaderSpan], value: &[u8]) -> Option<usize>
    requires fields { All (IsHeaderWithin (length text.now)) fields.now }
    requires first { (n : ℕ) → AllAgree (fields_in text.now fields.now) n → says n value.now ≡ true }
    ensures all { IfSome result (λ n. (n ≤ 1114112) × AllAgree (fields_in text.now fields.now) n) }
    ensures only { IfSome result (λ n. (m : ℕ) → AllAgree (fields_in text.now fields.now) m → m ≡ n) }
    ensures none { IsNone result → (m : ℕ) → m ≤ 1114112
        → list_all (agrees m) (fields_in text.now fields.now) ≡ false }
{
    match number(value) {
        Some(n) if n <= MOST_REPLY as u64 && all_agree(text, fields, n) => Some(n as usize),
        _ => None,
    }
}

/// What the first length says.
fn length_of<'a>(text: &'a [u8], fields: &[HeaderSpan]) -> Option<&'a [u8]>
    requires { All (IsHeaderWithin (length text.now)) fields.now }
    ensures some { IfSome result (λ v. (n : ℕ) → AllAgree (fields_in text.now fields.now) n → says n v.now ≡ true) }
    ensures any { FindsLength result (fields_in text.now fields.now) }
{
    for field in fields {
        if is_named(field.name.of(text), "content-length") {
            return Some(field.value.of(text));
        }
    }
    None
}

/// Whether each length that the fields say is so many.
fn all_agree(text: &[u8], fields: &[HeaderSpan], count: u64) -> bool
    requires { All (IsHeaderWithin (length text.now)) fields.now }
    ensures { result ≡ list_all (agrees count) (fields_in text.now fields.now) }
{
    for field in fields {
        if !agrees(field.name.of(text), field.value.of(text), count) {
            return false;
        }
    }
    true
}

/// Whether there is a coding.
pub(crate) fn is_coded(text: &[u8], fields: &[HeaderSpan]) -> bool
    requires { All (IsHeaderWithin (length text.now)) fields.now }
    ensures { result ≡ list_any is_coding (fields_in text.now fields.now) }
{
    for field in fields {
        if is_named(field.name.of(text), "transfer-encoding") {
            return true;
        }
    }
    false
}

/// Whether a coding ends in chunks.
fn is_in_chunks(text: &[u8], fields: &[HeaderSpan]) -> bool
    requires { All (IsHeaderWithin (length text.now)) fields.now }
    ensures { result ≡ list_any is_chunks_coding (fields_in text.now fields.now) }
{
    for field in fields {
        if is_chunks_coding(field.name.of(text), field.value.of(text)) {
            return true;
        }
    }
    false
}

fn is_chunks_coding(name: &[u8], value: &[u8]) -> bool
    ensures { result ≡ is_chunks_coding (name.now, value.now) }
{
    is_named(name, "transfer-encoding") && ends_in_chunks(value)
}

fn ends_in_chunks(value: &[u8]) -> bool
    ensures { result ≡ ends_in_chunks value.now }
{
    is_word(&value[value.len().saturating_sub(7)..], b"chunked")
}

/// Whether a field is no length, or one that says so many.
fn agrees(name: &[u8], value: &[u8], count: u64) -> bool
    ensures { result ≡ agrees count (name.now, value.now) }
{
    !is_named(name, "content-length") || says(value, count)
}

/// Whether this says the number.
fn says(value: &[u8], count: u64) -> bool
    ensures { result ≡ says count value.now }
{
    match number(value) {
        Some(n) => n == count,
        None => false,
    }
}

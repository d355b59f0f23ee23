//! The parts of a head, copied out of the bytes that came.
ghost use Rattle.std.specs.Prelude.{◌≡◌, length, map, take, All, IfOk};
ghost use Rattle.httparse.specs.Spans.{IsHeaderWithin, IsRequestWithin, header_bytes, span_bytes};

use crate::head::Headers;
use httparse::spans::{HeaderSpan, RequestSpans};
use kn_event::{Items, Memory, Text};
use std::alloc::Global;

/// What is kept of a head.
#[derive(Drop)]
pub(crate) struct Parts {
    pub(crate) method: Text,
    pub(crate) target: Text,
    pub(crate) minor: u8,
    pub(crate) headers: Headers,
}

/// A text of these bytes.
pub(crate) fn copy_text(alloc: Global, bytes: &[u8]) -> Result<Text, Memory>
    ensures { IfOk result (λ text. text ≡ bytes.now) }
{
    match Vec::from_slice(alloc, bytes) {
        Ok(bytes) => Ok(Text::new(bytes)),
        Err(_) => Err(Memory),
    }
}

/// The fields that the spans cover.
fn copy_headers(alloc: Global, bytes: &[u8], spans: &[HeaderSpan]) -> Result<Headers, Memory>
    requires { All (IsHeaderWithin (length bytes.now)) spans.now }
    ensures { IfOk result (λ headers. headers ≡ map (header_bytes bytes.now) spans.now) }
{
    let mut headers = Vec::new(alloc);
    for span in spans {
        let name = copy_text(alloc, span.name.of(bytes))?;
        let value = copy_text(alloc, span.value.of(bytes))?;
        match headers.push((name, value)) {
            Ok(()) => {}
            Err(_) => return Err(Memory),
        }
    }
    Ok(Items::new(headers))
}

/// The parts that the spans cover.
pub(crate) fn copy_parts(
    alloc: Global,
    bytes: &[u8],
    spans: &[HeaderSpan],
    found: RequestSpans,
) -> Result<Parts, Memory>
    requires { IsRequestWithin bytes.now spans.now found }
    ensures method { IfOk result (λ parts. parts.method ≡ span_bytes bytes.now found.method) }
    ensures target { IfOk result (λ parts. parts.target ≡ span_bytes bytes.now found.path) }
    ensures minor { IfOk result (λ parts. parts.minor ≡ found.version) }
    ensures headers { IfOk result (λ parts. parts.headers ≡ map (header_bytes bytes.now) (take found.headers spans.now)) }
{
    let method = copy_text(alloc, found.method.of(bytes))?;
    let target = copy_text(alloc, found.path.of(bytes))?;
    let headers = copy_headers(alloc, bytes, &spans[..found.headers])?;
    Ok(Parts {
        method,
        target,
        minor: found.version,
        headers,
    })
}

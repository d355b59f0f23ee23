//! The parts of a body in chunks, each at the front of the bytes that came.
ghost use Rattle.std.specs.Prelude.{◌≡◌, ◌≤◌, true, false};
ghost use Rattle.kn_http.specs.Parts.{HasRoom, IsFull, LineEndIs, SizeLineIs, TrailerIs, first};

use httparse::spans::{EMPTY_HEADER_SPAN, parse_headers};
use httparse::{Status, parse_chunk_size};

/// How many fields there is room for.
const ROOM: usize = 256;

/// How long the parts of a body in chunks may be.
#[derive(Clone, Copy)]
pub struct Bounds {
    /// The most bytes of a size line, its end included. `None`: any number.
    pub line: Option<usize>,
    /// The most fields of a trailer, 256 at most.
    pub fields: usize,
    /// The most bytes of a trailer, its end included. `None`: any number.
    pub trailer: Option<usize>,
}

/// What the bytes that came have at their front: all of what is wanted; not all of it yet; or never any, whatever follows.
#[derive(Clone, Copy)]
pub enum Front<T> {
    Whole(T),
    Cut,
    Never,
}

/// So many of the bytes, or all.
fn first(bytes: &[u8], most: Option<usize>) -> &[u8]
    ensures { result.now ≡ first most bytes.now }
{
    match most {
        Some(most) if most < bytes.len() => &bytes[..most],
        _ => bytes,
    }
}

/// Whether there are as many as there may be, or more.
fn is_full(bytes: &[u8], most: Option<usize>) -> bool
    ensures full { result ≡ true → IsFull most bytes.now }
    ensures room { result ≡ false → HasRoom most bytes.now }
{
    match most {
        Some(most) => most <= bytes.len(),
        None => false,
    }
}

/// The size line: where it ends, and the size.
pub fn size_line(bytes: &[u8], bounds: Bounds) -> Front<(usize, u64)>
    ensures { SizeLineIs bounds bytes.now result }
{
    match parse_chunk_size(first(bytes, bounds.line)) {
        Ok(Status::Complete(found)) => Front::Whole(found),
        Ok(Status::Partial) => {
            if is_full(bytes, bounds.line) {
                Front::Never
            } else {
                Front::Cut
            }
        }
        Err(_) => Front::Never,
    }
}

/// The trailer behind the last chunk's size line: where it ends.
pub fn trailer(bytes: &[u8], bounds: Bounds) -> Front<usize>
    requires { bounds.fields ≤ 256 }
    ensures { TrailerIs bounds bytes.now result }
{
    let mut spans = [EMPTY_HEADER_SPAN; ROOM];
    match parse_headers(first(bytes, bounds.trailer), &mut spans[..bounds.fields]) {
        Ok(Status::Complete((end, _))) => Front::Whole(end),
        Ok(Status::Partial) => {
            if is_full(bytes, bounds.trailer) {
                Front::Never
            } else {
                Front::Cut
            }
        }
        Err(_) => Front::Never,
    }
}

/// CR LF, which stands behind a chunk's data: where it ends.
pub fn line_end(bytes: &[u8]) -> Front<usize>
    ensures { LineEndIs bytes.now result }
{
    match bytes {
        [] => Front::Cut,
        [b'\r'] => Front::Cut,
        [b'\r', b'\n', ..] => Front::Whole(2),
        _ => Front::Never,
    }
}

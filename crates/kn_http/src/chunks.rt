//! The chunks of a body, one after the other.
ghost use Rattle.std.specs.Prelude.{◌≤◌, ◌<◌, ℕ, List, ◌++◌, drop, length};
ghost use Rattle.kn_http.specs.Chunks.{IsSizeLine};
ghost use Rattle.kn_http.specs.Next.{BodyIs, ChunkIs};

use crate::parts::{Bounds, Front, line_end, size_line, trailer};

/// The chunk at the front of the bytes that came.
#[derive(Clone, Copy)]
pub enum Chunk {
    /// The last one, which ends here with its trailer.
    Last(usize),
    /// Another, whose data are from here to there. CR LF is behind them, and then the next chunk.
    Data(usize, usize),
    /// One that isn't here to its end.
    Cut,
    /// There never is one, whatever follows.
    Never,
}

/// The chunk at the front, and what it says of the body in chunks that begins with it.
pub fn next_chunk(bytes: &[u8], bounds: Bounds) -> Chunk
    requires { bounds.fields ≤ 256 }
    ensures chunk { ChunkIs bounds bytes.now result }
    ensures body { BodyIs bounds bytes.now result }
{
    match size_line(bytes, bounds) {
        Front::Whole((start, size)) if size == 0 => last_chunk(bytes, start, bounds),
        Front::Whole((start, size)) => inner_chunk(bytes, start, size, bounds),
        Front::Cut => Chunk::Cut,
        Front::Never => Chunk::Never,
    }
}

/// The last chunk, whose size line ends here.
fn last_chunk(bytes: &[u8], start: usize, bounds: Bounds) -> Chunk
    requires fields { bounds.fields ≤ 256 }
    requires within { start ≤ length bytes.now }
    requires line { (more : List ℕ) → IsSizeLine bounds (bytes.now ++ more) 0 (drop start bytes.now ++ more) }
    ensures { ChunkIs bounds bytes.now result }
{
    let (_, behind) = bytes.split_at(start);
    match trailer(behind, bounds) {
        Front::Whole(end) => Chunk::Last(start + end),
        Front::Cut => Chunk::Cut,
        Front::Never => Chunk::Never,
    }
}

/// Another chunk, whose size line ends here and says so many bytes.
fn inner_chunk(bytes: &[u8], start: usize, size: u64, bounds: Bounds) -> Chunk
    requires within { start ≤ length bytes.now }
    requires line { (more : List ℕ) → IsSizeLine bounds (bytes.now ++ more) size (drop start bytes.now ++ more) }
    requires some { 0 < size }
    ensures { ChunkIs bounds bytes.now result }
{
    let (_, behind) = bytes.split_at(start);
    if size > behind.len() as u64 {
        return Chunk::Cut;
    }
    let (_, after) = behind.split_at(size as usize);
    match line_end(after) {
        Front::Whole(_) => Chunk::Data(start, start + size as usize),
        Front::Cut => Chunk::Cut,
        Front::Never => Chunk::Never,
    }
}

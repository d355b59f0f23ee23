//! A body in chunks.
ghost use Rattle.std.specs.Prelude.{◌≤◌, length};
ghost use Rattle.kn_reply.specs.Ends.{FollowedIs};

use kn_http::{Bounds, Chunk, next_chunk};

/// A size line and a trailer may have any number of bytes.
pub(crate) const BOUNDS: Bounds = Bounds {
    line: None,
    fields: 256,
    trailer: None,
};

/// How far a body in chunks is here: to its end, which is at this place; up to a chunk that is cut, which begins at this
/// place; or it never is one.
#[derive(Clone, Copy)]
pub(crate) enum Followed {
    Ended(usize),
    Cut(usize),
    Never,
}

/// Follows the chunks from this place on. What comes after the last one doesn't matter.
pub(crate) fn follow(reply: &[u8], start: usize) -> Followed
    requires { start ≤ length reply.now }
    ensures { FollowedIs reply.now start result }
{
    let mut at = start;
    'chunks: loop {
        match next_chunk(&reply[at..], BOUNDS) {
            Chunk::Last(n) => return Followed::Ended(at + n),
            Chunk::Data(_, end) => at += end + 2,
            Chunk::Cut => return Followed::Cut(at),
            Chunk::Never => return Followed::Never,
        }
    }
}

//! The heads of a reply.
ghost use Rattle.std.specs.Prelude.{◌≡◌, length, OnErr};
ghost use Rattle.httparse.specs.Outcome.{IfComplete, OnPartial};
ghost use Rattle.kn_reply.specs.Replies.{is_interim};
ghost use Rattle.kn_reply.specs.Ends.{IsHeadAt, NeverHeads, NoHeads};

use http::StatusCode;
use httparse::Status;
use httparse::spans::{HeaderSpan, ResponseSpans, parse_response};

/// How many fields a head may have.
pub(crate) const MOST_FIELDS: usize = 256;

/// How many heads, with the answer's own.
const MOST_HEADS: u32 = 16;

/// What never is a reply, whatever follows.
#[derive(Clone, Copy)]
pub(crate) struct Never;

/// The head of the answer, which comes after at most 15 interim heads: where it begins, and where its parts are in the
/// bytes from there on. Each head has at most 256 fields.
pub(crate) fn answer_head(
    reply: &[u8],
    spans: &mut [HeaderSpan],
) -> Result<Status<(usize, ResponseSpans)>, Never>
    requires { length spans.old ≡ 256 }
    ensures whole { IfComplete result (λ found. IsHeadAt reply.now spans.new found.0 found.1) }
    ensures cut { OnPartial result (NoHeads reply.now) }
    ensures never { OnErr result (NeverHeads reply.now) }
{
    let mut at = 0;
    let mut seen = 0;
    'heads: while seen < MOST_HEADS {
        match parse_response(&reply[at..], spans) {
            Ok(Status::Complete(head)) => {
                if !is_interim(head.code) {
                    return Ok(Status::Complete((at, head)));
                }
                at += head.len;
                seen += 1;
            }
            Ok(Status::Partial) => return Ok(Status::Partial),
            Err(_) => return Err(Never),
        }
    }
    Err(Never)
}

fn is_interim(code: u16) -> bool
    ensures { result ≡ is_interim code }
{
    match StatusCode::from_u16(code) {
        Ok(status) => status.is_informational() && status != StatusCode::SWITCHING_PROTOCOLS,
        Err(_) => false,
    }
}

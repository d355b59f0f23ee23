//! A pod's reply as it comes, and what the client is handed of it.
ghost use Rattle.std.specs.Prelude.{◌≤◌, length, [], IfOk, IfSome};
ghost use Rattle.kn_reply.specs.Replies.{IsWholeReply};
ghost use Rattle.kn_reply.specs.Ends.{IsReplyOf, ReadsReply};
ghost use Rattle.kn_reply.specs.Closing.{IsHandedOn, IsHandedOnOf};

use crate::answer::closed;
use crate::reply::{Judged, MOST_REPLY, Stage, judge};
use kn_event::Text;
use kn_io::{LinkError, PIECE};
use std::alloc::Global;
use std::io::Read;

/// What comes, to the end of the reply. What is behind it is dropped.
fn receive<R: Read>(alloc: Global, request: &[u8], stream: &mut R) -> Result<Text, LinkError>
    ensures short { IfOk result (λ reply. length reply ≤ 1114112) }
    ensures exact { IfOk result (λ reply. ReadsReply request.now reply []) }
    ensures sent { IfOk result (λ reply. IfSome (R.remaining stream.old) (λ sent. IsReplyOf request.now sent reply)) }
{
    let mut reply = Vec::new(alloc);
    let mut piece = [0; PIECE];
    let mut stage = None;
    for _ in 0..1u64 << 56 {
        let Ok(n) = stream.read(&mut piece) else {
            return Err(LinkError::Failed);
        };
        if n == 0 {
            return match stage {
                Some(Stage::Open) => Ok(Text::new(reply)),
                _ => Err(LinkError::Failed),
            };
        }
        if reply.extend_from_slice(&piece[..n]).is_err() {
            return Err(LinkError::Memory);
        }
        match judge(request, &reply, stage) {
            Judged::Ended(end) if end <= MOST_REPLY => {
                reply.truncate(end);
                return Ok(Text::new(reply));
            }
            Judged::More(next) if reply.len() <= MOST_REPLY => stage = next,
            _ => return Err(LinkError::Failed),
        }
    }
    Err(LinkError::Failed)
}

/// Reads what a pod sends to the end of its reply to the request, and answers what the client is handed of that reply.
/// What is behind the reply is dropped.
pub fn read_answer<R: Read>(
    alloc: Global,
    request: &[u8],
    stream: &mut R,
) -> Result<Text, LinkError>
    ensures short { IfOk result (λ answer. length answer ≤ 1114646) }
    ensures whole { IfOk result (λ answer. IsWholeReply request.now answer) }
    ensures exact { IfOk result (λ answer. IsHandedOn request.now answer) }
    ensures sent { IfOk result (λ text. IfSome (R.remaining stream.old) (λ sent. IsHandedOnOf request.now sent text)) }
{
    let reply = receive(alloc, request, stream)?;
    closed(alloc, reply.bytes())
}

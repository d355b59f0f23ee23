//! What the definitions say of themselves.
ghost use Rattle.std.specs.Prelude.{◌≡◌, ◌≤◌, ◌+◌, [], ℕ, List, length};
ghost use Rattle.kn_reply.specs.Replies.{IsWholeReply};
ghost use Rattle.kn_reply.specs.Ends.{IsReplyOf, ReadsReply};
ghost use Rattle.kn_reply.specs.Closing.{Closes, IsReplyAgain};
ghost use Rattle.kn_reply.specs.Plain.{IsPlainOf};

use kn_http::chunks_are_determined;

/// What a pod sent has one reply at most. A reply with nothing behind it is a whole reply.
pub fn replies_are_determined()
    ensures one { (request sent a b : List ℕ) → IsReplyOf request sent a → IsReplyOf request sent b → a ≡ b }
    ensures whole { (request reply : List ℕ) → ReadsReply request reply [] → IsWholeReply request reply }
{
    chunks_are_determined();
}

/// A reply has one answer, which is a whole reply to the request again, with the same status and the same body.
pub fn answers_are_replies()
    ensures one { (reply a b : List ℕ) → Closes reply a → Closes reply b → a ≡ b }
    ensures again { (request reply answer : List ℕ) → IsReplyAgain request reply answer }
    ensures longer { (reply answer : List ℕ) → Closes reply answer → length answer ≤ length reply + 534 }
{}

/// An answer has one form that a client of HTTP/1.0 is sent.
pub fn plain_forms_are_determined()
    ensures { (answer a b : List ℕ) → IsPlainOf answer a → IsPlainOf answer b → a ≡ b }
{
    chunks_are_determined();
}

//! What the definitions say of themselves.
ghost use Rattle.std.specs.Prelude.{◌≡◌, ℕ, List, Result};
ghost use Rattle.http.specs.StatusCode.{status_text};
ghost use Rattle.httparse.specs.Grammar.{RequestHead};
ghost use Rattle.kn_head.specs.Answers.{code_of, status_of};
ghost use Rattle.kn_head.specs.declared.answer.Answer.{Answer};
ghost use Rattle.kn_head.specs.declared.head.Head.{Head};
ghost use Rattle.kn_head.specs.declared.head.HeadError.{HeadError};
ghost use Rattle.kn_head.specs.Heads.{BeginsWithHead, HeadFails};
ghost use Rattle.kn_head.specs.Chunks.{IsChunked};
ghost use Rattle.kn_head.specs.Laws.{AreAlike, ReadsNoOther, BeginsOnce, NeverFails, HasOneFault};

use kn_http::chunks_are_determined;

/// The same bytes never have two answers, of which one is a request: where they begin with a request, each answer is this
/// request, unless the source failed or memory was lacking. Bytes begin with one head at most, and with one body in chunks. Two
/// causes for which there is no head are the same, but that EndedEarly or TooLong may stand for Malformed where the bytes end
/// within the target, and TooLong where more than 100 fields come. Behind one head there is one fault at most: of the owner, the
/// length, the coding or the body.
pub fn answers_are_determined()
    ensures request { (bytes : List ℕ) (head : Head) (answer : Result Head HeadError) → ReadsNoOther bytes head answer }
    ensures head { (bytes r q : List ℕ) (h k : RequestHead) → BeginsOnce BeginsWithHead bytes h k r q }
    ensures no_head { (bytes rest : List ℕ) (h : RequestHead) (e : HeadError) → NeverFails bytes h rest e }
    ensures faults { (bytes : List ℕ) (e f : HeadError) → HeadFails bytes e → HeadFails bytes f → AreAlike bytes e f }
    ensures behind { (bytes rest : List ℕ) (h : RequestHead) (e f : HeadError) → HasOneFault bytes h rest e f }
    ensures chunked { (bytes v w r q : List ℕ) → BeginsOnce IsChunked bytes v w r q }
{
    chunks_are_determined();
}

/// The first line of each answer has the code and the phrase that the crate `http` gives its status.
pub fn statuses_are_named()
    ensures { (a : Answer) → status_of a ≡ status_text (code_of a) }
{}

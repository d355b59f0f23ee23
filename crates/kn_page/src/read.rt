//! The head of a request, read from a stream.
ghost use Rattle.std.specs.Prelude.{◌≡◌, ◌+◌, ◌≤◌, ◌++◌, ℕ, List, IfSome, IfOk, OnErr, MatchOption, length};
ghost use Rattle.httparse.specs.Grammar.{HasNoRequest};
ghost use Rattle.kn_io.specs.Causes.{Rose};
ghost use Rattle.kn_head.specs.Told.{LosesFront};
ghost use Rattle.kn_page.specs.Asking.{Asks};

use crate::asked::{Asked, NO_HEAD, asked_of};
use httparse::Status;
use httparse::spans::{EMPTY_HEADER_SPAN, parse_request};
use kn_io::{Failed, Source};

/// What the bytes that came ask for, whatever follows them. `None`: no head has ended yet.
fn judge(bytes: &[u8]) -> Option<Asked>
    requires { length bytes.now ≤ 8192 }
    ensures { MatchOption result (HasNoRequest bytes.now) (λ asked. (more : List ℕ) → Asks (bytes.now ++ more) asked) }
{
    let mut spans = [EMPTY_HEADER_SPAN; 100];
    match parse_request(bytes, &mut spans) {
        Ok(status) => match status {
            Status::Complete(head) => Some(asked_of(head.method.of(bytes), head.path.of(bytes))),
            Status::Partial => None,
        },
        Err(_) => Some(NO_HEAD),
    }
}

/// Reads a head of at most 8,192 bytes and 100 fields, in whatever pieces it comes, and says what it asks for.
pub fn read_asked<S: Source>(source: &mut S) -> Result<Asked, Failed>
    ensures asked { IfOk result (λ asked. IfSome (S.left source.old) (λ bytes. Asks bytes asked)) }
    ensures fault { OnErr result (Rose (S.Faulty.faults source.old) (S.Faulty.faults source.new)) }
    ensures front { LosesFront (S.left source.old) (S.left source.new) }
    ensures apart_stays { S.apart source.new ≡ S.apart source.old }
    ensures never_falls { S.Faulty.faults source.old ≤ S.Faulty.faults source.new }
{
    let mut buffer = [0; 8192];
    let mut len = 0;
    'pieces: loop {
        if let Some(asked) = judge(&buffer[..len]) {
            return Ok(asked);
        }
        if len == 8192 {
            return Ok(NO_HEAD);
        }
        match source.read(&mut buffer[len..]) {
            Ok(0) => return Ok(NO_HEAD),
            Ok(n) => len += n,
            Err(Failed) => return Err(Failed),
        }
    }
}

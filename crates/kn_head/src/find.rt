//! The head at the front of a stream.
ghost use Rattle.std.specs.Prelude.{◌≡◌, ℕ, ◌≤◌, ◌<◌, List, length, Option, IfOk, IfErr, IfSome, IfNone, OnOk};
ghost use Rattle.std.specs.Io.KnownBytes.{Keeps};
ghost use Rattle.httparse.specs.Spans.{IsRequestWithin};
ghost use Rattle.kn_io.specs.Causes.{Rose};
ghost use Rattle.kn_head.specs.Told.{unread, Stops};
ghost use Rattle.kn_head.specs.Heads.{room, limit, FindsHead, IsUnfinished, HeadRefused, HeadFails};
ghost use Rattle.kn_head.specs.Calls.{DrawsSource, IsFaultIn};

use crate::head::HeadError;
use crate::lines::line_feeds_after_blank;
use crate::window::Window;
use httparse::spans::{HeaderSpan, RequestSpans, parse_request};
use httparse::{Error, Status};
use kn_io::Source;

/// What the bytes that came say: a whole head, or that more is wanted, or why they are none.
fn judge(bytes: &[u8], spans: &mut [HeaderSpan]) -> Result<Option<RequestSpans>, HeadError>
    requires { length spans.old ≡ room }
    ensures whole { IfOk result (λ found. IfSome found (FindsHead bytes.now spans.new)) }
    ensures within { IfOk result (λ found. IfSome found (λ r. IsRequestWithin bytes.now spans.new r)) }
    ensures more { IfOk result (λ found. IfNone found (IsUnfinished bytes.now)) }
    ensures refused { IfErr result (HeadRefused bytes.now) }
{
    match parse_request(bytes, spans) {
        Ok(Status::Complete(head)) => Ok(Some(head)),
        Ok(Status::Partial) => Ok(None),
        Err(Error::TooManyHeaders) => Err(HeadError::TooLong),
        Err(_) => Err(HeadError::Malformed),
    }
}

/// Why there is no head where the source stopped after these bytes: where it ended, more than 100 fields may have come. The
/// request line and each field have one line feed.
fn cut_head(stop: HeadError, bytes: &[u8]) -> HeadError
    requires unfinished { IsUnfinished bytes.now }
    requires short { length bytes.now < limit }
    ensures why { (known : Option (List ℕ)) → Stops bytes.now known stop → IfSome known (λ all. HeadFails all result) }
    ensures fault { result ≡ HeadError.ReadFault → stop ≡ HeadError.ReadFault }
{
    match stop {
        HeadError::EndedEarly if line_feeds_after_blank(bytes) > 101 => HeadError::TooLong,
        _ => stop,
    }
}

/// Reads until a head is whole, in whatever pieces it comes. The head still waits then.
pub(crate) fn find_head<S: Source>(
    source: &mut S,
    window: &mut Window,
    spans: &mut [HeaderSpan],
) -> Result<RequestSpans, HeadError>
    requires { length spans.old ≡ room }
    ensures whole { IfOk result (FindsHead window.new spans.new) }
    ensures within { IfOk result (λ r. IsRequestWithin window.new spans.new r) }
    ensures short { OnOk result (length window.new ≤ limit) }
    ensures stays { OnOk result (Keeps (unread window.old (S.left source.old)) (unread window.new (S.left source.new))) }
    ensures fails { IfErr result (IsFaultIn HeadFails window.old S.Source.own source.old) }
    ensures fault { result ≡ Err HeadError.ReadFault → Rose (S.Faulty.faults source.old) (S.Faulty.faults source.new) }
    ensures source { DrawsSource S.Source.own S.Faulty source.old source.new }
{
    'pieces: loop {
        match judge(window.bytes(), spans) {
            Ok(Some(head)) => return Ok(head),
            Ok(None) => {}
            Err(e) => return Err(e),
        }
        if window.bytes().len() == 16384 {
            return Err(HeadError::TooLong);
        }
        match window.fill(source) {
            Ok(()) => {}
            Err(e) => return Err(cut_head(e, window.bytes())),
        }
    }
}

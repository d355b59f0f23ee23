//! The lines of an input, one at a time.
ghost use Rattle.std.specs.Prelude.{◌≡◌, ◌≢◌, ◌↔◌, ◌+◌, ◌≤◌, ◌<◌, [], ◌∷◌, ◌++◌, Option, true, false, Contains, length, take, replicate, IsSome, IsTrue, IfOk, IfSome, MatchOption, OnOk, vec_capacity, vec_len};
ghost use Rattle.kn_journal.specs.LineCalls.{CountsGone, HasLfAt, HasLineOf, IsContent, ReadsLine, ReadsText, TakesAhead, TextAhead};
ghost use Rattle.kn_journal.specs.Drawing.{Draws, line_error};
ghost use Rattle.kn_journal.specs.Lines.{line_most};
ghost use Rattle.kn_journal.specs.Reading.{HasLongLine, TakesPart, most_taken, unread};

use crate::input::{Input, MOST_TAKEN};
use kn_io::{Failed, Source};
use memchr::memchr;

/// How long a line may be, in bytes without its end.
const LINE_MOST: usize = 65536;

/// Why no line was read.
#[derive(Clone, Copy)]
pub enum NoLine {
    /// The source failed, or 2^56 bytes were taken of it. What was read of the line is lost.
    Fault,
    /// The line has more than 65,536 bytes without its end. Some first bytes of it are lost.
    TooLong,
}

/// Adds CRs that no LF followed, where the line stays short enough for them. Else it stays as it was.
fn add_crs(line: &mut Vec<u8>, crs: u64) -> bool
    requires room { line_most ≤ vec_capacity line.old }
    requires short { vec_len line.old ≤ line_most }
    ensures fits { IsTrue result ↔ (vec_len line.old + crs ≤ line_most) }
    ensures added { IsTrue result → line.new.items ≡ line.old.items ++ replicate crs 13 }
    ensures room { line_most ≤ vec_capacity line.new }
{
    if crs > (LINE_MOST - line.len()) as u64 {
        return false;
    }
    for _ in 0..crs {
        let _ = line.push(b'\r');
    }
    true
}

/// Adds one byte that is no LF to a line behind which this many CRs wait for what follows them.
///
/// A CR waits too. Another byte is content, and so are the CRs before it. It answers how many CRs
/// wait then, or nothing where the line is too long.
fn add(line: &mut Vec<u8>, crs: u64, byte: u8) -> Option<u64>
    requires room { line_most ≤ vec_capacity line.old }
    requires short { vec_len line.old ≤ line_most }
    requires few { crs < most_taken }
    ensures cr { byte ≡ 13 → (result ≡ Some (crs + 1)) × (line.new.items ≡ line.old.items) }
    ensures other { byte ≢ 13 → MatchOption result (line_most ≤ vec_len line.old + crs) (λ waiting. (waiting ≡ 0) × (line.new.items ≡ line.old.items ++ (replicate crs 13 ++ byte ∷ []))) }
    ensures count { IfSome result (λ waiting. vec_len line.new + waiting ≡ vec_len line.old + crs + 1) }
    ensures short { IsSome result → vec_len line.new ≤ line_most }
    ensures room { line_most ≤ vec_capacity line.new }
{
    if byte == b'\r' {
        return Some(crs + 1);
    }
    if !add_crs(line, crs) {
        return None;
    }
    if line.len() == LINE_MOST {
        return None;
    }
    let _ = line.push(byte);
    Some(0)
}

/// Reads the next line byte by byte; what it ensures is `read_line`'s.
fn read_by_bytes<S: Source>(
    input: &mut Input,
    source: &mut S,
    line: &mut Vec<u8>,
    cut: &mut bool,
) -> Result<bool, NoLine>
    requires { line_most ≤ vec_capacity line.old }
    ensures taken { IfOk result (ReadsLine line.new.items input.old input.new S.Source.own source.old source.new) }
    ensures text { result ≡ Ok true → ReadsText cut.new input.old input.new S.Source.own source.old source.new }
    ensures content { OnOk result (IsContent line.new.items) }
    ensures long { result ≡ Err NoLine.TooLong → HasLongLine (unread input.old (S.left source.old)) }

    // At a fault no LF was taken.
    ensures source { Draws TakesPart (line_error result) input.old input.new S.Source.own S.Faulty source.old source.new }

    // While an LF is ahead, the source is left alone.
    ensures ready { Contains input.old.ahead 10 → source.new ≡ source.old }

    // Each byte that is gone was counted, however the call ends.
    ensures exact { CountsGone input.old input.new S.Source.own source.old source.new }
    ensures count { OnOk result (input.old.taken + length line.new.items ≤ input.new.taken) }
    ensures strict { result ≡ Ok true → input.old.taken < input.new.taken }
    ensures few { input.new.taken ≤ most_taken }

    ensures capacity { line_most ≤ vec_capacity line.new }
{
    line.clear();
    let mut crs = 0;
    for _ in 0..MOST_TAKEN {
        match input.next(source) {
            Ok(Some(b'\n')) => {
                *cut = false;
                return Ok(true);
            }
            Ok(Some(byte)) => match add(line, crs, byte) {
                Some(waiting) => crs = waiting,
                None => return Err(NoLine::TooLong),
            },
            Ok(None) => {
                if !add_crs(line, crs) {
                    return Err(NoLine::TooLong);
                }
                *cut = true;
                return Ok(!line.is_empty());
            }
            Err(Failed) => return Err(NoLine::Fault),
        }
    }
    Err(NoLine::Fault)
}

/// How long the next line is, where its LF is ahead and no CR stands before that. Nothing is taken.
fn line_ahead(input: &Input) -> Option<usize>
    ensures line { IfSome result (λ len. HasLineOf input.now.ahead len) }
    ensures lf { IfSome result (λ len. HasLfAt input.now.ahead len) }
    ensures inside { IfSome result (λ len. len < length input.now.ahead) }
    ensures fits { IfSome result (λ len. len ≤ line_most) }
    ensures no_lf { IfSome result (λ len. ¬ Contains (take len input.now.ahead) 10) }
    ensures few { IfSome result (λ len. input.now.taken + len < most_taken) }
{
    let ahead = input.ahead();
    let len = memchr(b'\n', ahead)?;
    if len > LINE_MOST || input.may_take() <= len as u64 {
        return None;
    }
    if len > 0 && ahead[len - 1] == b'\r' {
        return None;
    }
    Some(len)
}

/// Takes the next line where its LF is ahead and no CR stands before that. Else nothing is taken.
fn take_ahead(input: &mut Input, line: &mut Vec<u8>) -> bool
    requires { line_most ≤ vec_capacity line.old }
    ensures line { IsTrue result → TakesAhead input.old input.new line.new.items }
    ensures text { IsTrue result → TextAhead false input.old input.new }
    ensures fits { IsTrue result → length line.new.items ≤ line_most }
    ensures no_lf { IsTrue result → ¬ Contains line.new.items 10 }
    ensures exact { IsTrue result → input.old.taken + length input.old.ahead ≡ input.new.taken + length input.new.ahead }
    ensures count { IsTrue result → input.old.taken + length line.new.items ≤ input.new.taken }
    ensures strict { IsTrue result → input.old.taken < input.new.taken }
    ensures few { IsTrue result → input.new.taken ≤ most_taken }
    ensures stays { result ≡ false → input.new ≡ input.old }
    ensures capacity { line_most ≤ vec_capacity line.new }
{
    let Some(len) = line_ahead(input) else {
        return false;
    };
    line.clear();
    let _ = line.extend_from_slice(&input.ahead()[..len]);
    input.skip(len + 1);
    true
}

/// Reads the next line, without its end, into the buffer, or says that the input is at its end. `cut` says whether the input said
/// its end: then the line has no LF.
///
/// A line ends with LF. All CRs right before it are dropped, however many; other CRs are content.
/// Bytes after the last LF are a line too. It takes no memory, and reads from the source only
/// where no whole line is ahead.
pub fn read_line<S: Source>(
    input: &mut Input,
    source: &mut S,
    line: &mut Vec<u8>,
    cut: &mut bool,
) -> Result<bool, NoLine>
    requires { line_most ≤ vec_capacity line.old }
    ensures taken { IfOk result (ReadsLine line.new.items input.old input.new S.Source.own source.old source.new) }
    ensures text { result ≡ Ok true → ReadsText cut.new input.old input.new S.Source.own source.old source.new }
    ensures content { OnOk result (IsContent line.new.items) }
    ensures long { result ≡ Err NoLine.TooLong → HasLongLine (unread input.old (S.left source.old)) }

    // At a fault no LF was taken.
    ensures source { Draws TakesPart (line_error result) input.old input.new S.Source.own S.Faulty source.old source.new }

    // While an LF is ahead, the source is left alone.
    ensures ready { Contains input.old.ahead 10 → source.new ≡ source.old }

    // Each byte that is gone was counted, however the call ends.
    ensures exact { CountsGone input.old input.new S.Source.own source.old source.new }
    ensures count { OnOk result (input.old.taken + length line.new.items ≤ input.new.taken) }
    ensures strict { result ≡ Ok true → input.old.taken < input.new.taken }
    ensures few { input.new.taken ≤ most_taken }

    ensures capacity { line_most ≤ vec_capacity line.new }
{
    if take_ahead(input, line) {
        *cut = false;
        return Ok(true);
    }
    read_by_bytes(input, source, line, cut)
}

//! Rows of the report that are written in place.
ghost use Rattle.std.specs.Prelude.{◌≡◌, ◌+◌, ◌<◌, ◌≤◌, ◌^◌, ◌++◌, ◌∷◌, [], length, take, IfSome, None};
ghost use Rattle.std.specs.Fmt.{decimal};
ghost use Rattle.kn_event.specs.EntryLine.{entry_text, row_text};
ghost use Rattle.kn_report.specs.Tally.{CountsRow};

use crate::digits::{put_number, put_word};
use crate::stamp::Stamp;
use crate::tally::Tally;
use kn_event::{Entry, Row};

/// How much room a row in place asks for.
pub const ROW_ROOM: usize = 128;

/// A word with a space at its end, a number, and an end.
#[inline(always)]
fn put_one(room: &mut [u8], at: usize, word: &[u8], n: u64, last: &[u8]) -> usize
    requires room { at + length word.now + length last.now + 20 ≤ length room.old }
    ensures text { take result room.new ≡ take at room.old ++ ((word.now ++ decimal n) ++ last.now) }
    ensures end { result ≤ at + length word.now + length last.now + 20 }
{
    let at = put_word(room, at, word);
    let at = put_number(room, at, n);
    put_word(room, at, last)
}

/// A word with a space at its end, and two numbers.
#[inline(always)]
fn put_two(room: &mut [u8], at: usize, word: &[u8], m: u64, n: u64) -> usize
    requires room { at + length word.now + 42 ≤ length room.old }
    ensures text { take result room.new ≡ take at room.old ++ (((word.now ++ decimal m) ++ 32 ∷ decimal n) ++ 10 ∷ []) }
    ensures end { result ≤ at + length word.now + 42 }
{
    let at = put_one(room, at, word, m, b" ");
    let at = put_number(room, at, n);
    put_word(room, at, b"\n")
}

/// What stands after the time of an `admit` row, with its LF.
#[inline(always)]
pub fn put_admit(room: &mut [u8], at: usize, request: u64, tag: u64) -> usize
    requires { at + 100 ≤ length room.old }
    ensures text { take result room.new ≡ take at room.old ++ (row_text (Row.Admit request tag) ++ 10 ∷ []) }
    ensures end { result ≤ at + 100 }
{
    put_two(room, at, b" admit ", request, tag)
}

/// What stands after the time of an `assign` row, with its LF.
#[inline(always)]
pub fn put_assign(room: &mut [u8], at: usize, request: u64, pod: u64) -> usize
    requires { at + 100 ≤ length room.old }
    ensures text { take result room.new ≡ take at room.old ++ (row_text (Row.Assign request pod) ++ 10 ∷ []) }
    ensures end { result ≤ at + 100 }
{
    put_two(room, at, b" assign ", request, pod)
}

/// What stands after the time of a `direct` row, with its LF.
#[inline(always)]
pub fn put_direct(room: &mut [u8], at: usize, request: u64, pod: u64) -> usize
    requires { at + 100 ≤ length room.old }
    ensures text { take result room.new ≡ take at room.old ++ (row_text (Row.Direct request pod) ++ 10 ∷ []) }
    ensures end { result ≤ at + 100 }
{
    put_two(room, at, b" direct ", request, pod)
}

/// What stands after the time of a `run` row, with its LF.
#[inline(always)]
pub fn put_run(room: &mut [u8], at: usize, request: u64) -> usize
    requires { at + 100 ≤ length room.old }
    ensures text { take result room.new ≡ take at room.old ++ (row_text (Row.Run request) ++ 10 ∷ []) }
    ensures end { result ≤ at + 100 }
{
    put_one(room, at, b" run ", request, b"\n")
}

/// What stands after the time of a `finish` row, with its LF.
#[inline(always)]
pub fn put_finish(room: &mut [u8], at: usize, request: u64, ok: bool) -> usize
    requires { at + 100 ≤ length room.old }
    ensures text { take result room.new ≡ take at room.old ++ (row_text (Row.Finish request ok) ++ 10 ∷ []) }
    ensures end { result ≤ at + 100 }
{
    let at = put_one(room, at, b" finish ", request, b"");
    if ok {
        return put_word(room, at, b" ok\n");
    }
    put_word(room, at, b" fail\n")
}

/// What stands after the time of a `queue-full` row, with its LF.
pub fn put_queue_full(room: &mut [u8], at: usize, request: u64, pod: Option<u64>) -> usize
    requires { at + 100 ≤ length room.old }
    ensures text { take result room.new ≡ take at room.old ++ (row_text (Row.QueueFull request pod) ++ 10 ∷ []) }
    ensures end { result ≤ at + 100 }
{
    match pod {
        Some(pod) => put_two(room, at, b" queue-full ", request, pod),
        None => put_one(room, at, b" queue-full ", request, b" -\n"),
    }
}

/// What stands after the time of an `overload` row, with its LF.
#[inline(always)]
pub fn put_overload(room: &mut [u8], at: usize, request: u64) -> usize
    requires { at + 100 ≤ length room.old }
    ensures text { take result room.new ≡ take at room.old ++ (row_text (Row.Overload request) ++ 10 ∷ []) }
    ensures end { result ≤ at + 100 }
{
    put_one(room, at, b" overload ", request, b"\n")
}

/// What stands after the time of a `not-running` row, with its LF.
#[inline(always)]
pub fn put_not_running(room: &mut [u8], at: usize, request: u64) -> usize
    requires { at + 100 ≤ length room.old }
    ensures text { take result room.new ≡ take at room.old ++ (row_text (Row.NotRunning request) ++ 10 ∷ []) }
    ensures end { result ≤ at + 100 }
{
    put_one(room, at, b" not-running ", request, b"\n")
}

/// Writes what stands after the time of a frequent row, with its LF, and counts it. Each kind is counted where it is
/// written, so that the kind is looked at once.
#[inline(always)]
fn put_row(room: &mut [u8], at: usize, row: &Row, tally: &mut Tally) -> Option<usize>
    requires room { at + 100 ≤ length room.old }
    requires few { tally.old.rows < 2 ^ 127 }
    ensures text { IfSome result (λ end. take end room.new ≡ take at room.old ++ (row_text row.now ++ 10 ∷ [])) }
    ensures inside { IfSome result (λ end. end ≤ length room.old) }
    ensures before { result ≡ None → take at room.new ≡ take at room.old }
    ensures counted { IfSome result (λ end. CountsRow row.now tally.old tally.new) }
    ensures uncounted { result ≡ None → tally.new ≡ tally.old }
{
    Some(match *row {
        Row::Admit(request, tag) => {
            tally.add(row);
            put_admit(room, at, request, tag)
        }
        Row::QueueFull(request, pod) => {
            tally.add(row);
            put_queue_full(room, at, request, pod)
        }
        Row::Assign(request, pod) => {
            tally.add(row);
            put_assign(room, at, request, pod)
        }
        Row::Direct(request, pod) => {
            tally.add(row);
            put_direct(room, at, request, pod)
        }
        Row::Run(request) => {
            tally.add(row);
            put_run(room, at, request)
        }
        Row::Finish(request, true) => {
            tally.add(row);
            put_finish(room, at, request, true)
        }
        Row::Finish(request, false) => {
            tally.add(row);
            put_finish(room, at, request, false)
        }
        Row::Expire(request) => {
            tally.add(row);
            put_one(room, at, b" expire ", request, b"\n")
        }
        Row::Cancel(request) => {
            tally.add(row);
            put_one(room, at, b" cancel ", request, b"\n")
        }
        _ => return None,
    })
}

/// Writes the row of an entry, with its LF, behind the first bytes of the room, counts it, and answers where it ends. None
/// says that it is no frequent row, and leaves those bytes and the counts.
#[inline(always)]
pub fn put_entry(
    room: &mut [u8],
    at: usize,
    e: &Entry,
    stamp: &mut Stamp,
    tally: &mut Tally,
) -> Option<usize>
    requires room { at + 128 ≤ length room.old }
    requires few { tally.old.rows < 2 ^ 127 }
    ensures text { IfSome result (λ end. take end room.new ≡ take at room.old ++ entry_text e.now) }
    ensures inside { IfSome result (λ end. end ≤ length room.old) }
    ensures before { result ≡ None → take at room.new ≡ take at room.old }
    ensures counted { IfSome result (λ end. CountsRow e.now.row tally.old tally.new) }
    ensures uncounted { result ≡ None → tally.new ≡ tally.old }
{
    let behind = stamp.put(room, at, e.time);
    put_row(room, behind, &e.row, tally)
}

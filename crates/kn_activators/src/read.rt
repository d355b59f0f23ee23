//! What is read of an input of several activators, line by line.
ghost use Rattle.std.specs.Prelude.{◌≡◌, ◌≢◌, ◌+◌, ◌≤◌, length, Err, IfErr, IfOk, IfSome, None, Ok, OnOk};
ghost use Rattle.kn_journal.specs.Drawing.{error_in};
ghost use Rattle.kn_journal.specs.LineCalls.{IsFromAhead, Reads, TakesLines, TextAhead};
ghost use Rattle.kn_journal.specs.Reading.{most_taken};
ghost use Rattle.kn_journal.specs.Telling.{IsCauseOf, Judges};
ghost use Rattle.kn_activators.specs.Breaking.{DrawsEvent, DrawsSetup};
ghost use Rattle.kn_activators.specs.Calls.{IsNextGroupEvent, TellsAhead};
ghost use Rattle.kn_activators.specs.Reading.{is_own};
ghost use Rattle.kn_activators.specs.Standing.{IsGroupSetup};
ghost use Rattle.kn_activators.specs.Verdict.{OnEvent, judged, next_part, opening_part, setup_line_in};

use crate::event::GroupEvent;
use crate::line::group_event_of;
use crate::setup::GroupSetup;
use kn_event::{Act, spellings_are_read};
use kn_io::Source;
use kn_journal::{FirstLine, JournalError, Lines, TIME_MOST, read_fixed_line, text_laws};

/// The setup of so many activators that the line of this number gives.
fn judge_setup(line: &[u8], number: u64, many: u64) -> Result<GroupSetup, JournalError>
    requires some { 1 ≤ many }
    requires few { many ≤ 16 }
    ensures judges { Judges (setup_line_in many) number line.now result }
    ensures good { IfOk result IsGroupSetup }
{
    match read_fixed_line(line, many) {
        Ok(fixed) => Ok(GroupSetup {
            activators: many,
            limit: fixed.limit,
            pods: fixed.pods,
            timeout_s: fixed.timeout_s,
            slots: fixed.slots,
        }),
        Err(why) => Err(JournalError::BadSetup(number, why)),
    }
}

/// Reads `kact slices N` and a setup for N activators.
pub fn read_setup<S: Source>(lines: &mut Lines, source: &mut S) -> Result<GroupSetup, JournalError>
    ensures tells { Reads opening_part lines.old lines.new (S.left source.old) (S.left source.new) result }
    ensures text { OnOk result (TakesLines lines.old lines.new S.Source.own source.old source.new) }
    ensures good { IfOk result IsGroupSetup }
    ensures source { DrawsSetup (error_in result) lines.old lines.new S.Source.own S.Faulty source.old source.new }
{
    text_laws();
    let many = lines.first(source, FirstLine::Slices)?;
    match lines.next_line(source) {
        Ok(()) => judge_setup(lines.line(), lines.number(), many),
        Err(e) => Err(e),
    }
}

/// The event of the line of this number, at the last one's time or later.
fn judge_event(
    line: &[u8],
    number: u64,
    setup: &GroupSetup,
    last: u64,
) -> Result<GroupEvent, JournalError>
    ensures ok { IfOk result (λ e. judged setup.now last number line.now ≡ Ok e) }
    ensures err { IfErr result (λ e. IsCauseOf e (judged setup.now last number line.now)) }
    ensures next { IfOk result (IsNextGroupEvent setup.now last) }
    ensures bytes { IfOk result (λ e. 6 ≤ length line.now) }
{
    match group_event_of(line, setup.activators, setup.pods) {
        Ok(e) => if e.time() > TIME_MOST {
            Err(JournalError::TimeTooLarge(number))
        } else if e.time() < last {
            Err(JournalError::TimeBack(number, last, e.time()))
        } else {
            Ok(e)
        },
        Err(why) => Err(JournalError::BadLine(number, why)),
    }
}

/// Whether it is an act of one activator.
#[inline(always)]
fn is_own(act: &Act) -> bool
    ensures { result ≡ is_own act.now }
{
    matches!(
        *act,
        Act::Arrive(_) | Act::Finish(_, _) | Act::Cancel(_) | Act::Pass
    )
}

/// Takes the next event, at this time or later, where its line is a usual one of one activator below 10 and ahead with its LF.
/// None says nothing, and takes nothing.
#[inline(always)]
pub fn next_ahead(lines: &mut Lines, setup: &GroupSetup, last: u64) -> Option<GroupEvent>
    ensures tells { IfSome result (TellsAhead setup.now last lines.old lines.new) }
    ensures next { IfSome result (IsNextGroupEvent setup.now last) }
    ensures bytes { IfSome result (λ e. lines.old.input.taken + 6 ≤ lines.new.input.taken) }
    ensures few { IfSome result (λ e. lines.new.input.taken ≤ most_taken) }
    ensures text { IfSome result (λ e. TextAhead lines.new.cut lines.old.input lines.new.input) }
    ensures balance { IsFromAhead lines.old.input lines.new.input }
    ensures same { result ≡ None → lines.new ≡ lines.old }
{
    spellings_are_read();
    let ahead = lines.ahead();
    if ahead.len() < 2 || ahead[1] != b' ' {
        return None;
    }
    let i = u64::from(ahead[0].wrapping_sub(b'0'));
    if i >= setup.activators || i > 9 {
        return None;
    }
    let (e, len) = lines.event_from(2)?;
    if e.time < last || e.time > TIME_MOST || !is_own(&e.act) {
        return None;
    }
    lines.take_line(len);
    Some(GroupEvent::One(i, e))
}

/// Reads the next event, at this time or later, or `end` and the end of the input.
pub fn read_next<S: Source>(
    lines: &mut Lines,
    source: &mut S,
    setup: &GroupSetup,
    last: u64,
) -> Result<Option<GroupEvent>, JournalError>
    ensures tells { Reads (next_part setup.now last) lines.old lines.new (S.left source.old) (S.left source.new) result }
    ensures text { OnEvent result (λ e. TakesLines lines.old lines.new S.Source.own source.old source.new) }
    ensures next { OnEvent result (IsNextGroupEvent setup.now last) }
    ensures bytes { OnEvent result (λ e. lines.old.input.taken + 6 ≤ lines.new.input.taken) }
    ensures memory { result ≢ Err JournalError.Memory }
    ensures few { lines.new.input.taken ≤ most_taken }
    ensures source { DrawsEvent (error_in result) lines.old lines.new S.Source.own S.Faulty source.old source.new }
{
    text_laws();
    match lines.next_line(source) {
        Ok(()) => {}
        Err(e) => return Err(e),
    }
    if lines.line() == b"end".as_slice() {
        // There the input said its end.
        if lines.is_cut() {
            return Ok(None);
        }
        return match lines.end(source) {
            Ok(()) => Ok(None),
            Err(e) => Err(e),
        };
    }
    match judge_event(lines.line(), lines.number(), setup, last) {
        Ok(e) => Ok(Some(e)),
        Err(e) => Err(e),
    }
}

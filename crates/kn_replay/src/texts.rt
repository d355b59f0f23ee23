//! What is told of a status.
ghost use Rattle.std.specs.Prelude.{◌≡◌, ℕ, ◌≤◌, List, ◌++◌, codes, length};
ghost use Rattle.std.specs.Fmt.{decimal};
ghost use Rattle.kn_config.specs.Keys.{key_text};
ghost use Rattle.kn_replay.specs.Texts.{at_line, config_text, error_text, fault_text, field_text, first_line_text, setup_text, spec_text, status_text, told};

use kn_config::{ConfigError, Key};
use kn_event::{Line, LineError};
use kn_journal::{FirstLine, JournalError, SetupError, Status};
use kn_revision::{Field, SpecError};

/// A key, and what is said of it.
#[tactic(auto, using(std::proofs::Common::append_assoc, crate::proofs::Keys::key_short))]
fn put_key(key: Key, what: &[u8], line: &mut Line)
    requires old { length line.old ≤ 200 }
    requires what { length what.now ≤ 20 }
    ensures value { line.new ≡ line.old ++ (key_text key ++ what.now) }
    ensures short { length line.new ≤ 300 }
{
    line.put(key.text().as_bytes());
    line.put(what);
}

/// A word, and a number behind it.
#[tactic(auto, using(std::proofs::Common::append_assoc))]
fn put_place(what: &[u8], place: u64, line: &mut Line)
    requires old { length line.old ≤ 200 }
    requires what { length what.now ≤ 50 }
    ensures value { line.new ≡ line.old ++ (what.now ++ decimal place) }
    ensures short { length line.new ≤ 300 }
{
    line.put(what);
    line.put_integer(place);
}

#[tactic(auto, unfolding(crate::specs::Texts::config_text))]
fn put_config(why: &ConfigError, line: &mut Line)
    requires { length line.old ≤ 200 }
    ensures value { line.new ≡ line.old ++ config_text why.now }
    ensures short { length line.new ≤ 300 }
{
    match *why {
        ConfigError::NotJson => line.put(b"not JSON"),
        ConfigError::DataShape => line.put(b"data is not an object"),
        ConfigError::NotText(key) => put_key(key, b" is not text", line),
        ConfigError::BadValue(key, _) => put_key(key, b" has a bad value", line),
        ConfigError::OutOfRange(key) => put_key(key, b" out of range", line),
        ConfigError::Memory => {}
    }
}

#[tactic(auto, using(std::proofs::Common::append_assoc))]
fn put_field(field: Field, line: &mut Line)
    requires { length line.old ≤ 200 }
    ensures value { line.new ≡ line.old ++ field_text field }
    ensures short { length line.new ≤ 250 }
{
    match field {
        Field::Namespace => line.put(b"namespace"),
        Field::Name => line.put(b"name"),
    }
}

#[tactic(auto, using(std::proofs::Common::append_assoc), unfolding(crate::specs::Texts::spec_text))]
fn put_spec(why: &SpecError, line: &mut Line)
    requires { length line.old ≤ 200 }
    ensures value { line.new ≡ line.old ++ spec_text why.now }
    ensures short { length line.new ≤ 300 }
{
    match *why {
        SpecError::NotJson => line.put(b"not JSON"),
        SpecError::Missing(field) => {
            put_field(field, line);
            line.put(b" missing");
        }
        SpecError::NotText(key) => put_key(key, b" is not text", line),
        SpecError::BadValue(key, _) => put_key(key, b" has a bad value", line),
        SpecError::OutOfRange(key) => put_key(key, b" out of range", line),
        SpecError::ZeroInitial => line.put(b"initial-scale 0 is not allowed"),
        SpecError::Memory => {}
    }
}

#[tactic(auto, using(std::proofs::Common::append_assoc), unfolding(crate::specs::Texts::setup_text))]
fn put_setup(why: &SetupError, line: &mut Line)
    requires { length line.old ≤ 100 }
    ensures value { line.new ≡ line.old ++ setup_text why.now }
    ensures short { length line.new ≤ 300 }
{
    match *why {
        SetupError::BadField(place) => put_place(b"bad setup: bad field at ", place, line),
        SetupError::OutOfRange(place) => put_place(b"bad setup: out of range at ", place, line),
        SetupError::Config(why) => {
            line.put(b"bad config: ");
            put_config(&why, line);
        }
        SetupError::Revision(why) => {
            line.put(b"bad revision: ");
            put_spec(&why, line);
        }
        SetupError::BlockTooLong => line.put(b"bad setup: block too long"),
        SetupError::BadWord => line.put(b"bad setup: unknown word"),
        SetupError::Duplicate => line.put(b"same revision twice"),
    }
}

#[tactic(auto, unfolding(crate::specs::Texts::fault_text))]
fn put_fault(why: &LineError, line: &mut Line)
    requires { length line.old ≤ 100 }
    ensures value { line.new ≡ line.old ++ fault_text why.now }
    ensures short { length line.new ≤ 300 }
{
    match *why {
        LineError::BadTime => line.put(b"bad time"),
        LineError::BadWord => line.put(b"unknown word"),
        LineError::BadNumber(place) => put_place(b"bad number at ", place, line),
        LineError::Extra(place) => put_place(b"extra text at ", place, line),
    }
}

/// What stands before all that is said of a line.
#[tactic(auto, using(std::proofs::Common::append_assoc))]
fn put_head(number: u64, line: &mut Line)
    requires { length line.old ≤ 10 }
    ensures value { (what : List ℕ) → line.new ++ what ≡ line.old ++ at_line number what }
    ensures short { length line.new ≤ 100 }
{
    line.put(b"line ");
    line.put_integer(number);
    line.put(b": ");
}

#[tactic(auto, using(std::proofs::Common::append_assoc))]
fn put_times(last: u64, own: u64, line: &mut Line)
    requires { length line.old ≤ 100 }
    ensures value { line.new ≡ line.old ++ (codes "time goes back from " ++ (decimal last ++ (codes " to " ++ decimal own))) }
    ensures short { length line.new ≤ 300 }
{
    line.put(b"time goes back from ");
    line.put_integer(last);
    line.put(b" to ");
    line.put_integer(own);
}

/// Adds what is told of a line 1 that is not the one that was due.
fn put_first_line(due: FirstLine, line: &mut Line)
    requires { length line.old ≤ 10 }
    ensures value { line.new ≡ line.old ++ first_line_text due }
    ensures short { length line.new ≤ 300 }
{
    match due {
        FirstLine::Journal => line.put(b"line 1: not a kact journal 1 or 2"),
        FirstLine::Workload => line.put(b"line 1: not a kact workload 1"),
        FirstLine::Slices => line.put(b"line 1: not a kact slices N"),
        FirstLine::Setups => line.put(b"line 1: not a kact setups 1"),
    }
}

/// Adds what is told of an error to the line.
#[tactic(auto, unfolding(crate::specs::Texts::error_text))]
pub fn put_error(error: &JournalError, line: &mut Line)
    requires { length line.old ≤ 10 }
    ensures value { line.new ≡ line.old ++ error_text error.now }
    ensures short { length line.new ≤ 300 }
{
    match *error {
        JournalError::ReadFault => line.put(b"read failed"),
        JournalError::LineTooLong(number) => {
            put_head(number, line);
            line.put(b"line too long");
        }
        JournalError::BadFirstLine(due) => put_first_line(due, line),
        JournalError::BadSetup(number, why) => {
            put_head(number, line);
            put_setup(&why, line);
        }
        JournalError::BadLine(number, why) => {
            put_head(number, line);
            put_fault(&why, line);
        }
        JournalError::TimeBack(number, last, own) => {
            put_head(number, line);
            put_times(last, own, line);
        }
        JournalError::TimeTooLarge(number) => {
            put_head(number, line);
            line.put(b"time too large");
        }
        JournalError::NoEnd => line.put(b"input ends without end"),
        JournalError::AfterEnd(number) => {
            put_head(number, line);
            line.put(b"text after end");
        }
        JournalError::TooMany(number) => {
            put_head(number, line);
            line.put(b"too many jobs");
        }
        JournalError::Memory => line.put(b"out of memory"),
    }
}

#[tactic(auto, using(std::proofs::Common::append_assoc))]
fn put_told(error: &JournalError, line: &mut Line)
    requires { length line.old ≤ 0 }
    ensures { line.new ≡ line.old ++ told (error_text error.now) }
{
    line.put(b"kact: ");
    put_error(error, line);
    line.put(b"\n");
}

/// Sets the line to what is told of a status.
#[tactic(auto, unfolding(crate::specs::Texts::status_text))]
pub fn put_status(status: &Status, line: &mut Line)
    ensures { line.new ≡ status_text status.now }
{
    line.clear();
    match *status {
        Status::Usage => line.put(
            b"usage: kact replay | kact generate SEED COUNT | kact simulate | kact slices\n",
        ),
        Status::BadInput(error) => put_told(&error, line),
        Status::BadSetup(error) => put_told(&error, line),
        Status::ReadFault => line.put(b"kact: read failed\n"),
        Status::WriteFault => line.put(b"kact: write failed\n"),
        Status::Memory => line.put(b"kact: out of memory\n"),
        _ => {}
    }
}

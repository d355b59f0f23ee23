use kn_event::LineError;
use kn_preamble::{FirstLine, SetupError};

/// Why a journal, or a workload, was not read to its end. Lines are counted from 1.
#[derive(Clone, Copy)]
pub enum JournalError {
    /// The input failed, or 2^56 bytes were taken of it.
    ReadFault,
    /// The line has more than 65,536 bytes without its end.
    LineTooLong(u64),
    /// Line 1 is not the first line that was due.
    BadFirstLine(FirstLine),
    BadSetup(u64, SetupError),
    BadLine(u64, LineError),
    /// The line's time is less than the last event's or the start: the line, the last time and its own, in milliseconds.
    TimeBack(u64, u64, u64),
    /// The line's time is above 4,398,046,511,104 milliseconds, or a job's is above its workload's end.
    TimeTooLarge(u64),
    /// The input ends before `end`.
    NoEnd,
    /// This line follows `end`.
    AfterEnd(u64),
    Memory,
    /// This line is the 100,001st job of a workload.
    TooMany(u64),
}

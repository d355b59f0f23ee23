//! The rows that an event begins with, handed on as numbers.
ghost use Rattle.std.specs.Prelude.{◌≡◌};
ghost use Rattle.kn_core.specs.Firsts.{own_row};

use kn_event::Row;
use kn_throttle::Dispatch;

/// The own row of an arrival or of a finish.
#[derive(Clone, Copy)]
pub enum OwnRow {
    /// The activator took in a request, with the caller's tag.
    Admit(u64, u64),
    /// A request went straight to a pod.
    Direct(u64, u64),
    /// A request was refused: the breaker was full.
    QueueFull(u64),
    /// A request was refused: the pod named was full.
    PodFull(u64, u64),
    /// A request was refused: too many are live.
    Overload(u64),
    /// A request ended well, or failed.
    Finish(u64, bool),
    /// A request that was to end doesn't run.
    NotRunning(u64),
}

impl OwnRow {
    /// As a row of the trace.
    #[inline(always)]
    pub fn row(self) -> Row
        ensures { result ≡ own_row self }
    {
        match self {
            OwnRow::Admit(r, tag) => Row::Admit(r, tag),
            OwnRow::Direct(r, p) => Row::Direct(r, p),
            OwnRow::QueueFull(r) => Row::QueueFull(r, None),
            OwnRow::PodFull(r, p) => Row::QueueFull(r, Some(p)),
            OwnRow::Overload(r) => Row::Overload(r),
            OwnRow::Finish(r, ok) => Row::Finish(r, ok),
            OwnRow::NotRunning(r) => Row::NotRunning(r),
        }
    }
}

/// The rows that an event begins with, as far as a log doesn't have them: the own row of the act, and the one behind it, with
/// which a request is dispatched. All others are in the log.
#[derive(Clone, Copy)]
pub enum FirstRows {
    /// The log has all rows.
    Nothing,
    /// The own row.
    Own(OwnRow),
    /// The own row, and a dispatch.
    Both(OwnRow, Dispatch),
}

//! The kinds of rows.
ghost use Rattle.std.specs.Prelude.{◌≡◌, ◌<◌, length};
ghost use Rattle.kn_figures.specs.Kinds.{all_kinds, kind_of, name_of, place_of};

use kn_event::Row;

/// The kind of a row, one for each word with which a report writes a row.
#[derive(Clone, Copy)]
pub enum Kind {
    Admit,
    QueueFull,
    Overload,
    Assign,
    Direct,
    Run,
    Finish,
    Expire,
    Cancel,
    LostRequest,
    Create,
    Limit,
    Ready,
    Drain,
    Remove,
    LostPod,
    Decided,
    NoData,
    Phase,
    Mode,
    NotRunning,
    NotWaiting,
    NotStarting,
    NoPod,
}

impl Kind {
    /// How many kinds there are.
    pub const COUNT: usize = 24;

    /// All kinds, each once.
    pub fn all() -> [Kind; Kind::COUNT]
        ensures { result ≡ all_kinds }
    {
        [
            Kind::Admit,
            Kind::QueueFull,
            Kind::Overload,
            Kind::Assign,
            Kind::Direct,
            Kind::Run,
            Kind::Finish,
            Kind::Expire,
            Kind::Cancel,
            Kind::LostRequest,
            Kind::Create,
            Kind::Limit,
            Kind::Ready,
            Kind::Drain,
            Kind::Remove,
            Kind::LostPod,
            Kind::Decided,
            Kind::NoData,
            Kind::Phase,
            Kind::Mode,
            Kind::NotRunning,
            Kind::NotWaiting,
            Kind::NotStarting,
            Kind::NoPod,
        ]
    }

    /// The kind of the row.
    #[inline(always)]
    pub fn of(row: &Row) -> Kind
        ensures { result ≡ kind_of row.now }
    {
        match *row {
            Row::Admit(_, _) => Kind::Admit,
            Row::QueueFull(_, _) => Kind::QueueFull,
            Row::Overload(_) => Kind::Overload,
            Row::Assign(_, _) => Kind::Assign,
            Row::Direct(_, _) => Kind::Direct,
            Row::Run(_) => Kind::Run,
            Row::Finish(_, _) => Kind::Finish,
            Row::Expire(_) => Kind::Expire,
            Row::Cancel(_) => Kind::Cancel,
            Row::LostRequest(_) => Kind::LostRequest,
            Row::Create(_, _) => Kind::Create,
            Row::Limit(_, _) => Kind::Limit,
            Row::Ready(_) => Kind::Ready,
            Row::Drain(_) => Kind::Drain,
            Row::Remove(_) => Kind::Remove,
            Row::LostPod(_) => Kind::LostPod,
            Row::Decided(_) => Kind::Decided,
            Row::NoData => Kind::NoData,
            Row::Phase(_) => Kind::Phase,
            Row::Mode(_) => Kind::Mode,
            Row::NotRunning(_) => Kind::NotRunning,
            Row::NotWaiting(_) => Kind::NotWaiting,
            Row::NotStarting(_) => Kind::NotStarting,
            Row::NoPod(_) => Kind::NoPod,
        }
    }

    /// The word with which a report writes a row of this kind.
    pub fn name(self) -> &'static [u8]
        ensures { result.now ≡ name_of self }
    {
        match self {
            Kind::Admit => b"admit",
            Kind::QueueFull => b"queue-full",
            Kind::Overload => b"overload",
            Kind::Assign => b"assign",
            Kind::Direct => b"direct",
            Kind::Run => b"run",
            Kind::Finish => b"finish",
            Kind::Expire => b"expire",
            Kind::Cancel => b"cancel",
            Kind::LostRequest => b"lost-request",
            Kind::Create => b"create",
            Kind::Limit => b"limit",
            Kind::Ready => b"ready",
            Kind::Drain => b"drain",
            Kind::Remove => b"remove",
            Kind::LostPod => b"lost-pod",
            Kind::Decided => b"decision",
            Kind::NoData => b"no-data",
            Kind::Phase => b"phase",
            Kind::Mode => b"mode",
            Kind::NotRunning => b"not-running",
            Kind::NotWaiting => b"not-waiting",
            Kind::NotStarting => b"not-starting",
            Kind::NoPod => b"no-pod",
        }
    }

    /// Where it stands among all kinds.
    #[inline(always)]
    pub fn place(self) -> usize
        ensures place { result ≡ place_of self }
        ensures below { result < length all_kinds }
    {
        self as usize
    }
}

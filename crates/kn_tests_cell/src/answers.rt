//! What a call of a cell answers.
use kn_cell::{Course, Full};
use kn_event::{Stand, Told};
use std::fmt;

#[derive(Clone, Copy)]
pub enum Answer {
    Told(Told),
    Came(Told, Course),
    Full(Full),
    Busy,
    Stand(Stand),
    Course(Course),
    Is(bool),
    /// A pod.
    Pod(Option<u64>),
    /// A pod and its address.
    Probe(Option<(u64, u64)>),
    /// Requests that are held, queued and run, and recorded events, and those that weren't taken out.
    Counts([u64; 5]),
    Nothing,
}

impl Answer {
    /// The request that an arrival was told.
    pub fn request(&self) -> Option<u64> {
        match *self {
            Answer::Told(Told::Run(r, _)) => Some(r),
            Answer::Told(Told::AtPod(r, _)) => Some(r),
            Answer::Told(Told::Held(r)) => Some(r),
            Answer::Came(Told::Run(r, _), _) => Some(r),
            Answer::Came(Told::AtPod(r, _), _) => Some(r),
            Answer::Came(Told::Held(r), _) => Some(r),
            _ => None,
        }
    }
}

fn put_told<W: fmt::Write>(f: &mut fmt::Formatter<W>, told: Told) -> fmt::Result {
    match told {
        Told::Run(r, p) => write!(f, "run {r} at {p}"),
        Told::AtPod(r, p) => write!(f, "queued {r} at {p}"),
        Told::Held(r) => write!(f, "held {r}"),
        Told::QueueFull(r) => write!(f, "queue full {r}"),
        Told::Overload(r) => write!(f, "overload {r}"),
        Told::Done(r) => write!(f, "done {r}"),
        Told::NotRunning(r) => write!(f, "not running {r}"),
        Told::NotWaiting(r) => write!(f, "not waiting {r}"),
        Told::NotStarting(p) => write!(f, "not starting {p}"),
        Told::NoPod(p) => write!(f, "no pod {p}"),
        Told::Passed => write!(f, "passed"),
        Told::Decided(decision) => write!(f, "decided {}", decision.want),
        Told::NoData => write!(f, "no data"),
    }
}

fn put_course<W: fmt::Write>(f: &mut fmt::Formatter<W>, course: Course) -> fmt::Result {
    match course {
        Course::Waits => write!(f, "waits"),
        Course::Runs(run) => write!(
            f,
            "runs at {} {}, proxied {}",
            run.pod, run.address, run.proxied
        ),
        Course::Over => write!(f, "over"),
    }
}

fn put_stand<W: fmt::Write>(f: &mut fmt::Formatter<W>, stand: Stand) -> fmt::Result {
    match stand {
        Stand::Unknown => write!(f, "unknown"),
        Stand::Held => write!(f, "held"),
        Stand::Queued(p) => write!(f, "queued at {p}"),
        Stand::Running(p) => write!(f, "running at {p}"),
        Stand::Ended => write!(f, "ended"),
    }
}

impl fmt::Display for Answer {
    fn fmt<W: fmt::Write>(&self, f: &mut fmt::Formatter<W>) -> fmt::Result {
        match *self {
            Answer::Told(told) => put_told(f, told),
            Answer::Came(told, course) => {
                put_told(f, told)?;
                write!(f, ", ")?;
                put_course(f, course)
            }
            Answer::Full(full) => write!(
                f,
                "full: {} of {}, {} live",
                full.used, full.room, full.live
            ),
            Answer::Busy => write!(f, "busy"),
            Answer::Stand(stand) => put_stand(f, stand),
            Answer::Course(course) => put_course(f, course),
            Answer::Is(is) => write!(f, "{is}"),
            Answer::Pod(pod) => write!(f, "{pod:?}"),
            Answer::Probe(found) => write!(f, "{found:?}"),
            Answer::Counts(counts) => write!(f, "{counts:?}"),
            Answer::Nothing => write!(f, "returned"),
        }
    }
}

ghost use Rattle.std.specs.Prelude.{◌≡◌, slice_get};

/// A request to come. Times are in milliseconds.
#[derive(Clone, Copy)]
pub struct Job {
    /// When it arrives.
    pub time: u64,
    pub tag: u64,
    /// How long it runs, from when it begins: at most 3,600,000.
    pub service: u64,
}

/// The job of this number.
pub(crate) fn job_at(jobs: &[Job], r: u64) -> Option<Job>
    ensures { result ≡ slice_get jobs.now r }
{
    jobs.get(r as usize).copied()
}

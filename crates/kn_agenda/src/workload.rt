//! A workload, lent to those that make its events.
ghost use Rattle.std.specs.Prelude.{◌≡◌};

use crate::job::Job;
use kn_event::Spec;
use std::marker::Model;

/// A load on a revision, lent: the revision's specification, how long a pod takes to become ready, up to when events are made, and
/// the requests to come. Times are in milliseconds.
#[derive(Drop)]
pub struct WorkloadView<'a> {
    spec: &'a Spec,
    start: u64,
    boot: u64,
    until: u64,
    jobs: &'a [Job],
}

impl<'a> Model for WorkloadView<'a> {
    ghost use Rattle.kn_agenda.specs.Workload.{Workload};

    ghost Value = { Workload };

    ghost view = { λ w. record { spec = w.spec.now; start = w.start; boot = w.boot; until = w.until; jobs = w.jobs.now } };
}

impl<'a> WorkloadView<'a> {
    /// These jobs, behind this start and up to this end, at pods that take so long to become ready.
    pub fn new(
        spec: &'a Spec,
        start: u64,
        boot: u64,
        until: u64,
        jobs: &'a [Job],
    ) -> WorkloadView<'a>
        ensures { result ≡ record { spec = spec.now; start = start; boot = boot; until = until; jobs = jobs.now } }
    {
        WorkloadView {
            spec,
            start,
            boot,
            until,
            jobs,
        }
    }

    /// The specification, lent.
    pub fn spec(&self) -> &Spec
        ensures { result.now ≡ self.now.spec }
    {
        self.spec
    }

    /// How long a request may wait.
    pub fn timeout(&self) -> u64
        ensures { result ≡ self.now.spec.timeout_ms }
    {
        let spec = self.spec;
        spec.timeout_ms
    }

    /// When the revision opens.
    pub fn start(&self) -> u64
        ensures { result ≡ self.now.start }
    {
        self.start
    }

    /// How long a pod takes from its creation to become ready.
    pub fn boot(&self) -> u64
        ensures { result ≡ self.now.boot }
    {
        self.boot
    }

    /// The last time of an event.
    pub fn until(&self) -> u64
        ensures { result ≡ self.now.until }
    {
        self.until
    }

    /// The jobs in order, lent.
    pub fn jobs(&self) -> &[Job]
        ensures { result.now ≡ self.now.jobs }
    {
        self.jobs
    }
}

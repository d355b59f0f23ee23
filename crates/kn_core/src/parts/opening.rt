//! What a revision opens with.
ghost use Rattle.std.specs.Prelude.{◌≡◌, ◌+◌, ◌<◌, ◌≤◌, ◌^◌, [], ◌++◌, length, IfOk, OnOk, OnErr};
ghost use Rattle.kn_event.specs.Revision.{AreInRange};
ghost use Rattle.kn_scaling.specs.Zero.{opening_phase};
ghost use Rattle.kn_trace.specs.Events.{opening};
ghost use Rattle.kn_trace.specs.Scale.{opening_scale};
ghost use Rattle.kn_record.specs.Order.{AreTimed};
ghost use Rattle.kn_core.specs.Changes.{AddsNobody};
ghost use Rattle.kn_core.specs.Opening.{AreBeginningOfSome, Creates, first_count, first_rows};
ghost use Rattle.kn_core.specs.State.{ArePartsOf, IsMeasuredAt};

use super::Parts;
use crate::rows::follow_behind;
use crate::scaling;
use kn_event::{Entry, EntryLog, Kind, Memory, Phase, Row, Spec};
use kn_laws::laws::step_laws;
use kn_pods::Pods;
use kn_pods::laws::row_laws;
use kn_record::append::{append_laws, time_laws, walk_laws};
use kn_sizes::sizes::size_laws;
use kn_throttle::Throttle;
use std::alloc::Global;

impl Parts {
    /// The parts of a revision that opens now. The log becomes its opening.
    pub(crate) fn open(
        alloc: Global,
        spec: &Spec,
        start: u64,
        log: &mut EntryLog,
    ) -> Result<Parts, Memory>
        requires empty { log.old ≡ [] }
        ensures stands { IfOk result (λ x. ArePartsOf spec.now x (opening spec.now start)) }
        ensures timed { IfOk result (λ x. AreTimed start x.throttle.admission) }
        ensures created { IfOk result (λ x. x.pods.created ≤ 500) }
        ensures measured { IfOk result (λ x. IsMeasuredAt start x.scaler) }
        ensures logged { OnOk result (log.new ≡ opening spec.now start) }
        ensures ranges { OnOk result (AreInRange spec.now) }
        ensures err { OnErr result (log.new ≡ []) }
    {
        row_laws();
        append_laws();
        time_laws();
        step_laws();
        let mut throttle = Throttle::new(alloc, spec)?;
        let mut pods = Pods::new(alloc)?;
        let scaler = scaling::open(alloc, spec, start)?;
        let count = count_of(spec);
        begin(spec, start, log);
        create(&mut throttle, &mut pods, count, spec.cc, start, log);
        Ok(Parts {
            throttle,
            pods,
            scaler,
        })
    }
}

/// How many pods it opens with.
fn count_of(spec: &Spec) -> u64
    ensures value { result ≡ first_count spec.now.kind spec.now }
    ensures few { result ≤ 500 }
{
    match spec.kind {
        Kind::Fixed(count) => count,
        Kind::Kpa => scale_of(spec),
    }
}

/// The scale that one that scales opens with.
fn scale_of(spec: &Spec) -> u64
    ensures value { result ≡ opening_scale spec.now }
    ensures few { result ≤ 500 }
{
    spec.initial.max(spec.min)
}

/// The phase that it opens with, if it scales.
fn begin(spec: &Spec, start: u64, log: &mut EntryLog)
    requires { length log.old < 65536 }
    ensures { log.new ≡ log.old ++ first_rows spec.now.kind spec.now start }
{
    match spec.kind {
        Kind::Fixed(_) => {}
        Kind::Kpa => log.put(Entry {
            time: start,
            row: Row::Phase(phase_of(scale_of(spec))),
        }),
    }
}

fn phase_of(scale: u64) -> Phase
    ensures { result ≡ opening_phase scale }
{
    if scale == 0 {
        Phase::Inactive
    } else {
        Phase::Activating
    }
}

/// Creates its pods.
fn create(
    throttle: &mut Throttle,
    pods: &mut Pods,
    count: u64,
    limit: u64,
    time: u64,
    log: &mut EntryLog,
)
    requires some { AreBeginningOfSome limit throttle.old.admission pods.old }
    requires count { count ≤ 500 }
    requires draining { length pods.old.draining ≤ 20000 }
    requires created { pods.old.created + 500 ≤ 2 ^ 63 }
    requires room { length log.old ≤ 65036 }
    ensures creates { Creates limit count time throttle.old throttle.new pods.old pods.new log.old log.new }
    ensures nobody { AddsNobody time throttle.old throttle.new }
    ensures created { pods.new.created ≤ pods.old.created + 500 }
{
    row_laws();
    append_laws();
    walk_laws();
    size_laws();
    let before = log.entries().len();
    pods.apply(count, limit, time, log);
    follow_behind(throttle, log, before);
}

ghost use Rattle.std.specs.Prelude.{◌≡◌, ℕ, ◌^◌, ◌+◌, ◌≤◌, ◌++◌, Some, [], ◌∷◌, true, false, not, option_map, IfOk};
ghost use Rattle.std.specs.Bool.{then_some};
ghost use Rattle.kn_event.specs.declared.entry.Phase.TheVariants as phase;
ghost use Rattle.kn_event.specs.declared.entry.Row.TheVariants as row;
ghost use Rattle.kn_event.specs.declared.event.Stand.TheVariants as stand;
ghost use Rattle.kn_event.specs.declared.revision.Kind.TheVariants as kind;
ghost use Rattle.kn_event.specs.declared.revision.Spec.{Spec as SpecValue};
ghost use Rattle.kn_scaling.specs.Decide.{Past};
ghost use Rattle.kn_scaling.specs.Burst.{is_same_mode};
ghost use Rattle.kn_stats.specs.Totals.{passed};
ghost use Rattle.kn_decider.specs.Decider.{IsDeciderOf};
ghost use Rattle.kn_trace.specs.Events.{opening};
ghost use Rattle.kn_trace.specs.Load.{has_ready_pod};
ghost use Rattle.kn_trace.specs.Scale.{count_ready, decision_at, is_in_phase, mode_of, phase_of, wake_decision_at, wanted};
ghost use Rattle.kn_trace.specs.Trace.{Trace, entry};
ghost use Rattle.kn_record.specs.Made.{IsMade};
ghost use Rattle.kn_scaler.specs.Rows.{ready_rows, ruled_by, ruled_from, ruling_rows, says_scale, settles, tick_rulings};
ghost use Rattle.kn_scaler.specs.Stands.{AreNextOfSome, AreNextRows, IsNextOfSome, IsNextRow, IsScalerOfTrace, StandsForSome, after_row, after_rows};

use crate::facts::trace_facts;
use crate::laws::row_laws;
use kn_decider::Decider;
use kn_event::{Decision, Entry, Memory, Mode, Phase, Row, Spec, Stand};
use kn_places::change_of;
use kn_places::laws::{measure_laws, place_laws};
use kn_record::append::order_laws;
use kn_stats::Totals;
use std::alloc::Global;
use std::marker::Model;

/// A decision, and what it changed.
#[derive(Clone, Copy)]
pub struct Ruled {
    pub decision: Decision,
    /// The phase after it, where that is another than before.
    pub phase: Option<Phase>,
    /// How requests reach the pods after it, where that is another way than before.
    pub mode: Option<Mode>,
}

/// The phase after a decision, where it is another.
fn changed_phase(before: Phase, after: Phase) -> Option<Phase>
    ensures { result ≡ then_some (not (is_in_phase after (Some before))) after }
{
    if after == before { None } else { Some(after) }
}

/// The mode after a decision, where it is another.
fn changed_mode(before: Mode, after: Mode) -> Option<Mode>
    ensures { result ≡ then_some (not (is_same_mode after before)) after }
{
    if after == before { None } else { Some(after) }
}

/// A decision and what it changed, by phase and mode before it.
fn ruling_of(decision: Decision, phase: Phase, mode: Mode, decider: &Decider) -> Ruled
    ensures { (past : Past) (until : ℕ) → IsDeciderOf decider.now past until → result ≡ ruled_from decision phase mode past.standing.phase past.standing.mode }
{
    Ruled {
        decision,
        phase: changed_phase(phase, decider.phase()),
        mode: changed_mode(mode, decider.mode()),
    }
}

/// What is measured of a scaled revision, and what its decisions look back on, in memory that is taken once.
///
/// Contracts say for which traces it stands, up to the time of the last advance. Times are in milliseconds, at most 2^42,
/// and never fall; at most 500 pods are Ready.
pub struct Scaler {
    stats: Totals,
    decider: Decider,
}

impl Drop for Scaler {
    fn drop(self) {
        let Scaler {
            stats: _,
            decider: _,
        } = self;
    }
}

impl Model for Scaler {
    ghost use Rattle.kn_scaler.specs.Stands.{IsUpToNow, ScalerState};

    ghost Value = { ScalerState };

    ghost view = { λ x. record { stats = x.stats; decider = x.decider } };

    ghost invariant = { λ x. IsUpToNow (record { stats = x.stats; decider = x.decider }) };
}

impl Scaler {
    /// The revision opens at this time. It takes all the memory that it will ever have.
    pub fn new(alloc: Global, spec: &Spec, start: u64) -> Result<Scaler, Memory>
        requires { spec.now.kind ≡ kind.Kpa }
        ensures stands { IfOk result (λ x. IsScalerOfTrace spec.now x (opening spec.now start)) }
        ensures time { IfOk result (λ x. x.stats.time ≡ start) }
    {
        trace_facts();
        let stats = Totals::new(start, spec.metric);
        let decider = Decider::new(alloc, spec, start)?;
        Ok(Scaler { stats, decider })
    }

    /// Time passes, before the rows of an event: the seconds that are over count. `ready` says whether a pod is Ready.
    #[inline(always)]
    pub fn advance(&mut self, time: u64, ready: bool)
        requires order { self.old.stats.time ≤ time }
        requires range { time ≤ 2 ^ 42 }
        requires made { StandsForSome self.old }
        ensures stands { (s : SpecValue) (c : Trace) → IsMade s c → has_ready_pod c ≡ ready → IsScalerOfTrace s self.old c → IsScalerOfTrace s self.new c }
        ensures stats { self.new.stats ≡ passed time self.old.stats }
        ensures spec { self.new.decider.spec ≡ self.old.decider.spec }
    {
        trace_facts();
        let closed = self.stats.advance(time, ready);
        self.decider.closed(&closed);
    }

    /// One more row at this time, of any kind but those of the scale and that of a Ready pod. Where a request ends with it, `at`
    /// and `through` say where that stands before it, and whether the activator handed it to its pod; of other rows they say
    /// nothing.
    // (inlined: the row, which is large, then needs no memory of its own)
    #[inline(always)]
    pub fn row(&mut self, added: Row, at: Stand, through: bool)
        requires { IsNextOfSome self.old added at through }
        ensures stands { (s : SpecValue) (c : Trace) → says_scale added ≡ false → IsNextRow self.old added at through s c
            → IsScalerOfTrace s self.new (c ++ entry self.old.stats.time added ∷ []) }
        ensures stats { self.new.stats ≡ after_row added at through self.old.stats }
        ensures time { self.new.stats.time ≡ self.old.stats.time }
        ensures decider { self.new.decider ≡ self.old.decider }
    {
        trace_facts();
        row_laws();
        place_laws();
        measure_laws();
        match change_of(added, at, through) {
            Some(change) => self.stats.change(change),
            None => {}
        }
    }

    /// The rows of a settling, all at this time.
    pub fn rows(&mut self, added: &[Entry])
        requires { AreNextOfSome self.old added.now }
        ensures stands { (s : SpecValue) (c : Trace) → AreNextRows self.old added.now s c → IsScalerOfTrace s self.new (c ++ added.now) }
        ensures stats { self.new.stats ≡ after_rows added.now self.old.stats }
        ensures time { self.new.stats.time ≡ self.old.stats.time }
        ensures decider { self.new.decider ≡ self.old.decider }
    {
        order_laws();
        for e in added {
            self.settled(e.row);
        }
    }

    /// A row of a settling. It is handed on with its kind at hand, so that no other is asked for.
    #[inline(always)]
    fn settled(&mut self, added: Row)
        requires kind { settles added ≡ true }
        requires next { IsNextOfSome self.old added stand.Held false }
        ensures stands { (s : SpecValue) (c : Trace) → IsNextRow self.old added stand.Held false s c → IsScalerOfTrace s self.new (c ++ entry self.old.stats.time added ∷ []) }
        ensures stats { self.new.stats ≡ after_row added stand.Held false self.old.stats }
        ensures time { self.new.stats.time ≡ self.old.stats.time }
        ensures decider { self.new.decider ≡ self.old.decider }
    {
        match added {
            Row::Run(r) => self.row(Row::Run(r), Stand::Held, false),
            Row::Assign(r, p) => self.row(Row::Assign(r, p), Stand::Held, false),
            Row::Remove(p) => self.row(Row::Remove(p), Stand::Held, false),
            _ => unreachable!(),
        }
    }

    /// The decision of a tick at this time, with so many Ready pods, and what it changed; none where no sample lies in the
    /// stable window. The rows of the pods are not among those that it stands for afterwards.
    pub fn tick(&mut self, time: u64, ready: u64) -> Option<Ruled>
        requires now { time ≡ self.old.stats.time }
        requires ready { ready ≤ 500 }
        ensures ruled { (s : SpecValue) (c : Trace) → count_ready c ≡ ready → IsScalerOfTrace s self.old c → result ≡ option_map (ruled_by c) (decision_at s c time) }
        ensures stands { (s : SpecValue) (c : Trace) → count_ready c ≡ ready → IsScalerOfTrace s self.old c → IsScalerOfTrace s self.new (c ++ tick_rulings time c (decision_at s c time)) }
        ensures stats { self.new.stats ≡ self.old.stats }
        ensures spec { self.new.decider.spec ≡ self.old.decider.spec }
    {
        trace_facts();
        let phase = self.decider.phase();
        let mode = self.decider.mode();
        match self.decider.tick(time, ready) {
            None => None,
            Some(decision) => Some(ruling_of(decision, phase, mode, &self.decider)),
        }
    }

    /// The decision where a request was admitted while no pod is wanted, and what it changed. The rows of the pods are not
    /// among those that it stands for afterwards.
    pub fn wake(&mut self, time: u64, ready: u64) -> Ruled
        requires now { time ≡ self.old.stats.time }
        requires ready { ready ≤ 500 }
        ensures ruled { (s : SpecValue) (c : Trace) → count_ready c ≡ ready → IsScalerOfTrace s self.old c → result ≡ ruled_by c (wake_decision_at s c time) }
        ensures stands { (s : SpecValue) (c : Trace) → count_ready c ≡ ready → IsScalerOfTrace s self.old c → IsScalerOfTrace s self.new (c ++ ruling_rows time c (wake_decision_at s c time)) }
        ensures stats { self.new.stats ≡ self.old.stats }
        ensures spec { self.new.decider.spec ≡ self.old.decider.spec }
    {
        trace_facts();
        let phase = self.decider.phase();
        let mode = self.decider.mode();
        let decision = self.decider.poke(time, ready);
        ruling_of(decision, phase, mode, &self.decider)
    }

    /// A pod is Ready at this time, and so many are now. Answers whether the revision waited for its first one, and is active
    /// from now on.
    pub fn pod_ready(&mut self, time: u64, ready: u64) -> bool
        requires now { time ≡ self.old.stats.time }
        ensures answer { (s : SpecValue) (c : Trace) → IsScalerOfTrace s self.old c → result ≡ is_in_phase phase.Activating (phase_of c) }
        ensures stands { (s : SpecValue) (c : Trace) (p : ℕ) → count_ready (c ++ entry time (row.Ready p) ∷ []) ≡ ready → IsScalerOfTrace s self.old c → IsScalerOfTrace s self.new (c ++ ready_rows time c p) }
        ensures stats { self.new.stats ≡ self.old.stats }
        ensures spec { self.new.decider.spec ≡ self.old.decider.spec }
    {
        trace_facts();
        self.decider.pod_ready(time, ready)
    }

    /// The phase now.
    pub fn phase(&self) -> Phase
        ensures value { result ≡ self.now.decider.zero.standing.phase }
        ensures trace { (s : SpecValue) (c : Trace) → IsScalerOfTrace s self.now c → phase_of c ≡ Some result }
    {
        self.decider.phase()
    }

    /// How requests reach the pods now.
    pub fn mode(&self) -> Mode
        ensures value { result ≡ self.now.decider.zero.standing.mode }
        ensures trace { (s : SpecValue) (c : Trace) → IsScalerOfTrace s self.now c → result ≡ mode_of c }
    {
        self.decider.mode()
    }

    /// The pods wanted now.
    pub fn want(&self) -> u64
        ensures value { result ≡ self.now.decider.zero.standing.want }
        ensures trace { (s : SpecValue) (c : Trace) → IsScalerOfTrace s self.now c → result ≡ wanted s c }
    {
        self.decider.want()
    }
}

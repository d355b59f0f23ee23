ghost use Rattle.std.specs.Prelude.{◌≡◌};
ghost use Rattle.kn_event.specs.declared.revision.Spec.{Spec as Parts};
ghost use Rattle.kn_event.specs.declared.revision.Kind.TheVariants as kind;
ghost use Rattle.kn_scaling.specs.Burst.{is_activating, is_same_mode};
ghost use Rattle.kn_scaling.specs.Zero.{opening_phase, zero_rule};
ghost use Rattle.kn_zero.specs.Zero.{is_same_phase, opening_standing, settings_of, with_answer, with_mode, with_phase, with_ready_pod};

use crate::settings::Settings;
use kn_event::{Mode, Phase, Spec};
use kn_scaling::{Standing, ZeroAnswer};
use std::marker::Model;

/// Where a revision stands between its decisions: its phase and mode, since when, and the pods wanted.
///
/// Contracts see what the rule reads of the specification, and the standing. Times are in milliseconds.
#[derive(Drop)]
pub struct Zero {
    settings: Settings,
    standing: Standing,
}

impl Model for Zero {
    ghost use Rattle.kn_zero.specs.Zero.{ZeroState};

    ghost Value = { ZeroState };

    ghost view = { λ z. record { settings = z.settings; standing = z.standing } };
}

/// Inactive where no pod is wanted, else activating.
fn opening_phase(want: u64) -> Phase
    ensures { result ≡ opening_phase want }
{
    if want == 0 {
        Phase::Inactive
    } else {
        Phase::Activating
    }
}

fn is_same_phase(phase: Phase, other: Phase) -> bool
    ensures { result ≡ is_same_phase phase other }
{
    phase == other
}

fn is_same_mode(mode: Mode, other: Mode) -> bool
    ensures { result ≡ is_same_mode mode other }
{
    mode == other
}

/// In this phase, since this time unless it was in it before.
fn with_phase(standing: Standing, time: u64, phase: Phase) -> Standing
    ensures { result ≡ with_phase time phase standing }
{
    let phase_since = if is_same_phase(phase, standing.phase) {
        standing.phase_since
    } else {
        time
    };
    Standing {
        phase,
        phase_since,
        ..standing
    }
}

/// In this mode, since this time unless it was in it before.
fn with_mode(standing: Standing, time: u64, mode: Mode) -> Standing
    ensures { result ≡ with_mode time mode standing }
{
    let mode_since = if is_same_mode(mode, standing.mode) {
        standing.mode_since
    } else {
        time
    };
    Standing {
        mode,
        mode_since,
        ..standing
    }
}

impl Zero {
    /// At the opening: the initial scale is wanted, or min-scale where that is more. It is inactive where that is 0, else
    /// activating, and through the activator.
    pub fn new(spec: &Spec, start: u64) -> Zero
        requires { spec.now.kind ≡ kind.Kpa }
        ensures { result ≡ record { settings = settings_of spec.now; standing = opening_standing spec.now start } }
    {
        let want = spec.initial.max(spec.min);
        Zero {
            settings: Settings::of(spec),
            standing: Standing {
                phase: opening_phase(want),
                phase_since: start,
                mode: Mode::Proxy,
                mode_since: start,
                want,
            },
        }
    }

    /// A decision at this time with so many Ready pods, whose count within the bounds is this one: what it wants, whether
    /// that is applied, and the phase after it. The mode stays.
    pub fn take(&mut self, time: u64, ready: u64, bounded: u64) -> ZeroAnswer
        ensures answer { (spec : Parts) → settings_of spec ≡ self.old.settings → result ≡ zero_rule spec time ready bounded self.old.standing }
        ensures standing { self.new ≡ record self.old { standing = with_answer time result self.old.standing } }
    {
        let answer = self
            .settings
            .zero_rule(time, ready, bounded, &self.standing);
        self.standing = Standing {
            want: answer.want,
            ..with_phase(self.standing, time, answer.phase)
        };
        answer
    }

    /// A pod became Ready: activating becomes active, which is the answer. Otherwise nothing changes.
    pub fn pod_is_ready(&mut self, time: u64) -> bool
        ensures answer { result ≡ is_activating self.old.standing.phase }
        ensures standing { self.new ≡ record self.old { standing = with_ready_pod time self.old.standing } }
    {
        if is_same_phase(self.standing.phase, Phase::Activating) {
            self.standing = with_phase(self.standing, time, Phase::Active);
            true
        } else {
            false
        }
    }

    /// The mode after a decision at this time.
    pub fn mode_is(&mut self, time: u64, mode: Mode)
        ensures { self.new ≡ record self.old { standing = with_mode time mode self.old.standing } }
    {
        self.standing = with_mode(self.standing, time, mode);
    }

    /// Where the revision stands.
    pub fn standing(&self) -> Standing
        ensures { result ≡ self.now.standing }
    {
        self.standing
    }
}

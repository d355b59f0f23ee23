//! What holds after each line of several activators. Nothing is computed here.
ghost use Rattle.std.specs.Prelude.{ℕ, List, Option};
ghost use Rattle.kn_activators.specs.declared.event.GroupEvent.{GroupEvent};
ghost use Rattle.kn_activators.specs.declared.setup.GroupSetup.{GroupSetup};
ghost use Rattle.kn_activators.specs.Safety.{AfterEachLine, AreGroupEvents, IsLawfulSharing, IsSafeSharing, OnInputOf};
ghost use Rattle.kn_activators.specs.Standing.{IsGroupSetup};

use kn_slices::share_laws;

/// After the opening and after each line of whatever events: of each pod no more requests run, over all activators, than the limit
/// then in force; and each activator's trace is lawful and settled. So it is of what any bytes say.
pub fn sharing_laws()
    ensures safe { (s : GroupSetup) (start : ℕ) (events : List GroupEvent) → IsGroupSetup s → AreGroupEvents s events → AfterEachLine IsSafeSharing s start events }
    ensures lawful { (s : GroupSetup) (start : ℕ) (events : List GroupEvent) → IsGroupSetup s → AreGroupEvents s events → AfterEachLine IsLawfulSharing s start events }
    ensures safe_input { (known : Option (List ℕ)) → OnInputOf known (λ t. AfterEachLine IsSafeSharing t.setup t.start t.read.events) }
    ensures lawful_input { (known : Option (List ℕ)) → OnInputOf known (λ t. AfterEachLine IsLawfulSharing t.setup t.start t.read.events) }
{
    share_laws();
}

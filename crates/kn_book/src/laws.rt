//! The laws of the book, over every trace that events made.
ghost use Rattle.std.specs.Prelude.{◌≡◌, ◌++◌, ℕ, [], ◌∷◌, Some};
ghost use Rattle.kn_event.specs.Revision.{AreInRange};
ghost use Rattle.kn_event.specs.declared.entry.Entry.{Entry};
ghost use Rattle.kn_event.specs.declared.revision.Spec.{Spec};
ghost use Rattle.kn_trace.specs.Events.{opening};
ghost use Rattle.kn_trace.specs.Laws.{IsSettled};
ghost use Rattle.kn_trace.specs.Trace.{Trace, live_pods};
ghost use Rattle.kn_record.specs.Made.{IsMade};
ghost use Rattle.kn_book.specs.Book.{address_of, book_of, call_address, pods_in};
ghost use Rattle.kn_book.specs.Laws.{HaveOwnAddresses, AreEnough, AreThere, GetsLeast, GoWithPods, ProbesTheNext, Stay, WaitInNeed, WaitInTurn};
ghost use Rattle.kn_book.specs.State.{HasRoom, HasRoomNext, state_of};

use kn_laws::laws::step_laws;
use kn_laws::parts::part_laws;
use kn_record::append::{append_laws, order_laws};
use kn_record::facts::fact_laws;
use kn_sizes::sizes::size_laws;

/// The book has the live pods. Two of them never have one address; an address is one of those that there are, and goes with
/// its pod; while a pod lives it keeps its address; a new pod gets the least that is free; while one waits none is free, so
/// none waits where there are as many addresses as live pods; and a later pod never gets one before an earlier, so the next
/// Starting pod is the next to probe, or no other is. Without addresses a pod's number is its address.
pub fn book_laws()
    ensures pods { (s : Spec) (n : ℕ) (c : Trace) → IsMade s c → pods_in (book_of n c) ≡ live_pods c }
    ensures apart { (s : Spec) (n : ℕ) (c : Trace) → IsMade s c → HaveOwnAddresses n c }
    ensures range { (s : Spec) (n : ℕ) (c : Trace) → IsMade s c → AreThere n c }
    ensures gone { (s : Spec) (n : ℕ) (c : Trace) → IsMade s c → GoWithPods n c }
    ensures kept { (s : Spec) (n : ℕ) (c more : Trace) → IsMade s (c ++ more) → Stay n c more }
    ensures least { (s : Spec) (n : ℕ) (c : Trace) (e : Entry) → IsMade s (c ++ e ∷ []) → GetsLeast n c e }
    ensures waits { (s : Spec) (n : ℕ) (c : Trace) → IsMade s c → WaitInNeed n c }
    ensures enough { (s : Spec) (n : ℕ) (c : Trace) → IsMade s c → AreEnough n c }
    ensures turns { (s : Spec) (n : ℕ) (c : Trace) → IsMade s c → WaitInTurn n c }
    ensures probe { (s : Spec) (n : ℕ) (c : Trace) → IsMade s c → ProbesTheNext n c }
    ensures number { (c : Trace) (p : ℕ) → (address_of 0 c p ≡ Some p) × (call_address 0 c p ≡ p) }
{
    append_laws();
    order_laws();
    fact_laws();
}

/// A book has room for the entries that a revision opens with, and for those of each further event.
pub fn room_laws()
    ensures opening { (s : Spec) (n start : ℕ) → AreInRange s → HasRoom (state_of n []) (opening s start) }
    ensures event { (s : Spec) (c : Trace) → AreInRange s → IsMade s c → IsSettled s c → HasRoomNext s c }
{
    append_laws();
    fact_laws();
    part_laws();
    step_laws();
    size_laws();
}

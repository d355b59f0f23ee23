//! What is spelled is read, and what is read is spelled.
ghost use Rattle.std.specs.Prelude.{◌≡◌, ◌<◌, ◌≤◌, ◌^◌, ℕ, List, Ok, Some, true, length};
ghost use Rattle.std.specs.Fmt.{decimal};
ghost use Rattle.std.specs.List.{list_all};
ghost use Rattle.kn_event.specs.declared.event.Event.{Event};
ghost use Rattle.kn_event.specs.Numbers.{number_of};
ghost use Rattle.kn_event.specs.EventLine.{event_of, is_printable, Spells};

/// A number has one spelling, and so has an event: it is read from just the line that spells it. Such a line has 6 to
/// 100 bytes, none of which is a control code.
pub fn spellings_are_read()
    ensures number { (bytes : List ℕ) (n : ℕ) → number_of bytes ≡ Some n → (bytes ≡ decimal n) × (n < 2 ^ 64) }
    ensures decimal { (n : ℕ) → n < 2 ^ 64 → number_of (decimal n) ≡ Some n }
    ensures event { (version : ℕ) (line : List ℕ) (e : Event) → event_of version line ≡ Ok e → Spells version line e }
    ensures text { (version : ℕ) (line : List ℕ) (e : Event) → Spells version line e → event_of version line ≡ Ok e }
    ensures printable { (version : ℕ) (line : List ℕ) (e : Event) → Spells version line e
        → list_all is_printable line ≡ true }
    ensures least { (version : ℕ) (line : List ℕ) (e : Event) → Spells version line e → 6 ≤ length line }
    ensures most { (version : ℕ) (line : List ℕ) (e : Event) → Spells version line e → length line ≤ 100 }
{}

//! Clients, which come one after another.
ghost use Rattle.std.specs.Prelude.{◌≡◌, ℕ, ◌+◌, List, [], ◌∷◌, ◌++◌, length, Some, OnOk, OnErr};
ghost use Rattle.kn_io.specs.Causes.{HasCause};
ghost use Rattle.kn_io.specs.Callers.{IsHeard, IsPaired, Meets, followed, streams_of, texts_of};

use crate::traits::{Failed, Sink, Source};

/// Connections of clients, one after another: what is read comes from the last one taken, and what is written goes to it.
///
/// Where it tells them, the sink's `kept` holds what was written before each connection and the whole input of that
/// connection, in turn, and its `held` what was written since. So its texts are the members of `kept` at even places,
/// followed by `held`, and its streams are those at odd places.
pub trait Caller: Source + Sink {
    /// Takes the next connection. After `Failed` all is as it was.
    fn meet(&mut self) -> Result<(), Failed>
        ensures met { OnOk result (Meets (Self.Sink.kept self.old) (Self.Sink.kept self.new) (Self.Sink.held self.old) (Self.Sink.held self.new) (Self.Source.left self.old) (Self.Source.left self.new)) }
        ensures kept_stays { OnErr result (Self.Sink.kept self.new ≡ Self.Sink.kept self.old) }
        ensures held_stays { OnErr result (Self.Sink.held self.new ≡ Self.Sink.held self.old) }
        ensures left_stays { OnErr result (Self.Source.left self.new ≡ Self.Source.left self.old) }
        ensures given_stays { Self.Source.given self.new ≡ Self.Source.given self.old }
        ensures cause { HasCause (Self.Faulty.faults self.old) (Self.Faulty.faults self.new) result };

    /// The client of the last connection is done with, so it may see the end of what was written while nobody else comes.
    /// Nothing that is told changes.
    fn part(&mut self)
        ensures kept { Self.Sink.kept self.new ≡ Self.Sink.kept self.old }
        ensures held { Self.Sink.held self.new ≡ Self.Sink.held self.old }
        ensures left { Self.Source.left self.new ≡ Self.Source.left self.old }
        ensures given { Self.Source.given self.new ≡ Self.Source.given self.old }
        ensures faults { Self.Faulty.faults self.new ≡ Self.Faulty.faults self.old }
    {}

    /// `kept` has an even number of members.
    ghost paired: { (c : Self) → IsPaired (Self.Sink.kept c) };

    /// What stands beside the input is what stands beside the output, and then the output.
    ghost together: { (c : Self) → Self.Source.apart c ≡ followed (Self.Sink.kept c) (Self.Sink.held c) };

    /// One that tells its texts tells its input.
    ghost heard: { (c : Self) → IsHeard (Self.Sink.kept c) (Self.Source.left c) };
}

/// The laws of texts and streams: before the first connection there is one empty text and no stream, and a connection
/// that is taken adds one empty text and its stream. So after k connections there are k + 1 texts and k streams.
pub fn caller_laws()
    ensures none { (texts_of [] [] ≡ [] ∷ []) × (streams_of [] ≡ []) }
    ensures texts { (kept : List (List ℕ)) (held input : List ℕ) → IsPaired (Some kept) → texts_of (kept ++ held ∷ input ∷ []) [] ≡ texts_of kept held ++ [] ∷ [] }
    ensures streams { (kept : List (List ℕ)) (held input : List ℕ) → IsPaired (Some kept) → streams_of (kept ++ held ∷ input ∷ []) ≡ streams_of kept ++ input ∷ [] }
    ensures many { (kept : List (List ℕ)) (held : List ℕ) → IsPaired (Some kept) → length (texts_of kept held) ≡ length (streams_of kept) + 1 }
{}

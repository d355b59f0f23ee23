//! What is so of sessions, for those who make one of calls of their own.
ghost use Rattle.kn_serve.specs.Laws.{RunLaws, WideLaws};

use kn_io::Clock;
use kn_journal::journals_are_read;

/// What makes a session of what its calls say, by this clock, and what is so of it then.
pub fn run_laws<K: Clock>(_clock: &K)
    ensures { RunLaws (K.reading _clock.now) }
{
    journals_are_read();
}

/// What else those who serve several revisions take: of an input that was read to its end, and of an opener that gave nothing.
pub fn wide_laws()
    ensures { WideLaws }
{}

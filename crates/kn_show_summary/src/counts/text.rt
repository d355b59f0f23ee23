//! What the summary says of rows.
ghost use Rattle.std.specs.Prelude.{◌≡◌, ◌+◌, ◌≤◌, ◌++◌, length};
ghost use Rattle.kn_show_summary.specs.Text.{decisions_text, ended_text, left_text, refused_text, starts_text, taken_text};

use super::Counts;
use crate::lines::put_figure;
use kn_event::Line;

impl Counts {
    /// The arrivals, of which there were so many.
    #[tactic(auto, using(crate::proofs::Pieces::three_pieces), unfolding(crate::specs::Text::taken_text))]
    pub fn put_taken(&self, requests: u64, line: &mut Line)
        requires { length line.old ≤ 160 }
        ensures value { line.new ≡ line.old ++ taken_text requests self.now.counted }
        ensures short { length line.new ≤ length line.old + 160 }
    {
        put_figure(line, b"requests ", u128::from(requests));
        put_figure(line, b"admitted ", self.admitted);
        put_figure(line, b"direct ", self.direct);
    }

    /// The refusals.
    #[tactic(auto, using(std::proofs::Common::append_assoc), unfolding(crate::specs::Text::refused_text))]
    pub fn put_refused(&self, line: &mut Line)
        requires { length line.old ≤ 320 }
        ensures value { line.new ≡ line.old ++ refused_text self.now.counted }
        ensures short { length line.new ≤ length line.old + 110 }
    {
        put_figure(line, b"queue-full ", self.queue_full);
        put_figure(line, b"overload ", self.overload);
    }

    /// The ends.
    #[tactic(auto, using(crate::proofs::Pieces::four_pieces), unfolding(crate::specs::Text::ended_text))]
    pub fn put_ended(&self, line: &mut Line)
        requires { length line.old ≤ 430 }
        ensures value { line.new ≡ line.old ++ ended_text self.now.counted }
        ensures short { length line.new ≤ length line.old + 210 }
    {
        put_figure(line, b"ok ", self.ok);
        put_figure(line, b"failed ", self.failed);
        put_figure(line, b"expired ", self.expired);
        put_figure(line, b"cancelled ", self.cancelled);
    }

    /// Who was lost with a pod, and how many live on.
    #[tactic(auto, using(std::proofs::Common::append_assoc), unfolding(crate::specs::Text::left_text))]
    pub fn put_left(&self, live: u64, line: &mut Line)
        requires { length line.old ≤ 640 }
        ensures value { line.new ≡ line.old ++ left_text live self.now.counted }
        ensures short { length line.new ≤ length line.old + 100 }
    {
        put_figure(line, b"lost ", self.lost);
        put_figure(line, b"live ", u128::from(live));
    }

    /// Admissions while no pod was Ready, of which there were so many, and decisions that woke the revision.
    #[tactic(auto, using(std::proofs::Common::append_assoc), unfolding(crate::specs::Text::starts_text))]
    pub fn put_starts(&self, cold: u128, line: &mut Line)
        requires { length line.old ≤ 0 }
        ensures value { line.new ≡ line.old ++ starts_text cold self.now.counted }
        ensures short { length line.new ≤ 100 }
    {
        put_figure(line, b"cold ", cold);
        put_figure(line, b"wakes ", self.wakes);
    }

    /// The decisions.
    #[tactic(auto, using(crate::proofs::Pieces::three_pieces), unfolding(crate::specs::Text::decisions_text))]
    pub fn put_decisions(&self, line: &mut Line)
        requires { length line.old ≤ 100 }
        ensures value { line.new ≡ line.old ++ decisions_text self.now.counted }
        ensures short { length line.new ≤ length line.old + 160 }
    {
        put_figure(line, b"decisions ", self.decisions);
        put_figure(line, b"no-data ", self.no_data);
        put_figure(line, b"panicking ", self.panicking);
    }

    /// How many pods were created.
    pub fn pods(&self) -> u128
        ensures { result ≡ self.now.counted.pods }
    {
        self.pods
    }

    /// How many decisions wanted other than what was wanted before.
    pub fn changes(&self) -> u128
        ensures { result ≡ self.now.counted.changes }
    {
        self.changes
    }
}

//! What is counted within one step.
ghost use Rattle.std.specs.Prelude.{◌≡◌, ◌+◌, ◌<◌, ◌≤◌, ◌^◌, ◌++◌, [], length};
ghost use Rattle.kn_trace.specs.Rows.{begun_by};
ghost use Rattle.kn_show_series.specs.Counting.{size_of, waits_by, with_begun, with_row};
ghost use Rattle.kn_show_series.specs.Fields.{arrivals_text, begun_text, counts_text, ends_text, field};
ghost use Rattle.kn_show_series.specs.Steps.{counts_of};

use kn_event::{Line, Row};

/// How many requests came, ended and began to run, how many decisions there were, and the milliseconds of waiting.
#[derive(Clone, Copy)]
pub(crate) struct Counts {
    pub(crate) arrived: u128,
    pub(crate) refused: u128,
    pub(crate) ended: u128,
    pub(crate) failed: u128,
    pub(crate) expired: u128,
    pub(crate) decisions: u128,
    pub(crate) ran: u128,
    /// How long those that ran had waited, in all.
    pub(crate) waited: u128,
    /// The most that one of them had waited.
    pub(crate) longest: u64,
}

impl Counts {
    /// Of no rows.
    #[tactic(auto, unfolding(crate::specs::Steps::counts_of))]
    pub(crate) fn zero() -> Counts
        ensures { result ≡ counts_of [] [] }
    {
        Counts {
            arrived: 0,
            refused: 0,
            ended: 0,
            failed: 0,
            expired: 0,
            decisions: 0,
            ran: 0,
            waited: 0,
            longest: 0,
        }
    }

    /// Counts a row. The wait is that of the request that begins to run with it.
    pub(crate) fn add(&mut self, row: &Row, wait: u64)
        requires { size_of self.old < 2 ^ 127 }
        ensures counts { self.new ≡ with_row row.now (waits_by (begun_by row.now) wait) self.old }
        ensures few { size_of self.new ≤ size_of self.old + 2 }
    {
        match *row {
            Row::Admit(_, _) => self.arrived += 1,
            Row::Direct(_, _) => self.arrived += 1,
            Row::QueueFull(_, _) => self.refuse(),
            Row::Overload(_) => self.refuse(),
            Row::Finish(_, true) => self.ended += 1,
            Row::Finish(_, false) => {
                self.ended += 1;
                self.failed += 1;
            }
            Row::Expire(_) => {
                self.ended += 1;
                self.expired += 1;
            }
            Row::Cancel(_) => self.ended += 1,
            Row::LostRequest(_) => self.ended += 1,
            Row::Decided(_) => self.decisions += 1,
            Row::Assign(_, _) => self.run(wait),
            Row::Run(_) => self.run(wait),
            _ => {}
        }
    }

    fn refuse(&mut self)
        requires { size_of self.old < 2 ^ 127 }
        ensures { self.new ≡ record self.old { arrived = self.old.arrived + 1; refused = self.old.refused + 1 } }
    {
        self.arrived += 1;
        self.refused += 1;
    }

    /// A request begins to run. The sum never comes to the greatest that fits.
    fn run(&mut self, wait: u64)
        requires { size_of self.old < 2 ^ 127 }
        ensures { self.new ≡ with_begun wait self.old }
    {
        self.ran += 1;
        self.waited = self.waited.saturating_add(u128::from(wait));
        self.longest = self.longest.max(wait);
    }

    /// Adds a field for each.
    #[tactic(auto, using(crate::proofs::Pieces::three_pieces), unfolding(crate::specs::Fields::counts_text))]
    pub(crate) fn put(&self, line: &mut Line)
        requires { length line.old ≤ 340 }
        ensures value { line.new ≡ line.old ++ counts_text self.now }
        ensures short { length line.new ≤ length line.old + 369 }
    {
        self.put_arrivals(line);
        self.put_ends(line);
        self.put_begun(line);
    }

    #[tactic(auto, using(std::proofs::Common::append_assoc))]
    fn put_arrivals(&self, line: &mut Line)
        requires { length line.old ≤ 340 }
        ensures value { line.new ≡ line.old ++ arrivals_text self.now }
        ensures short { length line.new ≤ length line.old + 82 }
    {
        put_field(line, self.arrived);
        put_field(line, self.refused);
    }

    #[tactic(auto, using(crate::proofs::Pieces::three_pieces))]
    fn put_ends(&self, line: &mut Line)
        requires { length line.old ≤ 422 }
        ensures value { line.new ≡ line.old ++ ends_text self.now }
        ensures short { length line.new ≤ length line.old + 123 }
    {
        put_field(line, self.ended);
        put_field(line, self.failed);
        put_field(line, self.expired);
    }

    #[tactic(auto, using(crate::proofs::Pieces::four_pieces))]
    fn put_begun(&self, line: &mut Line)
        requires { length line.old ≤ 545 }
        ensures value { line.new ≡ line.old ++ begun_text self.now }
        ensures short { length line.new ≤ length line.old + 164 }
    {
        put_field(line, self.decisions);
        put_field(line, self.ran);
        put_field(line, self.waited);
        put_field(line, u128::from(self.longest));
    }
}

/// A number behind a comma, at most 41 bytes.
#[tactic(auto, using(std::proofs::Common::append_assoc), unfolding(crate::specs::Fields::field))]
pub(crate) fn put_field(line: &mut Line, n: u128)
    requires { length line.old ≤ 900 }
    ensures value { line.new ≡ line.old ++ field n }
    ensures short { length line.new ≤ length line.old + 41 }
{
    line.put(b",");
    line.put_integer(n);
}

//! Thousandths in decimal.
#![tactic(auto)]

ghost use Rattle.std.specs.Prelude.{◌≡◌, ◌+◌, ◌≤◌, ◌++◌, length};
ghost use Rattle.kn_milli.specs.Milli.{milli_text, point_text};

use kn_event::Line;

/// What stands behind the whole part, of thousandths below 1,000.
#[tactic(auto, using(crate::proofs::Pieces::nothing, crate::proofs::Pieces::two_pieces, crate::proofs::Pieces::three_pieces, crate::proofs::Pieces::four_pieces), unfolding(crate::specs::Milli::point_text))]
fn put_point(line: &mut Line, n: u128)
    requires { length line.old ≤ 850 }
    ensures value { line.new ≡ line.old ++ point_text n }
    ensures short { length line.new ≤ length line.old + 121 }
{
    if n == 0 {
        return;
    }
    line.put(b".");
    line.put_integer(n / 100);
    if n % 100 == 0 {
        return;
    }
    line.put_integer(n / 10 % 10);
    if n % 10 == 0 {
        return;
    }
    line.put_integer(n % 10);
}

/// Adds so many thousandths as a number with up to three digits behind the point.
#[tactic(auto, using(std::proofs::Common::append_assoc), unfolding(crate::specs::Milli::milli_text))]
pub fn put_thousandths(line: &mut Line, n: u128)
    requires { length line.old ≤ 810 }
    ensures value { line.new ≡ line.old ++ milli_text n }
    ensures short { length line.new ≤ length line.old + 161 }
{
    line.put_integer(n / 1000);
    put_point(line, n % 1000);
}

//! One line of the summary: a name and a number.
ghost use Rattle.std.specs.Prelude.{◌≡◌, ◌+◌, ◌≤◌, ◌++◌, length};
ghost use Rattle.kn_show_summary.specs.Text.{figure, figure_known};

use kn_event::Line;

/// A name with its space, and a number.
#[tactic(auto, using(crate::proofs::Pieces::three_pieces), unfolding(crate::specs::Text::figure))]
pub fn put_figure(line: &mut Line, name: &[u8], n: u128)
    requires { length line.old + length name.now ≤ 983 }
    ensures value { line.new ≡ line.old ++ figure name.now n }
    ensures short { length line.new ≤ length line.old + length name.now + 41 }
{
    line.put(name);
    line.put_integer(n);
    line.put(b"\n");
}

/// A name with its space, and a number where it is known.
#[tactic(auto, using(crate::proofs::Pieces::three_pieces), unfolding(crate::specs::Text::figure_known, crate::specs::Text::figure))]
pub fn put_known(line: &mut Line, name: &[u8], n: Option<u64>)
    requires { length line.old + length name.now ≤ 983 }
    ensures value { line.new ≡ line.old ++ figure_known name.now n }
    ensures short { length line.new ≤ length line.old + length name.now + 41 }
{
    match n {
        Some(n) => put_figure(line, name, u128::from(n)),
        None => {
            line.put(name);
            line.put(b"-\n");
        }
    }
}

//! The first line of an input, which names its form and a version, or how many activators it is of.
ghost use Rattle.std.specs.Prelude.{◌≡◌, ◌≤◌, IfSome};
ghost use Rattle.kn_preamble.specs.First.{activators_of, version_by, version_most};

use kn_event::read_number;

/// A first line that names a version, or a number of activators in its place.
#[derive(Clone, Copy)]
pub enum FirstLine {
    /// `kact journal 1` or `kact journal 2`.
    Journal,
    /// `kact workload 1`.
    Workload,
    /// `kact slices N`, for N activators, from 1 to 16.
    Slices,
    /// `kact setups 1`.
    Setups,
}

/// What stands before the number of activators.
const SLICES: &[u8] = b"kact slices ";

/// The number of activators that the line names, from 1 to 16, where it is such a line.
#[tactic(auto, unfolding(crate::specs::First::activators_of))]
fn activators_of(line: &[u8]) -> Option<u64>
    ensures value { result ≡ activators_of line.now }
    ensures least { IfSome result (λ n. 1 ≤ n) }
    ensures most { IfSome result (λ n. n ≤ 16) }
{
    if !line.starts_with(SLICES) {
        return None;
    }
    match read_number(&line[SLICES.len()..]) {
        Some(n) => if 1 <= n && n <= 16 { Some(n) } else { None },
        None => None,
    }
}

impl FirstLine {
    /// The version that the line names, where it is such a line.
    pub fn version(self, line: &[u8]) -> Option<u64>
        ensures value { result ≡ version_by self line.now }
        ensures least { IfSome result (λ version. 1 ≤ version) }
        ensures most { IfSome result (λ version. version ≤ version_most self) }
    {
        match self {
            FirstLine::Journal => if line == b"kact journal 1".as_slice() {
                Some(1)
            } else if line == b"kact journal 2".as_slice() {
                Some(2)
            } else {
                None
            },
            FirstLine::Workload => if line == b"kact workload 1".as_slice() {
                Some(1)
            } else {
                None
            },
            FirstLine::Slices => activators_of(line),
            FirstLine::Setups => if line == b"kact setups 1".as_slice() {
                Some(1)
            } else {
                None
            },
        }
    }
}

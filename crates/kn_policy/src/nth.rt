//! The place of the mark that so many others stand before, without a look at each one.
ghost use Rattle.std.specs.Prelude.{◌≡◌, ◌+◌, ◌<◌, ◌≤◌, length, take};
ghost use Rattle.std.specs.List.{All, sum};
ghost use Rattle.kn_policy.specs.Marks.{IsPlaceOfMark};

/// How far a search has come: to this place, with so many marks to pass from there on.
#[derive(Clone, Copy)]
struct Search {
    place: usize,
    left: usize,
}

/// The place of the 1 that `n` others stand before, of marks 0 and 1. There is none where there are not so many.
///
/// Chunks are passed by the sums of their marks, which take a few steps over vectors since their length is known when they
/// are compiled.
pub fn nth_marked(marks: &[u8], n: usize) -> Option<usize>
    requires { All (λ m. m ≤ 1) marks.now }
    ensures { IsPlaceOfMark n marks.now result }
{
    let begun = Search { place: 0, left: n };
    let near = pass_chunks::<64>(marks, begun);
    let nearer = pass_chunks::<8>(marks, near);
    pass_marks(marks, nearer)
}

/// Passes chunks while all their marks are to be passed.
fn pass_chunks<const SIZE: usize>(marks: &[u8], from: Search) -> Search
    requires marks { All (λ m. m ≤ 1) marks.now }
    requires inside { from.place ≤ length marks.now }
    requires some { 0 < SIZE }
    requires few { SIZE ≤ 255 }
    ensures inside { result.place ≤ length marks.now }
    ensures passed { sum (take result.place marks.now) + result.left ≡ sum (take from.place marks.now) + from.left }
{
    let mut place = from.place;
    let mut left = from.left;
    'chunks: while marks.len() - place >= SIZE {
        let count = count_marked(&marks[place..place + SIZE]) as usize;
        if left < count {
            break;
        }
        left -= count;
        place += SIZE;
    }
    Search { place, left }
}

/// The place of the 1 that so many others stand before from there on.
fn pass_marks(marks: &[u8], from: Search) -> Option<usize>
    requires marks { All (λ m. m ≤ 1) marks.now }
    requires inside { from.place ≤ length marks.now }
    ensures { IsPlaceOfMark (sum (take from.place marks.now) + from.left) marks.now result }
{
    let mut left = from.left;
    for i in from.place..marks.len() {
        let mark = marks[i] as usize;
        if left < mark {
            return Some(i);
        }
        left -= mark;
    }
    None
}

/// How many of a chunk are marked.
fn count_marked(marks: &[u8]) -> u8
    requires marks { All (λ m. m ≤ 1) marks.now }
    requires few { length marks.now ≤ 255 }
    ensures { result ≡ sum marks.now }
{
    let mut count = 0;
    for mark in marks {
        count += *mark;
    }
    count
}

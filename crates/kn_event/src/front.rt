//! The bytes that a word begins with.
ghost use Rattle.core.specs.Dec2flt.Digits.{IsEightBytes};
ghost use Rattle.std.specs.Prelude.{◌≡◌, ◌↔◌, ◌*◌, ◌%◌, ◌^◌, ◌<◌, ◌≤◌, ℕ, List, take, IsTrue};
ghost use lib.Lanes.{number_l};

/// Some first bytes, told by one multiplication, which moves them up to the word's end: only a word that begins with
/// them gives `moved` when it is multiplied by `scale`.
#[derive(Clone, Copy)]
pub struct Front {
    pub scale: u64,
    pub moved: u64,
}

impl Front {
    /// No bytes, with which every word begins.
    #[inline(always)]
    pub fn of_any() -> Front
        ensures scale { result.scale ≡ 0 }
        ensures moved { result.moved ≡ 0 }
    {
        Front { scale: 0, moved: 0 }
    }

    /// With these no word begins.
    #[inline(always)]
    pub fn of_none() -> Front
        ensures scale { result.scale ≡ 0 }
        ensures moved { result.moved ≡ 1 }
    {
        Front { scale: 0, moved: 1 }
    }

    /// The first `count` bytes of the word.
    #[inline(always)]
    pub fn of(word: u64, count: usize) -> Front
        requires some { 0 < count }
        requires most { count ≤ 8 }
        ensures { (xs ys : List ℕ) → IsEightBytes xs → IsEightBytes ys → word ≡ number_l 256 ys
            → number_l 256 xs * result.scale % 2 ^ 64 ≡ result.moved → take count xs ≡ take count ys }
    {
        let scale = 1u64 << (64 - 8 * count as u32);
        Front {
            scale,
            moved: word.wrapping_mul(scale),
        }
    }

    /// Whether the word begins with them.
    #[inline(always)]
    pub fn begins(self, word: u64) -> bool
        ensures { IsTrue result ↔ (word * self.scale % 2 ^ 64 ≡ self.moved) }
    {
        word.wrapping_mul(self.scale) == self.moved
    }
}

//! Line feeds, by which the whole lines of bytes that end early are counted.
ghost use Rattle.std.specs.Prelude.{◌≡◌};
ghost use Rattle.kn_head.specs.Lines.{line_feeds, after_blank};

/// How many line feeds the bytes have.
#[tactic(auto, unfolding(crate::specs::Lines::line_feeds))]
pub(crate) fn line_feeds(bytes: &[u8]) -> usize
    ensures { result ≡ line_feeds bytes.now }
{
    bytes.iter().filter(|b| **b == b'\n').count()
}

/// How many they have after the empty lines at the front.
#[tactic(auto, unfolding(crate::specs::Lines::line_feeds, crate::specs::Lines::after_blank))]
pub(crate) fn line_feeds_after_blank(bytes: &[u8]) -> usize
    ensures { result ≡ line_feeds (after_blank bytes.now) }
{
    bytes
        .iter()
        .skip_while(|b| **b == b'\r' || **b == b'\n')
        .filter(|b| **b == b'\n')
        .count()
}

//! Numbers in a line, each behind some words.
ghost use Rattle.std.specs.Prelude.{◌≡◌, ◌+◌, ◌≤◌, ◌++◌, length};
ghost use Rattle.std.specs.Fmt.{decimal};
ghost use Rattle.kn_event.specs.EntryLine.{frac_text, labelled};
ghost use Rattle.kn_milli.specs.Milli.{milli_text};
ghost use Rattle.kn_reason.specs.Numbers.{pods_text, pods_word};
ghost use Rattle.kn_reason.specs.Texts.{rate_text, setting_text};

use kn_event::{Frac, Line, Milli};
use kn_milli::put_thousandths;

/// A number.
#[tactic(auto, using(std::proofs::Common::append_assoc), unfolding(kn_event::specs::EntryLine::labelled))]
pub fn put_count(line: &mut Line, words: &[u8], n: u128)
    requires { length line.old + length words.now ≤ 900 }
    ensures value { line.new ≡ line.old ++ labelled words.now (decimal n) }
    ensures short { length line.new ≤ length line.old + length words.now + 40 }
{
    line.put(words);
    line.put_integer(n);
}

fn pods_word(n: u128) -> &'static [u8]
    ensures value { result.now ≡ pods_word n }
    ensures short { length result.now ≤ 5 }
{
    if n == 1 { b" pod" } else { b" pods" }
}

/// So many pods.
#[tactic(auto, using(crate::proofs::Pieces::words_and_two), unfolding(kn_event::specs::EntryLine::labelled, crate::specs::Numbers::pods_text))]
pub fn put_pods(line: &mut Line, words: &[u8], n: u128)
    requires { length line.old + length words.now ≤ 900 }
    ensures value { line.new ≡ line.old ++ labelled words.now (pods_text n) }
    ensures short { length line.new ≤ length line.old + length words.now + 45 }
{
    line.put(words);
    line.put_integer(n);
    line.put(pods_word(n));
}

/// A fraction as it is.
#[tactic(auto, using(std::proofs::Common::append_assoc), unfolding(kn_event::specs::EntryLine::labelled))]
pub(crate) fn put_frac(line: &mut Line, words: &[u8], value: Frac)
    requires { length line.old + length words.now ≤ 900 }
    ensures value { line.new ≡ line.old ++ labelled words.now (frac_text value) }
    ensures short { length line.new ≤ length line.old + length words.now + 81 }
{
    line.put(words);
    line.put_integer(value.num);
    line.put(b"/");
    line.put_integer(value.den);
}

/// Thousandths.
#[tactic(auto, using(std::proofs::Common::append_assoc), unfolding(kn_event::specs::EntryLine::labelled))]
pub(crate) fn put_milli(line: &mut Line, words: &[u8], n: u128)
    requires { length line.old + length words.now ≤ 800 }
    ensures value { line.new ≡ line.old ++ labelled words.now (milli_text n) }
    ensures short { length line.new ≤ length line.old + length words.now + 161 }
{
    line.put(words);
    put_thousandths(line, n);
}

/// A setting, and the pods that it comes to.
#[tactic(auto, using(std::proofs::Common::append_assoc), unfolding(crate::specs::Texts::setting_text))]
pub(crate) fn put_setting(line: &mut Line, words: &[u8], n: u64, more: &[u8], pods: u64)
    requires { length line.old + length words.now + length more.now ≤ 200 }
    ensures value { line.new ≡ line.old ++ setting_text words.now n more.now pods }
    ensures short { length line.new ≤ length line.old + length words.now + length more.now + 85 }
{
    put_count(line, words, n as u128);
    put_pods(line, more, pods as u128);
}

/// A rate, and the pods that it comes to.
#[tactic(auto, using(std::proofs::Common::append_assoc), unfolding(crate::specs::Texts::rate_text))]
pub(crate) fn put_rate(line: &mut Line, words: &[u8], rate: Milli, more: &[u8], pods: u128)
    requires { length line.old + length words.now + length more.now ≤ 200 }
    ensures value { line.new ≡ line.old ++ rate_text words.now rate.0 more.now pods }
    ensures short { length line.new ≤ length line.old + length words.now + length more.now + 206 }
{
    put_milli(line, words, rate.0 as u128);
    put_pods(line, more, pods);
}

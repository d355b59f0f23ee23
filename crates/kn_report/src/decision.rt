//! The row of a decision, written in place.
ghost use Rattle.std.specs.Prelude.{◌≡◌, ◌+◌, ◌≤◌, ◌++◌, [], codes, length, take};
ghost use Rattle.std.specs.Fmt.{decimal, signed_decimal};
ghost use Rattle.kn_event.specs.EntryLine.{averages_text, decision_text, demand_text, effect_text, frac_text, labelled, mode_word, scale_text, yes_no};

use crate::digits::{put_number, put_word};
use itoa::Buffer;
use kn_event::{Decision, Frac, Mode};

/// A number, out of line: there are many in a row.
#[inline(never)]
fn put_plain(room: &mut [u8], at: usize, n: u64) -> usize
    requires { at + 20 ≤ length room.old }
    ensures text { take result room.new ≡ take at room.old ++ decimal n }
    ensures end { result ≤ at + 20 }
{
    put_number(room, at, n)
}

/// A number of up to 128 bits.
fn put_wide(room: &mut [u8], at: usize, n: u128) -> usize
    requires { at + 40 ≤ length room.old }
    ensures text { take result room.new ≡ take at room.old ++ decimal n }
    ensures end { result ≤ at + 40 }
{
    if n < 18_446_744_073_709_551_616 {
        return put_plain(room, at, n as u64);
    }
    let mut digits = Buffer::new();
    put_word(room, at, digits.format(n).as_bytes())
}

/// A number with a sign.
fn put_signed(room: &mut [u8], at: usize, n: i64) -> usize
    requires { at + 21 ≤ length room.old }
    ensures text { take result room.new ≡ take at room.old ++ signed_decimal n }
    ensures end { result ≤ at + 21 }
{
    if n < 0 {
        let at = put_word(room, at, b"-");
        return put_plain(room, at, n.unsigned_abs());
    }
    put_plain(room, at, n as u64)
}

/// A word and a fraction.
#[inline(always)]
#[tactic(auto, using(std::proofs::Common::append_assoc), unfolding(kn_event::specs::EntryLine::labelled))]
fn put_frac(room: &mut [u8], at: usize, word: &[u8], value: Frac) -> usize
    requires { at + length word.now + 81 ≤ length room.old }
    ensures text { take result room.new ≡ take at room.old ++ labelled word.now (frac_text value) }
    ensures end { result ≤ at + length word.now + 81 }
{
    let at = put_word(room, at, word);
    let at = put_wide(room, at, value.num);
    let at = put_word(room, at, b"/");
    put_wide(room, at, value.den)
}

/// A word and a number.
#[inline(always)]
#[tactic(auto, using(std::proofs::Common::append_assoc), unfolding(kn_event::specs::EntryLine::labelled))]
fn put_count(room: &mut [u8], at: usize, word: &[u8], n: u64) -> usize
    requires { at + length word.now + 20 ≤ length room.old }
    ensures text { take result room.new ≡ take at room.old ++ labelled word.now (decimal n) }
    ensures end { result ≤ at + length word.now + 20 }
{
    let at = put_word(room, at, word);
    put_plain(room, at, n)
}

/// A word and whether it holds.
#[inline(always)]
#[tactic(auto, using(std::proofs::Common::append_assoc), unfolding(kn_event::specs::EntryLine::labelled))]
fn put_flag(room: &mut [u8], at: usize, word: &[u8], flag: bool) -> usize
    requires { at + length word.now + 3 ≤ length room.old }
    ensures text { take result room.new ≡ take at room.old ++ labelled word.now (yes_no flag) }
    ensures end { result ≤ at + length word.now + 3 }
{
    let at = put_word(room, at, word);
    if flag {
        put_word(room, at, b"yes")
    } else {
        put_word(room, at, b"no")
    }
}

/// A word and a mode.
#[inline(always)]
#[tactic(auto, using(std::proofs::Common::append_assoc), unfolding(kn_event::specs::EntryLine::labelled))]
fn put_mode(room: &mut [u8], at: usize, word: &[u8], mode: Mode) -> usize
    requires { at + length word.now + 5 ≤ length room.old }
    ensures text { take result room.new ≡ take at room.old ++ labelled word.now (mode_word mode) }
    ensures end { result ≤ at + length word.now + 5 }
{
    let at = put_word(room, at, word);
    match mode {
        Mode::Proxy => put_word(room, at, b"proxy"),
        Mode::Serve => put_word(room, at, b"serve"),
    }
}

#[tactic(auto, using(crate::proofs::Pieces::three_pieces), unfolding(kn_event::specs::EntryLine::averages_text))]
fn put_averages(room: &mut [u8], at: usize, d: &Decision) -> usize
    requires { at + 220 ≤ length room.old }
    ensures text { take result room.new ≡ take at room.old ++ averages_text d.now }
    ensures end { result ≤ at + 220 }
{
    let at = put_frac(room, at, b" decision stable=", d.stable);
    let at = put_frac(room, at, b" panic=", d.panic);
    put_count(room, at, b" ready=", d.ready)
}

#[tactic(auto, using(crate::proofs::Pieces::four_pieces), unfolding(kn_event::specs::EntryLine::demand_text))]
fn put_demand(room: &mut [u8], at: usize, d: &Decision) -> usize
    requires { at + 80 ≤ length room.old }
    ensures text { take result room.new ≡ take at room.old ++ demand_text d.now }
    ensures end { result ≤ at + 80 }
{
    let at = put_count(room, at, b" dspc=", d.dspc);
    let at = put_count(room, at, b" dppc=", d.dppc);
    let at = put_flag(room, at, b" over=", d.over);
    put_flag(room, at, b" panicking=", d.panicking)
}

#[tactic(auto, using(std::proofs::Common::append_assoc), unfolding(kn_event::specs::EntryLine::labelled))]
fn put_excess(room: &mut [u8], at: usize, d: &Decision) -> usize
    requires { at + 29 ≤ length room.old }
    ensures text { take result room.new ≡ take at room.old ++ labelled (codes " excess=") (signed_decimal d.now.excess) }
    ensures end { result ≤ at + 29 }
{
    let at = put_word(room, at, b" excess=");
    put_signed(room, at, d.excess)
}

#[tactic(auto, using(crate::proofs::Pieces::four_pieces), unfolding(kn_event::specs::EntryLine::scale_text))]
fn put_scale(room: &mut [u8], at: usize, d: &Decision) -> usize
    requires { at + 120 ≤ length room.old }
    ensures text { take result room.new ≡ take at room.old ++ scale_text d.now }
    ensures end { result ≤ at + 120 }
{
    let at = put_count(room, at, b" undelayed=", d.undelayed);
    let at = put_count(room, at, b" delayed=", d.delayed);
    let at = put_excess(room, at, d);
    put_count(room, at, b" bounded=", d.bounded)
}

#[tactic(auto, using(crate::proofs::Pieces::three_pieces), unfolding(kn_event::specs::EntryLine::effect_text))]
fn put_effect(room: &mut [u8], at: usize, d: &Decision) -> usize
    requires { at + 50 ≤ length room.old }
    ensures text { take result room.new ≡ take at room.old ++ effect_text d.now }
    ensures end { result ≤ at + 50 }
{
    let at = put_count(room, at, b" want=", d.want);
    let at = put_flag(room, at, b" applied=", d.applied);
    put_mode(room, at, b" mode=", d.mode)
}

/// Writes a decision behind the first bytes of the room, and answers where it ends.
#[tactic(auto, using(crate::proofs::Pieces::four_pieces), unfolding(kn_event::specs::EntryLine::decision_text))]
pub fn put_decision(room: &mut [u8], at: usize, d: &Decision) -> usize
    requires { at + 470 ≤ length room.old }
    ensures text { take result room.new ≡ take at room.old ++ decision_text d.now }
    ensures end { result ≤ at + 470 }
{
    let at = put_averages(room, at, d);
    let at = put_demand(room, at, d);
    let at = put_scale(room, at, d);
    put_effect(room, at, d)
}

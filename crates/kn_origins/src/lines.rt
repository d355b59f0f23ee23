//! The lines of settings, added to a text. Where memory is wanting, some first bytes of a line may have been added.
ghost use Rattle.std.specs.Prelude.{◌≡◌, ◌++◌, OnOk, codes};
ghost use Rattle.std.specs.Fmt.{decimal};
ghost use Rattle.kn_milli.specs.Milli.{milli_text};
ghost use Rattle.kn_origins.specs.Lines.{flag_text, setting, setting_line};
ghost use Rattle.kn_origins.specs.Origins.{origin_text};

use crate::origin::Origin;
use itoa::{Buffer, Integer};
use kn_event::{Line, Memory};
use kn_milli::put_thousandths;

/// Adds bytes at the end.
pub fn add(text: &mut Vec<u8>, bytes: &[u8]) -> Result<(), Memory>
    ensures { OnOk result (text.new.items ≡ text.old.items ++ bytes.now) }
{
    match text.extend_from_slice(bytes) {
        Ok(()) => Ok(()),
        Err(_) => Err(Memory),
    }
}

/// Adds a number in decimal.
fn add_decimal<I: Integer>(text: &mut Vec<u8>, n: I) -> Result<(), Memory>
    ensures { OnOk result (text.new.items ≡ text.old.items ++ I.text n) }
{
    let mut digits = Buffer::new();
    add(text, digits.format(n).as_bytes())
}

/// Adds thousandths as a number.
fn add_milli(text: &mut Vec<u8>, n: u128) -> Result<(), Memory>
    ensures { OnOk result (text.new.items ≡ text.old.items ++ milli_text n) }
{
    let mut line = Line::new();
    put_thousandths(&mut line, n);
    add(text, line.bytes())
}

/// Adds the name of a setting, and a space.
#[tactic(auto, using(std::proofs::Common::append_assoc))]
fn begin(text: &mut Vec<u8>, name: &[u8]) -> Result<(), Memory>
    ensures { OnOk result (text.new.items ≡ text.old.items ++ (name.now ++ codes " ")) }
{
    add(text, name)?;
    add(text, b" ")
}

/// Adds a space, where a setting comes from, and an LF.
#[tactic(auto, using(crate::proofs::Pieces::three_pieces))]
fn end(text: &mut Vec<u8>, from: Origin) -> Result<(), Memory>
    ensures { OnOk result (text.new.items ≡ text.old.items ++ (codes " " ++ (origin_text from ++ codes "\n"))) }
{
    add(text, b" ")?;
    add(text, from.text())?;
    add(text, b"\n")
}

/// Adds the line of a setting whose value is a word: its name, the word and where it comes from, parted by a space, and an LF.
/// The only error is want of memory.
#[tactic(auto, using(crate::proofs::Pieces::line_pieces), unfolding(crate::specs::Lines::setting_line))]
pub fn add_word(text: &mut Vec<u8>, name: &[u8], word: &[u8], from: Origin) -> Result<(), Memory>
    ensures { OnOk result (text.new.items ≡ text.old.items ++ setting_line (setting name.now word.now from)) }
{
    begin(text, name)?;
    add(text, word)?;
    end(text, from)
}

/// Adds the line of a setting whose value is a whole number, in decimal. The only error is want of memory.
#[tactic(auto, using(crate::proofs::Pieces::line_pieces), unfolding(crate::specs::Lines::setting_line))]
pub fn add_number(text: &mut Vec<u8>, name: &[u8], n: u64, from: Origin) -> Result<(), Memory>
    ensures { OnOk result (text.new.items ≡ text.old.items ++ setting_line (setting name.now (decimal n) from)) }
{
    begin(text, name)?;
    add_decimal(text, n)?;
    end(text, from)
}

/// Adds the line of a setting whose value is so many thousandths, as a number with up to three digits behind the point.
/// The only error is want of memory.
#[tactic(auto, using(crate::proofs::Pieces::line_pieces), unfolding(crate::specs::Lines::setting_line))]
pub fn add_thousandths(text: &mut Vec<u8>, name: &[u8], n: u128, from: Origin) -> Result<(), Memory>
    ensures { OnOk result (text.new.items ≡ text.old.items ++ setting_line (setting name.now (milli_text n) from)) }
{
    begin(text, name)?;
    add_milli(text, n)?;
    end(text, from)
}

/// Adds the line of a setting that is on or off, as `true` or `false`. The only error is want of memory.
pub fn add_flag(text: &mut Vec<u8>, name: &[u8], flag: bool, from: Origin) -> Result<(), Memory>
    ensures { OnOk result (text.new.items ≡ text.old.items ++ setting_line (setting name.now (flag_text flag) from)) }
{
    if flag {
        add_word(text, name, b"true", from)
    } else {
        add_word(text, name, b"false", from)
    }
}

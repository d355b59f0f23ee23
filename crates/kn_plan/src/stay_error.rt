//! What is said where the words behind `stay` give no plan.
ghost use Rattle.std.specs.Prelude.{◌≡◌, IfOk, flat_map};
ghost use Rattle.kn_plan.specs.StayTexts.{code_of, fault_text, help_text, text_of, version_text};

use crate::stay_option::StayOption;
use kn_event::{Memory, Text};
use std::alloc::Global;

/// How an option is given wrongly.
#[derive(Clone, Copy)]
pub enum Fault {
    /// It isn't given, and nothing stands for it.
    Missing,
    /// It is given more than once.
    Twice,
    /// Its value is spelled otherwise, or out of range.
    Value,
}

/// What is said in place of serving.
#[derive(Clone, Copy)]
pub enum StayError<'a> {
    /// `--help` asks what the words are.
    Help,
    /// `--version` asks for the program's version and its toolchain's.
    Version,
    /// `clap` knows no such word behind those before it.
    Unknown(&'a str),
    /// This option is given wrongly.
    Bad(StayOption, Fault),
    Memory,
}

#[tactic(auto, unfolding(crate::specs::StayTexts::help_text))]
fn help() -> &'static str
    ensures { result.now ≡ help_text }
{
    "\
kactd stay: serves until standard input ends, and prints its journal meanwhile

  --listen HOST:PORT     where clients come
  --pods HOST:PORT[,..]  the addresses of pods, 1 to 500
  --slots N              requests served at once, held ones too: 1 to 1024; 64
  --room N               rows not yet printed and live requests together:
                         1000 to 1000000; 100000
  --idle S               seconds that a connection may be silent before its
                         request begins: 1 to 3600; 60
  --read S               seconds in which a request's head and body must come:
                         1 to 3600; 30
  --status HOST:PORT     where the status page is; without it there is none
  --version              this program's version and its toolchain's

The last figure is what holds without the option. The setup comes on standard
input, as in a journal. Exit statuses: 0, or 2 for other words, 3 and 4 for a
refused setup, 5 and 6 for reads and writes that failed, 7 for want of memory,
9 where it can't listen.
"
}

#[tactic(auto, unfolding(crate::specs::StayTexts::version_text))]
fn version() -> &'static str
    ensures { result.now ≡ version_text }
{
    "kactd 0.1.0\nrattle-kit logic dac8208d650f15bf\n"
}

fn fault_text(option: StayOption, fault: Fault) -> &'static str
    ensures { result.now ≡ fault_text option fault }
{
    match fault {
        Fault::Missing => " is missing\n",
        Fault::Twice => " is given twice\n",
        Fault::Value => option.range_text(),
    }
}

fn joined(alloc: Global, parts: [&str; 3]) -> Result<Text, Memory>
    ensures { IfOk result (λ text. text ≡ flat_map (λ p. p.now) parts.entry) }
{
    let mut bytes = Vec::new(alloc);
    for part in parts {
        if bytes.extend_from_slice(part.as_bytes()).is_err() {
            return Err(Memory);
        }
    }
    Ok(Text::new(bytes))
}

impl StayError<'_> {
    /// What is said: on standard output where the exit status is 0, and else on standard error.
    pub fn text(&self, alloc: Global) -> Result<Text, Memory>
        ensures { IfOk result (λ text. text ≡ text_of self.now) }
    {
        match *self {
            StayError::Help => joined(alloc, [help(), "", ""]),
            StayError::Version => joined(alloc, [version(), "", ""]),
            StayError::Unknown(word) => joined(alloc, ["kactd stay: unknown word '", word, "'\n"]),
            StayError::Bad(option, fault) => joined(
                alloc,
                ["kactd stay: --", option.name(), fault_text(option, fault)],
            ),
            StayError::Memory => joined(alloc, ["kactd: out of memory\n", "", ""]),
        }
    }

    /// The exit status: 0 for what was asked for, 7 for want of memory, and else 2.
    pub fn exit_code(&self) -> u8
        ensures { result ≡ code_of self.now }
    {
        match *self {
            StayError::Help => 0,
            StayError::Version => 0,
            StayError::Unknown(_) => 2,
            StayError::Bad(_, _) => 2,
            StayError::Memory => 7,
        }
    }
}

//! The command line of five options, as `clap` reads it.
ghost use Rattle.std.specs.Prelude.{◌≡◌, ◌≢◌, [], map, string_bytes, codes, false, IfOk, OnOk, Err};
ghost use Rattle.clap.specs.Faults.{fault_of};
ghost use Rattle.clap.specs.Words.{app_of, rule_of};
ghost use Rattle.kn_plan.specs.Command.{kactd, plain_app, option_rule, required_rule, default_rule, given, lent_text};

use crate::plan_error::PlanError;
use clap::error::ErrorKind;
use clap::{Arg, Command};
use std::alloc::{AllocError, Global};

fn option<'a>(alloc: Global, name: &'a str) -> Arg<'a>
    ensures rule { rule_of result ≡ option_rule name.entry.now }
    ensures local { result.global ≡ false }
{
    Arg::new(alloc, name).long(name)
}

fn required<'a>(alloc: Global, name: &'a str) -> Arg<'a>
    ensures rule { rule_of result ≡ required_rule name.entry.now }
    ensures local { result.global ≡ false }
{
    option(alloc, name).required(true)
}

fn with_default<'a>(alloc: Global, name: &'a str, value: &'a str) -> Arg<'a>
    ensures rule { rule_of result ≡ default_rule name.entry.now value.entry.now }
    ensures local { result.global ≡ false }
{
    option(alloc, name).default_value(value)
}

fn plain<'a>(alloc: Global) -> Command<'a>
    ensures { app_of result ≡ plain_app }
{
    Command::new(alloc, "kactd")
        .no_binary_name(true)
        .disable_help_flag(true)
}

fn command<'a>(alloc: Global) -> Result<Command<'a>, AllocError>
    ensures { IfOk result (λ c. app_of c ≡ kactd) }
{
    plain(alloc)
        .arg(required(alloc, "listen"))?
        .arg(required(alloc, "pods"))?
        .arg(with_default(alloc, "slots", "8"))?
        .arg(with_default(alloc, "rounds", "1"))?
        .arg(with_default(alloc, "room", "100000"))
}

/// What the words give each option, the defaults among them.
#[derive(Clone, Copy)]
pub struct Given<'a> {
    pub listen: Option<&'a str>,
    pub pods: Option<&'a str>,
    pub slots: Option<&'a str>,
    pub rounds: Option<&'a str>,
    pub room: Option<&'a str>,
}

/// What the words give, or `Usage` where `clap` refuses them for another cause than memory.
pub fn options<'a>(alloc: Global, words: &'a [String]) -> Result<Given<'a>, PlanError>
    ensures accepted { OnOk result (fault_of kactd (map string_bytes words.entry.now) ≡ []) }
    ensures listen { IfOk result (λ g. lent_text g.listen ≡ given (map string_bytes words.entry.now) (codes "listen")) }
    ensures pods { IfOk result (λ g. lent_text g.pods ≡ given (map string_bytes words.entry.now) (codes "pods")) }
    ensures slots { IfOk result (λ g. lent_text g.slots ≡ given (map string_bytes words.entry.now) (codes "slots")) }
    ensures rounds { IfOk result (λ g. lent_text g.rounds ≡ given (map string_bytes words.entry.now) (codes "rounds")) }
    ensures room { IfOk result (λ g. lent_text g.room ≡ given (map string_bytes words.entry.now) (codes "room")) }
    ensures usage { result ≡ Err PlanError.Usage → fault_of kactd (map string_bytes words.entry.now) ≢ [] }
{
    let Ok(command) = command(alloc) else {
        return Err(PlanError::Memory);
    };
    match command.try_get_matches_from(words) {
        Ok(matches) => Ok(Given {
            listen: matches.get_str("listen"),
            pods: matches.get_str("pods"),
            slots: matches.get_str("slots"),
            rounds: matches.get_str("rounds"),
            room: matches.get_str("room"),
        }),
        Err(e) => match e.kind() == ErrorKind::OutOfMemory {
            true => Err(PlanError::Memory),
            false => Err(PlanError::Usage),
        },
    }
}

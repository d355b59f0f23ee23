//! The command line of `stay`, as `clap` reads it.
ghost use Rattle.std.specs.Prelude.{◌≡◌, [], map, string_bytes, false, IfOk, IfErr, OnOk};
ghost use Rattle.clap.specs.Matches.{found_of};
ghost use Rattle.clap.specs.Words.{app_of, rule_of, rows_of};
ghost use Rattle.kn_plan.specs.StayOptions.{IsRefusalOf, found_in, plain_stay, refusals, stay, stay_default, stay_rule};

use clap::error::ErrorKind;
use clap::{Arg, ArgAction, ArgMatches, Command};
use std::alloc::{AllocError, Global};

fn option<'a>(alloc: Global, name: &'a str) -> Arg<'a>
    ensures rule { rule_of result ≡ stay_rule name.entry.now }
    ensures local { result.global ≡ false }
{
    Arg::new(alloc, name)
        .long(name)
        .action(ArgAction::Append)
        .num_args(0..=1)
        .default_missing_value("")
}

fn with_default<'a>(alloc: Global, name: &'a str, value: &'a str) -> Arg<'a>
    ensures rule { rule_of result ≡ stay_default name.entry.now value.entry.now }
    ensures local { result.global ≡ false }
{
    option(alloc, name).default_value(value)
}

fn plain<'a>(alloc: Global) -> Command<'a>
    ensures { app_of result ≡ plain_stay }
{
    Command::new(alloc, "kactd stay")
        .no_binary_name(true)
        .version("0.1.0")
}

fn command<'a>(alloc: Global) -> Result<Command<'a>, AllocError>
    ensures { IfOk result (λ c. app_of c ≡ stay) }
{
    plain(alloc)
        .arg(option(alloc, "listen"))?
        .arg(option(alloc, "pods"))?
        .arg(with_default(alloc, "slots", "64"))?
        .arg(with_default(alloc, "room", "100000"))?
        .arg(with_default(alloc, "idle", "60"))?
        .arg(with_default(alloc, "read", "30"))?
        .arg(option(alloc, "status"))
}

/// What `clap` makes of the words, or the kind of its refusal.
pub fn read<'a>(alloc: Global, words: &'a [String]) -> Result<ArgMatches<'a>, ErrorKind>
    ensures accepted { OnOk result (refusals (map string_bytes words.entry.now) ≡ []) }
    ensures found { IfOk result (λ m. rows_of (found_of m) ≡ found_in (map string_bytes words.entry.now)) }
    ensures refused { IfErr result (IsRefusalOf (map string_bytes words.entry.now)) }
{
    let Ok(command) = command(alloc) else {
        return Err(ErrorKind::OutOfMemory);
    };
    match command.try_get_matches_from(words) {
        Ok(matches) => Ok(matches),
        Err(error) => Err(error.kind()),
    }
}

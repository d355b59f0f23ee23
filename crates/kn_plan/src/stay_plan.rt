//! What the words of `kactd stay` ask for.
ghost use Rattle.std.specs.Prelude.{◌≡◌, ◌≢◌, ◌⊎◌, List, [], ◌∷◌, ℕ, Err, Some, false, true, map, string_bytes, IfOk, IfErr};
ghost use Rattle.std.specs.List.{list_all};
ghost use Rattle.clap.specs.Matches.{found_of};
ghost use Rattle.clap.specs.Words.{rows_of};
ghost use Rattle.kn_plan.specs.Command.{lent_text};
ghost use Rattle.kn_plan.specs.Stay.{AreGiven, ArePlainAddresses, AsksForNothing, AsksToStay, IsCause, IsGivenStatus, IsNumberOf, IsPlainAddress, IsPlanOf, IsUnknownIn, IsWrongIn, is_number, is_plain, may_be_absent, value_of, values_of};
ghost use Rattle.kn_plan.specs.StayOptions.{refusals};

use crate::plan::{Hosts, address, addresses, number};
use crate::plan_error::PlanError;
use crate::stay_command::read;
use crate::stay_error::{Fault, StayError};
use crate::stay_option::StayOption;
use clap::ArgMatches;
use clap::error::ErrorKind;
use kn_event::Text;
use std::alloc::Global;

/// What is to be served until it is told to stop. Addresses are spelled `HOST:PORT`, with no `/` and no space in them.
#[derive(Drop)]
pub struct StayPlan {
    pub listen: Text,
    /// 1 to 500.
    pub pods: Hosts,
    /// How many requests are at work at once: 1 to 1,024.
    pub slots: u64,
    /// How many rows that are not yet printed and live requests there is room for: 1,000 to 1,000,000.
    pub room: u64,
    /// How many seconds a connection may be silent before its request begins: 1 to 3,600.
    pub idle: u64,
    /// In how many seconds a request's head and body must be there: 1 to 3,600.
    pub read: u64,
    /// Where the status page is.
    pub status: Option<Text>,
}

fn is_plain(bytes: &[u8]) -> bool
    ensures { result ≡ is_plain bytes.now }
{
    bytes.iter().all(|b| *b > b' ' && *b != 127 && *b != b'/')
}

fn are_plain(texts: &[Text]) -> bool
    ensures { result ≡ list_all is_plain texts.now }
{
    texts.iter().all(|text| is_plain(text.bytes()))
}

/// The address that the text is.
fn plain_address(alloc: Global, text: &str) -> Result<Text, PlanError>
    ensures ok { IfOk result (IsPlainAddress (Some text.now)) }
    ensures usage { result ≡ Err PlanError.Usage → (address : List ℕ) → IsPlainAddress (Some text.now) address → ⊥ }
{
    if is_plain(text.as_bytes()) {
        address(alloc, Some(text))
    } else {
        Err(PlanError::Usage)
    }
}

/// The addresses that the text is.
fn plain_addresses(alloc: Global, text: &str) -> Result<Hosts, PlanError>
    ensures ok { IfOk result (ArePlainAddresses (Some text.now)) }
    ensures usage { result ≡ Err PlanError.Usage → (hosts : List (List ℕ)) → ArePlainAddresses (Some text.now) hosts → ⊥ }
{
    match addresses(alloc, Some(text)) {
        Ok(hosts) => if are_plain(hosts.items()) {
            Ok(hosts)
        } else {
            Err(PlanError::Usage)
        },
        Err(error) => Err(error),
    }
}

/// The value of an option that is given at most once.
fn given<'a>(matches: &ArgMatches<'a>, option: StayOption) -> Result<Option<&'a str>, StayError<'a>>
    ensures value { IfOk result (λ text. AreGiven (values_of (rows_of (found_of matches.now)) option) (lent_text text)) }
    ensures wrong { IfErr result (IsWrongIn (rows_of (found_of matches.now))) }
{
    match matches.get_strs(option.name()) {
        None => Ok(None),
        Some([]) => Ok(None),
        Some([text]) => Ok(Some(*text)),
        Some(_) => Err(StayError::Bad(option, Fault::Twice)),
    }
}

/// The value of an option that is given once.
fn needed<'a>(matches: &ArgMatches<'a>, option: StayOption) -> Result<&'a str, StayError<'a>>
    requires { may_be_absent option ≡ false }
    ensures value { IfOk result (λ text. values_of (rows_of (found_of matches.now)) option ≡ text.now ∷ []) }
    ensures wrong { IfErr result (IsWrongIn (rows_of (found_of matches.now))) }
{
    match given(matches, option)? {
        Some(text) => Ok(text),
        None => Err(StayError::Bad(option, Fault::Missing)),
    }
}

/// What is said of an option whose value isn't as it must be.
fn wrong<'a>(option: StayOption, error: PlanError) -> StayError<'a>
    ensures usage { error ≡ PlanError.Usage → result ≡ StayError.Bad option Fault.Value }
    ensures memory { error ≡ PlanError.Memory → result ≡ StayError.Memory }
{
    match error {
        PlanError::Usage => StayError::Bad(option, Fault::Value),
        PlanError::Memory => StayError::Memory,
    }
}

fn listen<'a>(alloc: Global, matches: &ArgMatches<'a>) -> Result<Text, StayError<'a>>
    ensures ok { IfOk result (IsPlainAddress (value_of (rows_of (found_of matches.now)) StayOption.Listen)) }
    ensures wrong { IfErr result (IsWrongIn (rows_of (found_of matches.now))) }
{
    let text = needed(matches, StayOption::Listen)?;
    match plain_address(alloc, text) {
        Ok(address) => Ok(address),
        Err(error) => Err(wrong(StayOption::Listen, error)),
    }
}

fn pods<'a>(alloc: Global, matches: &ArgMatches<'a>) -> Result<Hosts, StayError<'a>>
    ensures ok { IfOk result (ArePlainAddresses (value_of (rows_of (found_of matches.now)) StayOption.Pods)) }
    ensures wrong { IfErr result (IsWrongIn (rows_of (found_of matches.now))) }
{
    let text = needed(matches, StayOption::Pods)?;
    match plain_addresses(alloc, text) {
        Ok(hosts) => Ok(hosts),
        Err(error) => Err(wrong(StayOption::Pods, error)),
    }
}

/// The number that an option is given.
fn number_of<'a>(matches: &ArgMatches<'a>, option: StayOption) -> Result<u64, StayError<'a>>
    requires { is_number option ≡ true }
    ensures ok { IfOk result (IsNumberOf option (value_of (rows_of (found_of matches.now)) option)) }
    ensures wrong { IfErr result (IsWrongIn (rows_of (found_of matches.now))) }
{
    let text = needed(matches, option)?;
    match number(Some(text), option.least(), option.most()) {
        Ok(n) => Ok(n),
        Err(error) => Err(wrong(option, error)),
    }
}

fn status<'a>(alloc: Global, matches: &ArgMatches<'a>) -> Result<Option<Text>, StayError<'a>>
    ensures ok { IfOk result (IsGivenStatus (values_of (rows_of (found_of matches.now)) StayOption.Status)) }
    ensures wrong { IfErr result (IsWrongIn (rows_of (found_of matches.now))) }
{
    let Some(text) = given(matches, StayOption::Status)? else {
        return Ok(None);
    };
    match plain_address(alloc, text) {
        Ok(address) => Ok(Some(address)),
        Err(error) => Err(wrong(StayOption::Status, error)),
    }
}

/// The plan that `clap` found in the words.
fn found_plan<'a>(alloc: Global, matches: &ArgMatches<'a>) -> Result<StayPlan, StayError<'a>>
    ensures ok { IfOk result (IsPlanOf (rows_of (found_of matches.now))) }
    ensures wrong { IfErr result (IsWrongIn (rows_of (found_of matches.now))) }
{
    let listen = listen(alloc, matches)?;
    let pods = pods(alloc, matches)?;
    let slots = number_of(matches, StayOption::Slots)?;
    let room = number_of(matches, StayOption::Room)?;
    let idle = number_of(matches, StayOption::Idle)?;
    let read = number_of(matches, StayOption::Read)?;
    let status = status(alloc, matches)?;
    Ok(StayPlan {
        listen,
        pods,
        slots,
        room,
        idle,
        read,
        status,
    })
}

/// The first word that `clap` refuses behind those before it.
fn first_refused<'a>(alloc: Global, words: &'a [String]) -> StayError<'a>
    requires { refusals (map string_bytes words.now) ≢ [] }
    ensures { (result ≡ StayError.Memory) ⊎ IsUnknownIn (map string_bytes words.entry.now) result }
{
    for (i, word) in words.iter().enumerate() {
        match read(alloc, &words[..i + 1]) {
            Ok(_) => {}
            Err(kind) => match kind {
                ErrorKind::OutOfMemory => return StayError::Memory,
                _ => return StayError::Unknown(word.as_str()),
            },
        }
    }
    unreachable!()
}

/// What the words behind `stay` ask for:
/// `--listen HOST:PORT --pods HOST:PORT[,..] [--slots N] [--room N] [--idle S] [--read S] [--status HOST:PORT]`, as `clap` reads them.
pub fn stay_plan_of<'a>(alloc: Global, words: &'a [String]) -> Result<StayPlan, StayError<'a>>
    ensures plan { IfOk result (AsksToStay (map string_bytes words.entry.now)) }
    ensures cause { IfErr result (IsCause (map string_bytes words.entry.now)) }
    ensures none { IfErr result (λ e. e ≢ StayError.Memory → AsksForNothing (map string_bytes words.entry.now)) }
{
    match read(alloc, words) {
        Ok(matches) => found_plan(alloc, &matches),
        Err(kind) => match kind {
            ErrorKind::DisplayHelp => Err(StayError::Help),
            ErrorKind::DisplayVersion => Err(StayError::Version),
            ErrorKind::OutOfMemory => Err(StayError::Memory),
            _ => Err(first_refused(alloc, words)),
        },
    }
}

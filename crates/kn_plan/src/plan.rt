//! What the words of `kactd` ask for.
ghost use Rattle.std.specs.Prelude.{◌≡◌, map, string_bytes, IfOk, Err};
ghost use Rattle.kn_plan.specs.declared.plan.Plan.{Plan as PlanValue};
ghost use Rattle.kn_plan.specs.Command.{lent_text};
ghost use Rattle.kn_plan.specs.Plan.{AsksFor, IsGivenAddress, AreGivenAddresses, IsGivenNumber, UsageMeansNone};

use crate::address::{are_addresses, copies, copy, is_address, parts};
use crate::command::options;
use crate::plan_error::PlanError;
use kn_event::{Items, Text, read_number};
use std::alloc::Global;

/// Addresses, in their order.
pub type Hosts = Items<Text>;

/// What is to be served. Addresses are spelled `HOST:PORT`.
#[derive(Drop)]
pub struct Plan {
    pub listen: Text,
    /// 1 to 500.
    pub pods: Hosts,
    /// 1 to 64.
    pub slots: u64,
    /// How many requests each slot serves: 1 to 10,000.
    pub rounds: u64,
    /// How many events and live requests the history has room for: 1 to 1,000,000.
    pub room: u64,
}

/// The address that is given.
pub(crate) fn address(alloc: Global, given: Option<&str>) -> Result<Text, PlanError>
    ensures ok { IfOk result (IsGivenAddress (lent_text given.entry)) }
    ensures usage { UsageMeansNone result (IsGivenAddress (lent_text given.entry)) }
{
    let Some(text) = given else {
        return Err(PlanError::Usage);
    };
    if !is_address(text) {
        return Err(PlanError::Usage);
    }
    match copy(alloc, text) {
        Ok(copied) => Ok(copied),
        Err(_) => Err(PlanError::Memory),
    }
}

/// The 1 to 500 addresses that are given.
pub(crate) fn addresses(alloc: Global, given: Option<&str>) -> Result<Hosts, PlanError>
    ensures ok { IfOk result (AreGivenAddresses (lent_text given.entry)) }
    ensures usage { UsageMeansNone result (AreGivenAddresses (lent_text given.entry)) }
{
    let Some(text) = given else {
        return Err(PlanError::Usage);
    };
    let Ok(parts) = parts(alloc, text, ',') else {
        return Err(PlanError::Memory);
    };
    if parts.len() > 500 {
        return Err(PlanError::Usage);
    }
    if !are_addresses(&parts) {
        return Err(PlanError::Usage);
    }
    match copies(alloc, &parts) {
        Ok(copied) => Ok(copied),
        Err(_) => Err(PlanError::Memory),
    }
}

/// The number that is given, in this range.
pub(crate) fn number(given: Option<&str>, least: u64, most: u64) -> Result<u64, PlanError>
    ensures ok { IfOk result (IsGivenNumber (lent_text given.entry) least most) }
    ensures usage { UsageMeansNone result (IsGivenNumber (lent_text given.entry) least most) }
{
    let Some(text) = given else {
        return Err(PlanError::Usage);
    };
    match read_number(text.as_bytes()) {
        Some(n) if least <= n && n <= most => Ok(n),
        _ => Err(PlanError::Usage),
    }
}

/// What the words after the program's name ask for:
/// `--listen HOST:PORT --pods HOST:PORT[,HOST:PORT..] [--slots N] [--rounds N] [--room N]`, as `clap` reads them.
pub fn plan_of(alloc: Global, words: &[String]) -> Result<Plan, PlanError>
    ensures plan { IfOk result (AsksFor (map string_bytes words.now)) }
    ensures usage { result ≡ Err PlanError.Usage → (plan : PlanValue) → AsksFor (map string_bytes words.now) plan → ⊥ }
{
    let given = options(alloc, words)?;
    let listen = address(alloc, given.listen)?;
    let pods = addresses(alloc, given.pods)?;
    let slots = number(given.slots, 1, 64)?;
    let rounds = number(given.rounds, 1, 10_000)?;
    let room = number(given.room, 1, 1_000_000)?;
    Ok(Plan {
        listen,
        pods,
        slots,
        rounds,
        room,
    })
}

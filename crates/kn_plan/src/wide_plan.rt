//! What the words of `kactd many` ask for.
ghost use Rattle.std.specs.Prelude.{◌≡◌, ◌≤◌, length, map, string_bytes, All, IfOk, Err};
ghost use Rattle.std.specs.List.{slice_split};
ghost use Rattle.kn_plan.specs.declared.wide_plan.WidePlan.{WidePlan as WideValue};
ghost use Rattle.kn_plan.specs.Command.{lent_text};
ghost use Rattle.kn_plan.specs.Plan.{AreGivenLists, AsksForMany, IsAddress, IsAddressList, UsageMeansNone, is_comma};

use crate::address::parts;
use crate::command::options;
use crate::plan::{Hosts, address, addresses, number};
use crate::plan_error::PlanError;
use kn_event::{Items, Text};
use std::alloc::Global;

/// Lists of addresses, one for each revision, in their order.
pub type HostLists = Items<Hosts>;

/// What is to be served of several revisions. Addresses are spelled `HOST:PORT`.
#[derive(Drop)]
pub struct WidePlan {
    pub listen: Text,
    /// 1 to 16 lists, each of 1 to 500.
    pub pods: HostLists,
    /// 1 to 64.
    pub slots: u64,
    /// How many requests each slot serves: 1 to 10,000.
    pub rounds: u64,
    /// How many events and live requests each history has room for: 1 or more, and for all revisions together 1,000,000 at most.
    pub room: u64,
}

/// The addresses of each of the texts.
fn addresses_of(alloc: Global, texts: &[&str]) -> Result<HostLists, PlanError>
    ensures ok { IfOk result (λ lists. lists ≡ map (λ t. slice_split is_comma t.now) texts.now) }
    ensures each { IfOk result (All (All IsAddress)) }
    ensures fit { IfOk result (All (λ hosts. length hosts ≤ 500)) }
    ensures usage { result ≡ Err PlanError.Usage → (All (λ t. IsAddressList t.now) texts.now) → ⊥ }
{
    let mut lists = Vec::new(alloc);
    for text in texts {
        let hosts = match addresses(alloc, Some(text)) {
            Ok(hosts) => hosts,
            Err(error) => return Err(error),
        };
        if lists.push(hosts).is_err() {
            return Err(PlanError::Memory);
        }
    }
    Ok(Items::new(lists))
}

/// The 1 to 16 lists of addresses that are given.
fn lists(alloc: Global, given: Option<&str>) -> Result<HostLists, PlanError>
    ensures ok { IfOk result (AreGivenLists (lent_text given.entry)) }
    ensures usage { UsageMeansNone result (AreGivenLists (lent_text given.entry)) }
{
    let Some(text) = given else {
        return Err(PlanError::Usage);
    };
    let Ok(parts) = parts(alloc, text, ';') else {
        return Err(PlanError::Memory);
    };
    if parts.len() > 16 {
        return Err(PlanError::Usage);
    }
    addresses_of(alloc, &parts)
}

/// What the words after `many` ask for: those of `plan_of`, where `--pods` has 1 to 16 lists, parted by `;`, and the room times
/// the number of lists is at most 1,000,000.
pub fn wide_plan_of(alloc: Global, words: &[String]) -> Result<WidePlan, PlanError>
    ensures plan { IfOk result (AsksForMany (map string_bytes words.now)) }
    ensures usage { result ≡ Err PlanError.Usage → (plan : WideValue) → AsksForMany (map string_bytes words.now) plan → ⊥ }
{
    let given = options(alloc, words)?;
    let listen = address(alloc, given.listen)?;
    let pods = lists(alloc, given.pods)?;
    let slots = number(given.slots, 1, 64)?;
    let rounds = number(given.rounds, 1, 10_000)?;
    let room = number(given.room, 1, 1_000_000)?;
    if room.saturating_mul(pods.items().len() as u64) > 1_000_000 {
        return Err(PlanError::Usage);
    }
    Ok(WidePlan {
        listen,
        pods,
        slots,
        rounds,
        room,
    })
}

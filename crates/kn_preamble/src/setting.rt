//! The first line of a setup.
ghost use Rattle.std.specs.Prelude.{◌≡◌, ◌+◌, ◌≤◌, List, ◌∷◌, Ok, Err, None, OnOk, IfOk, IfErr, length, drop};
ghost use Rattle.kn_event.specs.Fields.{fields, fields_behind};
ghost use Rattle.kn_preamble.specs.SetupLine.{fixed_from, fixed_line, fixed_settings, is_in_range, IsFixedLine, IsSetupLine, least_due, least_from, kpa_from, kpa_settings, least_of, most_of, numbers_due, placed_due, range_fault, setting_number, setting_text, setup_line, with_placed};

use crate::error::SetupError;
use kn_event::{Slots, first_end, next_end, read_number};

/// A number that a setup line names.
#[derive(Clone, Copy)]
pub enum Setting {
    Limit,
    Depth,
    Max,
    Pods,
    Timeout,
    Seed,
}

/// A number that was read, and the place of its field.
#[derive(Clone, Copy)]
pub struct Placed {
    pub number: u64,
    pub place: u64,
}

/// What the first line of a setup says.
#[derive(Clone, Copy)]
pub enum SetupLine {
    /// The limit of each pod, the pods, the timeout in seconds, and the slots.
    Fixed(u64, u64, u64, Slots),
    /// A configuration and a Revision follow.
    Kpa(Slots),
}

impl Setting {
    fn text(self) -> &'static [u8]
        ensures { result.now ≡ setting_text self }
    {
        match self {
            Setting::Limit => b"limit=",
            Setting::Depth => b"depth=",
            Setting::Max => b"max=",
            Setting::Pods => b"pods=",
            Setting::Timeout => b"timeout=",
            Setting::Seed => b"seed=",
        }
    }

    fn least(self) -> u64
        ensures { result ≡ least_of self }
    {
        match self {
            Setting::Limit | Setting::Pods | Setting::Seed => 0,
            Setting::Depth | Setting::Max | Setting::Timeout => 1,
        }
    }

    fn most(self) -> u64
        ensures { result ≡ most_of self }
    {
        match self {
            Setting::Limit | Setting::Max => 1000,
            Setting::Depth => 10_000,
            Setting::Pods => 500,
            Setting::Timeout => 3600,
            Setting::Seed => u64::MAX,
        }
    }

    fn is_in_range(self, n: u64) -> bool
        ensures { result ≡ is_in_range self n }
    {
        self.least() <= n && n <= self.most()
    }
}

/// The number of a field `NAME=NUMBER`.
#[tactic(auto, unfolding(crate::specs::SetupLine::setting_number))]
fn setting_number(setting: Setting, field: &[u8]) -> Option<u64>
    ensures { result ≡ setting_number setting field.now }
{
    let name = setting.text();
    if field.starts_with(name) {
        read_number(&field[name.len()..])
    } else {
        None
    }
}

/// The number of the field behind `at`, where that is this setting's, and where the field ends.
fn next_placed(line: &[u8], at: usize, setting: Setting) -> Result<(Placed, usize), SetupError>
    requires { at ≤ length line.now }
    ensures within { IfOk result (λ p. p.1 ≤ length line.now) }
    ensures ok { IfOk result (λ p. (more : List Setting) →
        placed_due at (setting ∷ more) (fields_behind (drop at line.now)) ≡ with_placed p.0 (placed_due p.1 more (fields_behind (drop p.1 line.now)))) }
    ensures err { IfErr result (λ why. (more : List Setting) → placed_due at (setting ∷ more) (fields_behind (drop at line.now)) ≡ Err why) }
{
    let Some(end) = next_end(line, at) else {
        return Err(SetupError::BadField(at as u64));
    };
    let place = at as u64 + 1;
    match setting_number(setting, &line[at + 1..end]) {
        Some(number) => Ok((Placed { number, place }, end)),
        None => Err(SetupError::BadField(place)),
    }
}

/// The numbers of the fields behind `at`, which are those of these settings in this order and no others.
fn read_placed(
    line: &[u8],
    at: usize,
    settings: &[Setting],
    places: &mut [Placed],
) -> Result<(), SetupError>
    requires within { at ≤ length line.now }
    requires room { length places.old ≡ length settings.now }
    ensures ok { OnOk result (placed_due at settings.now (fields_behind (drop at line.now)) ≡ Ok places.new) }
    ensures err { IfErr result (λ why. placed_due at settings.now (fields_behind (drop at line.now)) ≡ Err why) }
{
    let mut end = at;
    for (i, setting) in settings.iter().enumerate() {
        let (placed, next) = next_placed(line, end, *setting)?;
        places[i] = placed;
        end = next;
    }
    if end == line.len() {
        Ok(())
    } else {
        Err(SetupError::BadField(end as u64 + 1))
    }
}

/// The fault of the first number that is outside its setting's range.
fn range_fault(settings: &[Setting], places: &[Placed]) -> Option<SetupError>
    requires { length places.now ≡ length settings.now }
    ensures { result ≡ range_fault settings.now places.now }
{
    for (i, setting) in settings.iter().enumerate() {
        if !setting.is_in_range(places[i].number) {
            return Some(SetupError::OutOfRange(places[i].place));
        }
    }
    None
}

const UNREAD: Placed = Placed {
    number: 0,
    place: 0,
};

/// What a `fixed` line says.
#[derive(Clone, Copy)]
pub struct FixedLine {
    pub limit: u64,
    pub pods: u64,
    pub timeout_s: u64,
    pub slots: Slots,
}

/// What follows the word `fixed`, where the limit is to be this at least.
fn read_least(line: &[u8], at: usize, least: u64) -> Result<FixedLine, SetupError>
    requires { at ≤ length line.now }
    ensures value { result ≡ least_from (least_due least at (fields_behind (drop at line.now))) }
    ensures ranges { IfOk result (IsFixedLine least) }
{
    let settings = [
        Setting::Limit,
        Setting::Depth,
        Setting::Max,
        Setting::Pods,
        Setting::Timeout,
        Setting::Seed,
    ];
    let mut places = [UNREAD; 6];
    read_placed(line, at, &settings, &mut places)?;
    let [limit, depth, max, pods, timeout, seed] = places;
    if limit.number < least {
        return Err(SetupError::OutOfRange(limit.place));
    }
    if let Some(why) = range_fault(&settings, &places) {
        return Err(why);
    }
    Ok(FixedLine {
        limit: limit.number,
        pods: pods.number,
        timeout_s: timeout.number,
        slots: Slots {
            depth: depth.number,
            max: max.number,
            seed: seed.number,
        },
    })
}

/// What a `fixed` line says whose limit is to be this at least, or its first fault: all fields are read before ranges are judged.
#[tactic(auto, unfolding(crate::specs::SetupLine::fixed_line))]
pub fn read_fixed_line(line: &[u8], least: u64) -> Result<FixedLine, SetupError>
    ensures value { result ≡ fixed_line least line.now }
    ensures ranges { IfOk result (IsFixedLine least) }
{
    let end = first_end(line);
    if &line[..end] == b"fixed".as_slice() {
        read_least(line, end, least)
    } else {
        Err(SetupError::BadWord)
    }
}

/// What follows the word `fixed`.
fn read_fixed(line: &[u8], at: usize) -> Result<SetupLine, SetupError>
    requires { at ≤ length line.now }
    ensures value { result ≡ fixed_from (numbers_due at fixed_settings (fields_behind (drop at line.now))) }
    ensures ranges { IfOk result IsSetupLine }
{
    let settings = [
        Setting::Limit,
        Setting::Depth,
        Setting::Max,
        Setting::Pods,
        Setting::Timeout,
        Setting::Seed,
    ];
    let mut places = [UNREAD; 6];
    read_placed(line, at, &settings, &mut places)?;
    if let Some(why) = range_fault(&settings, &places) {
        return Err(why);
    }
    let [limit, depth, max, pods, timeout, seed] = places;
    let slots = Slots {
        depth: depth.number,
        max: max.number,
        seed: seed.number,
    };
    Ok(SetupLine::Fixed(limit.number, pods.number, timeout.number, slots))
}

/// What follows the word `kpa`.
fn read_kpa(line: &[u8], at: usize) -> Result<SetupLine, SetupError>
    requires { at ≤ length line.now }
    ensures value { result ≡ kpa_from (numbers_due at kpa_settings (fields_behind (drop at line.now))) }
    ensures ranges { IfOk result IsSetupLine }
{
    let settings = [Setting::Depth, Setting::Max, Setting::Seed];
    let mut places = [UNREAD; 3];
    read_placed(line, at, &settings, &mut places)?;
    if let Some(why) = range_fault(&settings, &places) {
        return Err(why);
    }
    let [depth, max, seed] = places;
    Ok(SetupLine::Kpa(Slots {
        depth: depth.number,
        max: max.number,
        seed: seed.number,
    }))
}

/// What a setup's first line says, or its first fault: all fields are read before ranges are judged.
#[tactic(auto, unfolding(crate::specs::SetupLine::setup_line))]
pub fn read_setup_line(line: &[u8]) -> Result<SetupLine, SetupError>
    ensures value { result ≡ setup_line line.now }
    ensures ranges { IfOk result IsSetupLine }
{
    let end = first_end(line);
    let word = &line[..end];
    if word == b"fixed".as_slice() {
        read_fixed(line, end)
    } else if word == b"kpa".as_slice() {
        read_kpa(line, end)
    } else {
        Err(SetupError::BadWord)
    }
}

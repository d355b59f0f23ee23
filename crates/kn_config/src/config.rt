//! The settings of a ConfigMap, each fault the first one.
ghost use Rattle.std.specs.Prelude.{◌≡◌, Ok, IfOk};
ghost use Rattle.serde_json.specs.Data.{Data, null};
ghost use Rattle.serde_json.specs.View.{view};
ghost use Rattle.kn_config.specs.Keys.{IsInRange};
ghost use Rattle.kn_config.specs.Values.{IsBurstOf};
ghost use Rattle.kn_config.specs.Laws.{HaveSame, setting_keys, default_config};
ghost use Rattle.kn_config.specs.Config.{number_at, percentage_at, burst_at, duration_at, seconds_at, count_at, flag_at, targets_of, windows_of, idling_of, scales_of, settings_of, config_in, config_of, GivesConfig, IsConfig, AreTargets, AreWindows, IsIdling, AreScales};

use crate::json::{JsonError, read_json};
use crate::key::Key;
use crate::value::{self, KeyError};
use kn_event::{Burst, Milli};
use kn_num::NumError;
use serde_json::Value;
use std::alloc::Global;

/// What a ConfigMap settles. Percentages are in thousandths of a per cent, numbers of requests in thousandths.
#[derive(Clone, Copy)]
pub struct Config {
    /// The part of a pod's total that it is to bear, above 0 and at most 100 per cent.
    pub utilisation: Milli,
    /// Requests that a pod bears where its containerConcurrency is 0: 0.01 to 1,000,000.
    pub concurrency_default: Milli,
    /// Requests a second that a pod bears: 0.01 to 1,000,000.
    pub rps_default: Milli,
    /// At most 1,000,000 requests.
    pub burst: Burst,
    /// The stable window, 6 to 3,600 seconds.
    pub stable_s: u64,
    /// The panic window in per cent of the stable one, 1 to 100.
    pub panic_percent: Milli,
    /// Per cent of the Ready pods, 1 to 10,000.
    pub panic_threshold: Milli,
    /// Above 1 and at most 1,000,000.
    pub up: Milli,
    /// Above 1 and at most 1,000,000.
    pub down: Milli,
    pub to_zero: bool,
    /// 0 to 3,600,000 milliseconds.
    pub grace_ms: u64,
    /// 0 to 3,600,000 milliseconds.
    pub retention_ms: u64,
    /// 0 to 500.
    pub min: u64,
    /// 0 to 10^9; 0 is none.
    pub max: u64,
    /// 0 to 500, and 0 only where that is allowed.
    pub initial: u64,
    pub allow_zero_initial: bool,
    /// 0 to 3,600 seconds.
    pub delay_s: u64,
}

/// Why a ConfigMap is refused.
#[derive(Clone, Copy)]
pub enum ConfigError {
    NotJson,
    /// The value is no object, or its member `data` is none.
    DataShape,
    NotText(Key),
    BadValue(Key, NumError),
    OutOfRange(Key),
    Memory,
}

/// What a pod is to bear.
#[derive(Clone, Copy)]
struct Targets {
    utilisation: Milli,
    concurrency_default: Milli,
    rps_default: Milli,
    burst: Burst,
}

impl Targets {
    #[tactic(auto, unfolding(crate::specs::Config::targets_of))]
    fn read(map: &Value) -> Result<Targets, KeyError>
        ensures value { result ≡ targets_of (view map.now) }
        ensures ranges { IfOk result (λ targets. AreTargets targets) }
    {
        Ok(Targets {
            utilisation: percentage(map, Key::ContainerConcurrencyTargetPercentage)?,
            concurrency_default: number(map, Key::ContainerConcurrencyTargetDefault)?,
            rps_default: number(map, Key::RequestsPerSecondTargetDefault)?,
            burst: burst(map, Key::TargetBurstCapacity)?,
        })
    }
}

/// What is averaged, and how fast counts change.
#[derive(Clone, Copy)]
struct Windows {
    stable_s: u64,
    panic_percent: Milli,
    panic_threshold: Milli,
    up: Milli,
    down: Milli,
}

impl Windows {
    #[tactic(auto, unfolding(crate::specs::Config::windows_of))]
    fn read(map: &Value) -> Result<Windows, KeyError>
        ensures value { result ≡ windows_of (view map.now) }
        ensures ranges { IfOk result (λ windows. AreWindows windows) }
    {
        Ok(Windows {
            stable_s: seconds(map, Key::StableWindow)?,
            panic_percent: number(map, Key::PanicWindowPercentage)?,
            panic_threshold: number(map, Key::PanicThresholdPercentage)?,
            up: number(map, Key::MaxScaleUpRate)?,
            down: number(map, Key::MaxScaleDownRate)?,
        })
    }
}

/// When the last pod goes.
#[derive(Clone, Copy)]
struct Idling {
    to_zero: bool,
    grace_ms: u64,
    retention_ms: u64,
}

impl Idling {
    #[tactic(auto, unfolding(crate::specs::Config::idling_of))]
    fn read(map: &Value) -> Result<Idling, KeyError>
        ensures value { result ≡ idling_of (view map.now) }
        ensures ranges { IfOk result (λ idling. IsIdling idling) }
    {
        Ok(Idling {
            to_zero: flag(map, Key::EnableScaleToZero)?,
            grace_ms: duration_ms(map, Key::ScaleToZeroGracePeriod)?,
            retention_ms: duration_ms(map, Key::ScaleToZeroPodRetentionPeriod)?,
        })
    }
}

/// The bounds on counts.
#[derive(Clone, Copy)]
struct Scales {
    min: u64,
    max: u64,
    allow_zero_initial: bool,
    initial: u64,
    delay_s: u64,
}

impl Scales {
    #[tactic(auto, unfolding(crate::specs::Config::scales_of))]
    fn read(map: &Value) -> Result<Scales, KeyError>
        ensures value { result ≡ scales_of (view map.now) }
        ensures ranges { IfOk result (λ scales. AreScales scales) }
    {
        let min = count(map, Key::MinScale)?;
        let max = count(map, Key::MaxScale)?;
        let allow_zero_initial = flag(map, Key::AllowZeroInitialScale)?;
        let initial = count(map, Key::InitialScale)?;
        if initial == 0 && !allow_zero_initial {
            return Err(KeyError::OutOfRange(Key::InitialScale));
        }
        let delay_s = seconds(map, Key::ScaleDownDelay)?;
        Ok(Scales {
            min,
            max,
            allow_zero_initial,
            initial,
            delay_s,
        })
    }
}

impl Config {
    /// The settings of a ConfigMap in JSON, or its first fault: the text as JSON, then the shape of `data`, then the
    /// keys in the table's order, each as text, by its grammar and by its range. A missing key has its default, and
    /// keys that are not in the table are ignored.
    #[tactic(auto, unfolding(crate::specs::Config::config_of))]
    pub fn read(alloc: Global, text: &[u8]) -> Result<Config, ConfigError>
        ensures gives { GivesConfig result (config_of text.now) }
        ensures ranges { IfOk result (λ config. IsConfig config) }
    {
        match read_json(alloc, text) {
            Ok(value) => config_in(&value),
            Err(JsonError::NotJson) => Err(ConfigError::NotJson),
            Err(JsonError::Memory) => Err(ConfigError::Memory),
        }
    }
}

/// Settings depend on the table's keys alone, and without any of them they are the defaults.
pub fn other_keys_are_ignored()
    ensures others { (a : Data) (b : Data) → HaveSame setting_keys a b → settings_of a ≡ settings_of b }
    ensures defaults { settings_of null ≡ Ok default_config }
{}

/// The settings in a ConfigMap's value.
fn config_in(map: &Value) -> Result<Config, ConfigError>
    ensures value { result ≡ config_in (view map.now) }
    ensures ranges { IfOk result (λ config. IsConfig config) }
{
    if !map.is_object() {
        return Err(ConfigError::DataShape);
    }
    let read = match map.get("data") {
        None => settings(&Value::Null),
        Some(members) => {
            if !members.is_object() {
                return Err(ConfigError::DataShape);
            }
            settings(members)
        }
    };
    match read {
        Ok(config) => Ok(config),
        Err(KeyError::NotText(key)) => Err(ConfigError::NotText(key)),
        Err(KeyError::BadValue(key, fault)) => Err(ConfigError::BadValue(key, fault)),
        Err(KeyError::OutOfRange(key)) => Err(ConfigError::OutOfRange(key)),
    }
}

/// The settings in the ConfigMap's data.
#[tactic(auto, unfolding(crate::specs::Config::settings_of))]
fn settings(map: &Value) -> Result<Config, KeyError>
    ensures value { result ≡ settings_of (view map.now) }
    ensures ranges { IfOk result (λ config. IsConfig config) }
{
    let targets = Targets::read(map)?;
    let windows = Windows::read(map)?;
    let idling = Idling::read(map)?;
    let scales = Scales::read(map)?;
    Ok(Config {
        utilisation: targets.utilisation,
        concurrency_default: targets.concurrency_default,
        rps_default: targets.rps_default,
        burst: targets.burst,
        stable_s: windows.stable_s,
        panic_percent: windows.panic_percent,
        panic_threshold: windows.panic_threshold,
        up: windows.up,
        down: windows.down,
        to_zero: idling.to_zero,
        grace_ms: idling.grace_ms,
        retention_ms: idling.retention_ms,
        min: scales.min,
        max: scales.max,
        initial: scales.initial,
        allow_zero_initial: scales.allow_zero_initial,
        delay_s: scales.delay_s,
    })
}

fn number(map: &Value, key: Key) -> Result<Milli, KeyError>
    ensures value { result ≡ number_at key (view map.now) }
    ensures range { IfOk result (λ number. IsInRange key number.0) }
{
    match value::text(map, key.text(), key) {
        Ok(Some(text)) => value::number(key, text),
        Ok(None) => Ok(Milli(key.rule().default)),
        Err(fault) => Err(fault),
    }
}

fn percentage(map: &Value, key: Key) -> Result<Milli, KeyError>
    ensures value { result ≡ percentage_at key (view map.now) }
    ensures range { IfOk result (λ percentage. IsInRange key percentage.0) }
{
    match value::text(map, key.text(), key) {
        Ok(Some(text)) => value::percentage(key, text),
        Ok(None) => Ok(Milli(key.rule().default)),
        Err(fault) => Err(fault),
    }
}

fn burst(map: &Value, key: Key) -> Result<Burst, KeyError>
    ensures value { result ≡ burst_at key (view map.now) }
    ensures range { IfOk result (λ burst. IsBurstOf key burst) }
{
    match value::text(map, key.text(), key) {
        Ok(Some(text)) => value::burst(key, text),
        Ok(None) => Ok(Burst::Capacity(Milli(key.rule().default))),
        Err(fault) => Err(fault),
    }
}

fn duration_ms(map: &Value, key: Key) -> Result<u64, KeyError>
    ensures value { result ≡ duration_at key (view map.now) }
    ensures range { IfOk result (λ ms. IsInRange key ms) }
{
    match value::text(map, key.text(), key) {
        Ok(Some(text)) => value::duration_ms(key, text),
        Ok(None) => Ok(key.rule().default),
        Err(fault) => Err(fault),
    }
}

fn seconds(map: &Value, key: Key) -> Result<u64, KeyError>
    ensures value { result ≡ seconds_at key (view map.now) }
    ensures range { IfOk result (λ seconds. IsInRange key seconds) }
{
    match value::text(map, key.text(), key) {
        Ok(Some(text)) => value::seconds(key, text),
        Ok(None) => Ok(key.rule().default),
        Err(fault) => Err(fault),
    }
}

fn count(map: &Value, key: Key) -> Result<u64, KeyError>
    ensures value { result ≡ count_at key (view map.now) }
    ensures range { IfOk result (λ count. IsInRange key count) }
{
    match value::text(map, key.text(), key) {
        Ok(Some(text)) => value::count(key, text),
        Ok(None) => Ok(key.rule().default),
        Err(fault) => Err(fault),
    }
}

fn flag(map: &Value, key: Key) -> Result<bool, KeyError>
    ensures { result ≡ flag_at key (view map.now) }
{
    match value::text(map, key.text(), key) {
        Ok(Some(text)) => value::flag(key, text),
        Ok(None) => Ok(key.rule().default == 1),
        Err(fault) => Err(fault),
    }
}

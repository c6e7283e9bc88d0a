//! The table `registries`, by its variables.
ghost use Rattle.std.specs.Prelude.{◌≡◌, OnOk, IfOk, IfErr, MatchOption, ℕ, List, string_bytes, false, None, Some};
ghost use Rattle.std.specs.Str.{bytes_eq};
ghost use Rattle.cc2_value.specs.Shown.{map_at, entry_at, fields_at, option_at};
ghost use Rattle.cc2_value.specs.Spelled.{protocol_value};
ghost use Rattle.cc2_tables.specs.Registries.{registries_fields};
ghost use Rattle.cc2_env.specs.Kept.{Variables};
ghost use Rattle.cc2_env.specs.Options.{variables_of};
ghost use Rattle.cc2_env.specs.Ranked.{by, by_field, rows_of, IsRanked, IsRankCause, AllRanked, IsRankCauseAt};
ghost use Rattle.cc2_env.specs.Ranks.{one_by, protocol_variables, registries_rank, registries_ranks, registry_variable};
ghost use Rattle.cc2_env.specs.Registries.{is_registry_variable, is_registry_rest, IsRegistrySet};
ghost use Rattle.cc2_env.specs.Tokens.{DifferInTokens};

use crate::read::{put_in, read_one};
use crate::{ResolveContext, apply_fields};
use cc2_base::variable::env_text;
use cc2_error::error::{NoMemory, Result};
use cc2_leaf::{ReadEnv, RegistriesProtocol, Value, put};
use cc2_tables::RegistriesConfigValue;
use cc2_value::Visited;
use std::alloc::Global;
use std::collections::BTreeMap;

// The variable that sets the protocol of crates.io.
const PROTOCOL_VARIABLE: &str = "CARGO_REGISTRIES_CRATES_IO_PROTOCOL";

/// What the variables `CARGO_REGISTRIES_n_INDEX`, `CARGO_REGISTRIES_n_TOKEN`,
/// `CARGO_REGISTRIES_n_CREDENTIAL_PROVIDER` and `CARGO_REGISTRIES_CRATES_IO_PROTOCOL` make of the
/// table `registries`: each sets its setting, and the registry is there then. The name n is kept as
/// it is written and may be empty (Cargo Reference, Configuration,
/// [`[registries]`](https://doc.rust-lang.org/cargo/reference/config.html#registries)).
///
/// # Errors
/// `EnvNotText` where such a variable is not UTF-8, with a line that names it; of a token nothing
/// more is reported. `EnvParse`, without that line, where the protocol is none. `EmptyCommand`,
/// `ProviderArgs` or `ProviderNoCommand` where a provider's words make none. `Memory`. Some settings
/// are then set, and others not.
pub fn apply_registries(
    alloc: Global,
    context: &ResolveContext,
    registries: &mut BTreeMap<String, RegistriesConfigValue>,
) -> Result<()>
    ensures ok { OnOk result (IsRanked (map_at (entry_at registries_fields)) registries_rank
        (variables_of context.now) registries.old registries.new) }
    ensures refused { IfErr result
        (IsRankCause (map_at (entry_at registries_fields)) registries_rank
        (variables_of context.now) registries.old) }
    ensures tokens { IfErr result (λ e.
        (other : Variables) → DifferInTokens (variables_of context.now) other
        → IsRankCause (map_at (entry_at registries_fields)) registries_rank other
        registries.old e) }
{
    for (name, _) in context.variables().iter() {
        if let Some(registry) = registry_of(name.as_str()) {
            apply_entry(alloc, context, registry, registries)?;
        }
    }
    Ok(())
}

// The registry of which a variable of this name sets something.
fn registry_of(name: &str) -> Option<&str>
    ensures { MatchOption result ((n : List ℕ) → is_registry_variable n name.now ≡ false)
        (λ registry. (n : List ℕ) → is_registry_variable n name.now ≡ bytes_eq n registry.now) }
{
    match name.strip_prefix("CARGO_REGISTRIES_") {
        None => None,
        Some(rest) => registry_before(rest),
    }
}

// The same of what follows `CARGO_REGISTRIES_`.
fn registry_before(rest: &str) -> Option<&str>
    ensures { MatchOption result ((n : List ℕ) → is_registry_rest n rest.now ≡ false)
        (λ registry. (n : List ℕ) → is_registry_rest n rest.now ≡ bytes_eq n registry.now) }
{
    if let Some(registry) = rest.strip_suffix("_INDEX") {
        return Some(registry);
    }
    if let Some(registry) = rest.strip_suffix("_TOKEN") {
        return Some(registry);
    }
    if let Some(registry) = rest.strip_suffix("_CREDENTIAL_PROVIDER") {
        return Some(registry);
    }
    if rest == "CRATES_IO_PROTOCOL" {
        Some("crates-io")
    } else {
        None
    }
}

// What the variables of a registry make of its entry, which is made where there is none.
fn apply_entry(
    alloc: Global,
    context: &ResolveContext,
    name: &str,
    registries: &mut BTreeMap<String, RegistriesConfigValue>,
) -> Result<()>
    ensures ok { OnOk result
        (IsRegistrySet (variables_of context.now) registries.old name.now registries.new) }
    ensures refused { IfErr result
        (IsRankCause (map_at (entry_at registries_fields)) registries_rank
        (variables_of context.now) registries.old) }
{
    match registries.get_mut(name) {
        Some(registry) => Ok(apply_registry(alloc, context, name, registry)?),
        None => {
            let key = String::from_str(alloc, name)?;
            let registry = new_registry(alloc, context, name)?;
            put(registries, key, registry)
        }
    }
}

// What the variables of a registry make of none.
fn new_registry(
    alloc: Global,
    context: &ResolveContext,
    name: &str,
) -> Result<RegistriesConfigValue>
    ensures ok { IfOk result (λ registry. IsRanked (option_at (fields_at registries_fields))
        (by_field (rows_of (registries_ranks name.now))) (variables_of context.now) None
        (Some registry)) }
    ensures refused { IfErr result (IsRankCause (option_at (fields_at registries_fields))
        (by_field (rows_of (registries_ranks name.now))) (variables_of context.now) None) }
{
    let mut registry = RegistriesConfigValue::empty(alloc);
    apply_registry(alloc, context, name, &mut registry)?;
    Ok(registry)
}

// What the variables of a registry of this name make of it.
fn apply_registry(
    alloc: Global,
    context: &ResolveContext,
    name: &str,
    registry: &mut RegistriesConfigValue,
) -> Result<()>
    ensures ok { OnOk result
        (IsRanked (fields_at registries_fields) (by_field (rows_of (registries_ranks name.now)))
        (variables_of context.now) registry.old registry.new) }
    ensures refused { IfErr result
        (IsRankCause (fields_at registries_fields) (by_field (rows_of (registries_ranks name.now)))
        (variables_of context.now) registry.old) }
{
    match apply_settings(alloc, context, name, registry) {
        Ok(()) => Ok(()),
        Err(refused) => Err(refused.error),
    }
}

// The same setting by setting, up to the first that is refused.
fn apply_settings(
    alloc: Global,
    context: &ResolveContext,
    name: &str,
    registry: &mut RegistriesConfigValue,
) -> Visited
    ensures ok { OnOk result (AllRanked registries_fields (rows_of (registries_ranks name.now))
        (variables_of context.now) registry.old registry.new) }
    ensures refused { IfErr result (λ r. IsRankCauseAt (fields_at registries_fields)
        (rows_of (registries_ranks name.now))
        (variables_of context.now) registry.old r.key.now r.error) }
{
    apply_fields!(alloc, context, registry;
        "index" index read_setting(name, "_INDEX"),
        "token" token read_setting(name, "_TOKEN"),
        "credential-provider" credential_provider read_setting(name, "_CREDENTIAL_PROVIDER"),
        "protocol" protocol read_protocol(name),
    )
}

// What the variable of a registry that ends so makes of a setting.
fn read_setting<T: ReadEnv>(
    alloc: Global,
    context: &ResolveContext,
    registry: &str,
    suffix: &str,
    setting: &mut Option<T>,
) -> Result<()>
    ensures ok { OnOk result (IsRanked (option_at T.MergeFrom.cell_at)
        (one_by T.text_way (registry_variable registry.now suffix.now))
        (variables_of context.now) setting.old setting.new) }
    ensures refused { IfErr result
        (IsRankCause (option_at T.MergeFrom.cell_at)
        (one_by T.text_way (registry_variable registry.now suffix.now))
        (variables_of context.now) setting.old) }
{
    let name = variable_name(alloc, registry, suffix)?;
    read_one(alloc, context, name.as_str(), setting)
}

// What a variable makes of a registry's protocol, which it sets for crates.io alone. No line of the
// refusal of its text names the variable.
fn read_protocol(
    alloc: Global,
    context: &ResolveContext,
    registry: &str,
    protocol: &mut Option<Value<RegistriesProtocol>>,
) -> Result<()>
    ensures ok { OnOk result (IsRanked protocol_value (by (protocol_variables registry.now))
        (variables_of context.now) protocol.old protocol.new) }
    ensures refused { IfErr result
        (IsRankCause protocol_value (by (protocol_variables registry.now))
        (variables_of context.now) protocol.old) }
{
    if registry != "crates-io" {
        return Ok(());
    }
    match context.env_value(PROTOCOL_VARIABLE) {
        None => Ok(()),
        Some(value) => {
            let text = env_text(alloc, PROTOCOL_VARIABLE, value)?;
            let read = Value::read_env(alloc, text, PROTOCOL_VARIABLE)?;
            put_in(protocol, Some(read));
            Ok(())
        }
    }
}

// The name of the variable of a registry that ends so.
fn variable_name(
    alloc: Global,
    registry: &str,
    suffix: &str,
) -> std::result::Result<String, NoMemory>
    ensures { IfOk result (λ name. string_bytes name ≡ registry_variable registry.now suffix.now) }
{
    Ok(format!(in alloc; "CARGO_REGISTRIES_{registry}{suffix}")?)
}

//! A target's settings as JSON.
ghost use Rattle.std.specs.Prelude.{◌≡◌, ◌++◌, IfOk, OnOk, map, option_map, string_bytes};
ghost use Rattle.serde_json.specs.Data.{string};
ghost use Rattle.serde_json.specs.View.{members_view, view};
ghost use Rattle.cc2_error.specs.Commands.{command_of};
ghost use Rattle.cc2_resolved.specs.ShownFlags.{flag_texts};
ghost use Rattle.cc2_resolved.specs.TargetConfigs.{shown};
ghost use Rattle.cc2_target_answers.specs.Settings.{command_data, flags_data, put_some, settings_data};

use cargo_config2::{Flags, PathAndArgs, TargetConfig};
use cc2_error::error::NoMemory;
use cc2_json::Json;
use serde_json::{Map, put};
use std::alloc::Global;

/// The settings for a target: an object of those that are set.
///
/// # Errors
/// `NoMemory` where memory ran out.
pub(crate) fn settings_json(alloc: Global, settings: &TargetConfig) -> Result<Json, NoMemory>
    ensures { IfOk result (λ json. view json ≡ settings_data (shown settings.now)) }
{
    let linker = text_json(&settings.linker)?;
    let runner = command_json(alloc, &settings.runner)?;
    let rustflags = flags_json(alloc, &settings.rustflags)?;
    let rustdocflags = flags_json(alloc, &settings.rustdocflags)?;
    let mut members = Map::new(alloc);
    put_some(&mut members, alloc, "linker", linker)?;
    put_some(&mut members, alloc, "runner", runner)?;
    put_some(&mut members, alloc, "rustflags", rustflags)?;
    put_some(&mut members, alloc, "rustdocflags", rustdocflags)?;
    Ok(Json::Object(members))
}

// Puts a setting among the members, where it is set.
fn put_some(
    members: &mut Map<String, Json>,
    alloc: Global,
    key: &str,
    json: Option<Json>,
) -> Result<(), NoMemory>
    ensures { OnOk result (members_view members.new.entries
        ≡ put_some key.now (option_map view json) (members_view members.old.entries)) }
{
    if let Some(json) = json {
        put(members, alloc, key, json)?;
    }
    Ok(())
}

// A text, where there is one.
fn text_json(text: &Option<String>) -> Result<Option<Json>, NoMemory>
    ensures { IfOk result (λ json.
        option_map view json ≡ option_map (λ t. string (string_bytes t)) text.now) }
{
    match text {
        Some(text) => Ok(Some(Json::String(text.clone()?))),
        None => Ok(None),
    }
}

// A command, where there is one: a list of its program and its arguments.
fn command_json(alloc: Global, command: &Option<PathAndArgs>) -> Result<Option<Json>, NoMemory>
    ensures { IfOk result (λ json.
        option_map view json ≡ option_map (λ c. command_data (command_of c)) command.now) }
{
    match command {
        Some(command) => {
            let mut list = Vec::new(alloc);
            list.push(Json::String(command.path.clone()?))?;
            push_texts(&mut list, command.args.as_slice())?;
            Ok(Some(Json::Array(list)))
        }
        None => Ok(None),
    }
}

// Flags, where there are any: a list of them.
fn flags_json(alloc: Global, flags: &Option<Flags>) -> Result<Option<Json>, NoMemory>
    ensures { IfOk result (λ json.
        option_map view json ≡ option_map (λ f. flags_data (flag_texts f)) flags.now) }
{
    match flags {
        Some(flags) => {
            let mut list = Vec::new(alloc);
            push_texts(&mut list, flags.flags.as_slice())?;
            Ok(Some(Json::Array(list)))
        }
        None => Ok(None),
    }
}

// Appends each text.
fn push_texts(list: &mut Vec<Json>, texts: &[String]) -> Result<(), NoMemory>
    ensures { OnOk result (map view list.new.items
        ≡ map view list.old.items ++ map string (map string_bytes texts.now)) }
{
    for text in texts {
        list.push(Json::String(text.clone()?))?;
    }
    Ok(())
}

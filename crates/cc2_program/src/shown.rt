//! What `get` writes.
ghost use Rattle.std.specs.Prelude.{◌≡◌, ◌⊎◌, true, is_none, IfSome, map, option_map, string_bytes, unwrap_or, []};
ghost use Rattle.cc2_base.specs.Told.{WhereTold};
ghost use Rattle.cc2_cargo_answers.specs.Layers.{layers_view};
ghost use Rattle.cc2_cli.specs.Choices.{choices_of};
ghost use Rattle.cc2_cli.specs.ShowTasks.{format_view, request_view, stage_view};
ghost use Rattle.cc2_error.specs.Causes.{memory, plain};
ghost use Rattle.cc2_command_line.specs.CommandViews.{get_view};
ghost use Rattle.cc2_program.specs.Requests.{format_of, layers_of, request_of, shown_stage};
ghost use Rattle.cc2_program.specs.Runs.{GetAlways, GetWrites, RulesGive, key_error};
ghost use Rattle.cc2_program.specs.SaidViews.{written};
ghost use Rattle.cc2_program.specs.Streams.{IsOnOneStream, failed, out_of_memory};
ghost use Rattle.cc2_show_answers.specs.ShowQuestions.{IsNoKeyIn};
ghost use Rattle.cc2_show_answers.specs.ToldAnswers as shown;
ghost use Rattle.cc2_show_answers.specs.ToldRuns.{IsRefused};

use crate::said::Said;
use cc2_answers::LetGo;
use cc2_base::files::Files;
use cc2_base::machine::Machine;
use cc2_cargo::RealPaths;
use cc2_cargo_answers::{Layers, get_by_cargo};
use cc2_cli::show;
use cc2_cli::show::Request;
use cc2_command_line::{Get, Rules, Stage, ValueFormat};
use cc2_show_answers::{Told, get_to};
use std::alloc::Global;

/// What `get` writes.
pub(crate) fn get_said<F: Files, L: RealPaths>(
    alloc: Global,
    get: &Get<'_>,
    machine: &Machine,
    choices: &[String],
    overrides: &[&str],
    files: &F,
    reals: &L,
) -> Said
    ensures told { WhereTold (F.told files.now) (λ fs.
        GetWrites fs (L.told reals.now) machine.now (choices_of (map string_bytes choices.now))
        (map (λ text. text.now) overrides.now) (get_view get.now) (written result)) }
    ensures always { GetAlways (get_view get.now) (written result) }
{
    match told_by_rules(alloc, get, machine, choices, overrides, files, reals) {
        Some(told) => Said::of_told(told),
        None => bad_key(alloc, get.key),
    }
}

// What is at the key of `get` by its rules; none where the key isn't well formed.
fn told_by_rules<F: Files, L: RealPaths>(
    alloc: Global,
    get: &Get<'_>,
    machine: &Machine,
    choices: &[String],
    overrides: &[&str],
    files: &F,
    reals: &L,
) -> Option<Told>
    ensures none { is_none result ≡ true → IsNoKeyIn (get_view get.now).key }
    ensures unkeyed { IsNoKeyIn (get_view get.now).key
        → IfSome result (λ told. IsRefused (plain memory) (shown.written told)) }
    ensures told { let request = request_of (string_bytes machine.now.current_dir)
        (get_view get.now) in
        let layers = layers_of get.now.stage (map (λ text. text.now) overrides.now) in
        WhereTold (F.told files.now) (λ fs. IfSome result (λ told.
        RulesGive fs (L.told reals.now) machine.now (get_view get.now).rules
        (choices_of (map string_bytes choices.now)) layers request (shown.written told))) }
{
    let request = request_of(machine.current_dir.as_str(), get);
    match get.rules {
        Rules::Crate => get_to(alloc, request, choices, machine, files, LetGo::Forgotten),
        Rules::Cargo => {
            let layers = layers_of(get.stage, overrides);
            let let_go = LetGo::Forgotten;
            get_by_cargo(alloc, request, layers, machine, files, reals, let_go)
        }
    }
}

// The error of a key that isn't well formed.
fn bad_key(alloc: Global, key: Option<&str>) -> Said
    ensures is { (written result
        ≡ failed (key_error (unwrap_or (option_map (λ k. k.now) key.entry) [])) 2)
        ⊎ (written result ≡ out_of_memory) }
    ensures one { IsOnOneStream (written result) }
{
    let key = key.unwrap_or("");
    match format!(in alloc; "error: invalid key `{key}`: expected names with `.` between them\n") {
        Ok(line) => Said::Line(line.into_bytes(), 2),
        Err(_) => Said::out_of_memory(),
    }
}

// The request of `get` in a directory.
fn request_of<'a>(dir: &'a str, get: &Get<'a>) -> Request<'a>
    ensures { request_view result ≡ request_of dir.now (get_view get.now) }
{
    Request {
        dir,
        key: get.key,
        stage: shown_stage(get.stage),
        format: format_of(get.format),
        merged: get.merged,
        origins: get.origins,
        tokens: get.tokens,
    }
}

// What Cargo reads for `get`: the files alone, or the files under the variables and the overrides.
fn layers_of<'a>(stage: Stage, overrides: &'a [&'a str]) -> Layers<'a>
    ensures { layers_view result ≡ layers_of stage (map (λ text. text.now) overrides.now) }
{
    match stage {
        Stage::Files => Layers::Files,
        Stage::Environment | Stage::Resolved => Layers::All(overrides),
    }
}

fn shown_stage(stage: Stage) -> show::Stage
    ensures { stage_view result ≡ shown_stage stage }
{
    match stage {
        Stage::Environment => show::Stage::Environment,
        Stage::Files => show::Stage::Files,
        Stage::Resolved => show::Stage::Resolved,
    }
}

fn format_of(format: ValueFormat) -> show::Format
    ensures { format_view result ≡ format_of format }
{
    match format {
        ValueFormat::Toml => show::Format::Toml,
        ValueFormat::Json => show::Format::Json,
        ValueFormat::JsonValue => show::Format::JsonValue,
    }
}

//! What `target` prints: the linker, runner and flags for targets.
ghost use Rattle.std.specs.Prelude.{◌≡◌, false, IfOk, map, string_bytes};
ghost use Rattle.std.specs.Result.{result_map_both};
ghost use Rattle.serde_json.specs.View.{view};
ghost use Rattle.serde_json.specs.Written.{has_float};
ghost use Rattle.cc2_cli.specs.Answers.{answer_text, Shows};
ghost use Rattle.cc2_cli.specs.Choices.{choices_of};
ghost use Rattle.cc2_error.specs.Causes.{refusal_of};
ghost use Rattle.cc2_program.specs.Queries.{PrintsTargets, settings_text};
ghost use Rattle.cc2_program.specs.Streams.{IsFoundOrError};
ghost use Rattle.cc2_rustc.specs.Kept.{WhereBothTold};

use cargo_config2::Result;
use cc2_base::files::Files;
use cc2_base::machine::Machine;
use cc2_base::programs::Programs;
use cc2_cli::{Answer, answer_of, refusal_answer};
use cc2_command_line::{TargetFormat, Targets};
use cc2_error::error::NoMemory;
use cc2_json::{Json, alone_at, json_line, toml_lines};
use cc2_target_answers::crate_targets;
use std::alloc::Global;

/// The settings for targets by the configuration of a directory. If no target is given, they are those of `build.target`,
/// else of the host. The status is 1 if the configuration or a target has an error.
pub fn targets_answer<F: Files, P: Programs>(
    alloc: Global,
    targets: &Targets<'_>,
    machine: &Machine,
    choices: &[String],
    files: &F,
    programs: &mut P,
) -> Answer
    ensures one { IsFoundOrError result }
    ensures told { WhereBothTold (F.told files.now) (P.told programs.old) (λ fs answers.
        PrintsTargets fs answers machine.now (string_bytes machine.now.current_dir)
        (choices_of (map string_bytes choices.now))
        (map (λ triple. triple.now) targets.now.triples.items) targets.now.format
        (answer_text result) result.status) }
{
    let dir = machine.current_dir.as_str();
    let triples = targets.triples.as_slice();
    let found = crate_targets(alloc, dir, triples, choices, machine, files, programs);
    answer_by(alloc, targets.format, found)
}

/// The answer with these settings, or with the error.
pub(crate) fn answer_by(alloc: Global, format: TargetFormat, found: Result<Json>) -> Answer
    requires { IfOk found (λ json. has_float (view json) ≡ false) }
    ensures one { IsFoundOrError result }
    ensures shows { Shows (settings_text format) (result_map_both view refusal_of found) result }
{
    match found {
        Ok(json) => answer_of(text_of(alloc, format, json), 0),
        Err(error) => refusal_answer(alloc, &error),
    }
}

fn text_of(
    alloc: Global,
    format: TargetFormat,
    json: Json,
) -> std::result::Result<Vec<u8>, NoMemory>
    requires { has_float (view json) ≡ false }
    ensures { IfOk result (λ text. text.items ≡ settings_text format (view json)) }
{
    match format {
        TargetFormat::Toml => toml_lines(alloc, &["target"], &json, false),
        TargetFormat::Json => json_line(alloc, &alone_at(alloc, &["target"], json)?),
    }
}

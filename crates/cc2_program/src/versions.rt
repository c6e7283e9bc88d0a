//! What `version` prints: the versions of rustc and cargo, and by which Cargo's rules answers are.
ghost use Rattle.std.specs.Prelude.{◌≡◌, IfOk, codes, map, string_bytes};
ghost use Rattle.std.specs.Result.{result_map_both};
ghost use Rattle.cc2_answers.specs.Left.{IsReady};
ghost use Rattle.cc2_answers.specs.SeveralRuns.{as_it_is};
ghost use Rattle.cc2_cli.specs.Answers.{answer_text, Shows};
ghost use Rattle.cc2_cli.specs.Choices.{choices_of};
ghost use Rattle.cc2_error.specs.Causes.{refusal_of};
ghost use Rattle.cc2_program.specs.Queries.{IsVersionsOutcome, PrintsVersions, channel_part, program_line};
ghost use Rattle.cc2_target_answers.specs.Outcomes.{Comes};
ghost use Rattle.cc2_program.specs.Streams.{IsFoundOrError};
ghost use Rattle.cc2_rustc.specs.Kept.{WhereBothTold};
ghost use Rattle.cc2_rustc.specs.Shown.{of_cargo, of_rustc};

use cargo_config2::{CargoVersion, Config, NoMemory, Result, RustcVersion};
use cc2_answers::load_chosen;
use cc2_base::files::Files;
use cc2_base::machine::Machine;
use cc2_base::programs::Programs;
use cc2_cli::{Answer, answer_of, refusal_answer};
use std::alloc::Global;
use std::mem::forget;

/// The versions of the rustc and the cargo that the configuration of a directory chooses, a line each, and a line that says by
/// which Cargo's rules `get`, `target`, `rustc` and `host` answer. The status is 1 if the configuration has an error, or a program can't be run or doesn't print its version.
pub fn versions_answer<F: Files, P: Programs>(
    alloc: Global,
    machine: &Machine,
    choices: &[String],
    files: &F,
    programs: &mut P,
) -> Answer
    ensures one { IsFoundOrError result }
    ensures told { WhereBothTold (F.told files.now) (P.told programs.old) (λ fs answers.
        PrintsVersions fs answers machine.now (string_bytes machine.now.current_dir)
        (choices_of (map string_bytes choices.now)) (answer_text result) result.status) }
{
    let dir = machine.current_dir.as_str();
    match load_chosen(alloc, dir, choices, machine, files) {
        Ok(mut config) => {
            let lines = version_lines(alloc, &mut config, files, programs);
            forget(config);
            answer_by(alloc, lines)
        }
        Err(error) => refusal_answer(alloc, &error),
    }
}

// The answer with these lines, or with the error.
fn answer_by(alloc: Global, lines: Result<String>) -> Answer
    ensures one { IsFoundOrError result }
    ensures shows { Shows as_it_is (result_map_both string_bytes refusal_of lines) result }
{
    match lines {
        Ok(lines) => answer_of(Ok(lines.into_bytes()), 0),
        Err(error) => refusal_answer(alloc, &error),
    }
}

// The lines of both versions, and of the rules.
fn version_lines<F: Files, P: Programs>(
    alloc: Global,
    config: &mut Config,
    files: &F,
    programs: &mut P,
) -> Result<String>
    ensures { WhereBothTold (F.told files.now) (P.told programs.old) (λ fs answers.
        IsReady fs answers config.old
        → Comes string_bytes (IsVersionsOutcome fs answers config.old) result) }
{
    let rustc = config.rustc_version(alloc, files, programs)?;
    let mut lines = rustc_line(alloc, &rustc)?;
    let cargo = config.cargo_version(alloc, files, programs)?;
    let line = cargo_line(alloc, &cargo)?;
    lines.push_str(line.as_str())?;
    lines.push_str("rules of Cargo 1.95\n")?;
    Ok(lines)
}

fn rustc_line(alloc: Global, version: &RustcVersion) -> std::result::Result<String, NoMemory>
    ensures { IfOk result (λ line.
        string_bytes line ≡ program_line (codes "rustc") (of_rustc version.now)) }
{
    let RustcVersion {
        major,
        minor,
        patch,
        nightly,
    } = *version;
    let ending = ending_of(nightly);
    Ok(match patch {
        Some(patch) => format!(in alloc; "rustc {major}.{minor}.{patch}{ending}\n")?,
        None => format!(in alloc; "rustc {major}.{minor}{ending}\n")?,
    })
}

fn cargo_line(alloc: Global, version: &CargoVersion) -> std::result::Result<String, NoMemory>
    ensures { IfOk result (λ line.
        string_bytes line ≡ program_line (codes "cargo") (of_cargo version.now)) }
{
    let CargoVersion {
        major,
        minor,
        patch,
        nightly,
    } = *version;
    let ending = ending_of(nightly);
    Ok(format!(in alloc; "cargo {major}.{minor}.{patch}{ending}\n")?)
}

fn ending_of(nightly: bool) -> &'static str
    ensures { result.now ≡ channel_part nightly }
{
    if nightly { "-nightly" } else { "" }
}

//! What a run writes, composed before it is written.
ghost use Rattle.std.specs.Prelude.{Ok, map, string_bytes};
ghost use Rattle.cc2_base.specs.Told.{WhereTold};
ghost use Rattle.cc2_rustc.specs.AskedVersions.{host_said};
ghost use Rattle.cc2_rustc.specs.Kept.{WhereBothTold};
ghost use Rattle.cargo_config2.specs.Kept.{asked_by, Agrees};
ghost use Rattle.cargo_config2.specs.RustcKept.{AgreesOnRustc, rustc_command_of};
ghost use Rattle.cc2_cli.specs.CommandLines.{rustc_lines, host_line};
ghost use Rattle.cc2_answers.specs.Runs.{PrintsBuild, PrintsRustc, PrintsHost};
ghost use Rattle.cc2_cli.specs.Answers.{answer_text, Shows};
ghost use Rattle.cc2_answers.specs.Choices.{overrides_by};

use crate::build_lines::build_lines;
use crate::chosen::{load_built, load_chosen};
use crate::let_go::LetGo;
use cargo_config2::Config;
use cc2_base::files::Files;
use cc2_base::machine::Machine;
use cc2_base::programs::Programs;
use cc2_cli::commands::{host_line, rustc_lines};
use cc2_cli::{Answer, answer_of, refusal_answer};
use std::alloc::Global;

/// The answer for the build table of a directory, under the overrides of these words: pairs of `--config` and a
/// text, or of `--config-file` and a path.
pub fn build_answer<F: Files>(
    alloc: Global,
    dir: &str,
    choices: &[String],
    machine: &Machine,
    files: &F,
    let_go: LetGo,
) -> Answer
    ensures { WhereTold (F.told files.now) (λ fs.
        PrintsBuild fs machine.now dir.now (overrides_by (map string_bytes choices.now))
        (answer_text result) result.status) }
{
    match load_built(alloc, dir, choices, machine, files) {
        Ok(configured) => {
            let answer = answer_of(build_lines(alloc, &configured.config), 0);
            let_go.take(configured);
            answer
        }
        Err(error) => refusal_answer(alloc, &error),
    }
}

/// The answer for the command for rustc of a directory, under the overrides of these words.
pub fn rustc_answer<F: Files>(
    alloc: Global,
    dir: &str,
    choices: &[String],
    machine: &Machine,
    files: &F,
    let_go: LetGo,
) -> Answer
    ensures { WhereTold (F.told files.now) (λ fs.
        PrintsRustc fs machine.now dir.now (overrides_by (map string_bytes choices.now))
        (answer_text result) result.status) }
{
    match load_chosen(alloc, dir, choices, machine, files) {
        Ok(mut config) => {
            let answer = rustc_shown(alloc, &mut config, files);
            let_go.take(config);
            answer
        }
        Err(error) => refusal_answer(alloc, &error),
    }
}

// The answer for a configuration's command for rustc.
fn rustc_shown<F: Files>(alloc: Global, config: &mut Config, files: &F) -> Answer
    ensures { WhereTold (F.told files.now) (λ fs. AgreesOnRustc fs config.old
        → Shows rustc_lines (Ok (rustc_command_of fs config.old)) result) }
{
    match config.rustc(alloc, files) {
        Ok(command) => answer_of(rustc_lines(alloc, &command), 0),
        Err(error) => refusal_answer(alloc, &error),
    }
}

/// The answer for the triple of the host, by the configuration of a directory under the overrides of these words.
pub fn host_answer<F: Files, P: Programs>(
    alloc: Global,
    dir: &str,
    choices: &[String],
    machine: &Machine,
    files: &F,
    programs: &mut P,
    let_go: LetGo,
) -> Answer
    ensures { WhereBothTold (F.told files.now) (P.told programs.old) (λ fs answers.
        PrintsHost fs answers machine.now dir.now (overrides_by (map string_bytes choices.now))
        (answer_text result) result.status) }
{
    match load_chosen(alloc, dir, choices, machine, files) {
        Ok(mut config) => {
            let answer = host_shown(alloc, &mut config, files, programs);
            let_go.take(config);
            answer
        }
        Err(error) => refusal_answer(alloc, &error),
    }
}

// The answer for a configuration's host.
fn host_shown<F: Files, P: Programs>(
    alloc: Global,
    config: &mut Config,
    files: &F,
    programs: &mut P,
) -> Answer
    ensures { WhereBothTold (F.told files.now) (P.told programs.old) (λ fs answers.
        Agrees fs answers config.old
        → Shows host_line (host_said (asked_by fs config.old) answers) result) }
{
    match config.host_triple(alloc, files, programs) {
        Ok(host) => answer_of(host_line(alloc, host.as_str()), 0),
        Err(error) => refusal_answer(alloc, &error),
    }
}

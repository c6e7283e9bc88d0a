//! What a run for a target writes, composed before it is written.
ghost use Rattle.std.specs.Prelude.{Some, map, string_bytes};
ghost use Rattle.cc2_resolved.specs.ShownTargets.{target_at};
ghost use Rattle.cc2_resolved.specs.Targets.{target_of};
ghost use Rattle.cc2_rustc.specs.Kept.{WhereBothTold};
ghost use Rattle.cargo_config2.specs.Kept.{Agrees};
ghost use Rattle.cc2_cli.specs.Answers.{answer_text};
ghost use Rattle.cc2_answers.specs.Choices.{overrides_by};
ghost use Rattle.cc2_answers.specs.TargetRuns.{PrintsTarget, PrintsFor};

use crate::chosen::load_chosen;
use crate::let_go::LetGo;
use crate::target_lines::target_lines;
use cargo_config2::{Config, TargetTripleRef};
use cc2_base::files::Files;
use cc2_base::machine::Machine;
use cc2_base::programs::Programs;
use cc2_cli::{Answer, answer_of, refusal_answer};
use std::alloc::Global;

/// The answer for the settings of the target of a text, by the configuration of a directory under the overrides of
/// these words.
pub fn target_answer<F: Files, P: Programs>(
    alloc: Global,
    dir: &str,
    text: &str,
    choices: &[String],
    machine: &Machine,
    files: &F,
    programs: &mut P,
    let_go: LetGo,
) -> Answer
    ensures { WhereBothTold (F.told files.now) (P.told programs.old) (λ fs answers.
        PrintsTarget fs answers machine.now dir.now
        (overrides_by (map string_bytes choices.now)) text.now (answer_text result)
        result.status) }
{
    match load_chosen(alloc, dir, choices, machine, files) {
        Ok(mut config) => {
            let answer = target_read(alloc, &mut config, text, files, programs);
            let_go.take(config);
            answer
        }
        Err(error) => refusal_answer(alloc, &error),
    }
}

// The answer by a configuration.
fn target_read<F: Files, P: Programs>(
    alloc: Global,
    config: &mut Config,
    text: &str,
    files: &F,
    programs: &mut P,
) -> Answer
    ensures { WhereBothTold (F.told files.now) (P.told programs.old) (λ fs answers.
        Agrees fs answers config.old
        → PrintsFor fs answers config.old (target_of text.now) (answer_text result) result.status) }
{
    match TargetTripleRef::new(text) {
        Ok(target) => target_shown(alloc, config, &target, files, programs),
        Err(error) => refusal_answer(alloc, &error),
    }
}

// The answer for a target by a configuration.
fn target_shown<F: Files, P: Programs>(
    alloc: Global,
    config: &mut Config,
    target: &TargetTripleRef<'_>,
    files: &F,
    programs: &mut P,
) -> Answer
    ensures { WhereBothTold (F.told files.now) (P.told programs.old) (λ fs answers.
        Agrees fs answers config.old
        → PrintsFor fs answers config.old (Some (target_at target.now))
        (answer_text result) result.status) }
{
    match config.target(alloc, target, files, programs) {
        Ok(settings) => answer_of(target_lines(alloc, &settings), 0),
        Err(error) => refusal_answer(alloc, &error),
    }
}

//! What `target --rules cargo` prints: what Cargo 1.95 itself uses for targets.
ghost use Rattle.std.specs.Prelude.{map, string_bytes};
ghost use Rattle.cc2_cli.specs.Answers.{answer_text};
ghost use Rattle.cc2_program.specs.CargoTargets.{PrintsCargoTargets};
ghost use Rattle.cc2_program.specs.Streams.{IsFoundOrError};
ghost use Rattle.cc2_target_answers.specs.Worlds.{WhereRun};

use crate::targets::answer_by;
use cc2_base::files::Files;
use cc2_base::machine::Machine;
use cc2_cargo::RealPaths;
use cc2_cargo_target::WithVariables;
use cc2_cli::Answer;
use cc2_command_line::Targets;
use cc2_target_answers::cargo_targets;
use std::alloc::Global;

/// What Cargo itself uses for targets by the configuration of a directory, under these overrides: for those that are
/// given, else those of `build.target`, else the host (Cargo Reference, Configuration,
/// [`[target]`](https://doc.rust-lang.org/cargo/reference/config.html#target)). The status is 1 if the configuration or a
/// target has an error.
pub(crate) fn cargo_targets_answer<F: Files, P: WithVariables, L: RealPaths>(
    alloc: Global,
    targets: &Targets<'_>,
    overrides: &[&str],
    machine: &Machine,
    files: &F,
    reals: &L,
    programs: &mut P,
) -> Answer
    ensures one { IsFoundOrError result }
    ensures told { WhereRun (F.told files.now) (L.told reals.now) (P.told_with programs.old)
        (λ fs real_paths own. PrintsCargoTargets fs real_paths own machine.now
        (string_bytes machine.now.current_dir) (map (λ text. text.now) overrides.now)
        (map (λ triple. triple.now) targets.now.triples.items) targets.now.build_scripts
        targets.now.format (answer_text result) result.status) }
{
    let dir = machine.current_dir.as_str();
    let triples = targets.triples.as_slice();
    let found = cargo_targets(
        alloc,
        dir,
        triples,
        targets.build_scripts,
        overrides,
        machine,
        files,
        reals,
        programs,
    );
    answer_by(alloc, targets.format, found)
}

//! What `rustc --rules cargo` and `host --rules cargo` print.
ghost use Rattle.std.specs.Prelude.{◌≡◌, map, string_bytes};
ghost use Rattle.std.specs.Result.{result_map_both};
ghost use Rattle.cc2_base.specs.Told.{WhereTold};
ghost use Rattle.cc2_cargo.specs.Raw.{raw_members_at};
ghost use Rattle.cc2_cargo_target.specs.Rustc.{rustc_command};
ghost use Rattle.cc2_cli.specs.Answers.{answer_text};
ghost use Rattle.cc2_error.specs.Causes.{refusal_of};
ghost use Rattle.cc2_error.specs.Commands.{command_of};
ghost use Rattle.cc2_error.specs.Outcomes.{Gives};
ghost use Rattle.cc2_target_answers.specs.CargoLoads.{IsOverSettings};
ghost use Rattle.cc2_program.specs.CargoPrograms.{PrintsCargoHost, PrintsCargoRustc, host_by};
ghost use Rattle.cargo_rules.specs.WithEnv.{IsWithEnv};
ghost use Rattle.cc2_target_answers.specs.Outcomes.{Comes};
ghost use Rattle.cc2_program.specs.Streams.{IsFoundOrError};
ghost use Rattle.cc2_target_answers.specs.Worlds.{WhereRead, WhereRun};

use cargo_config2::{PathAndArgs, Result};
use cc2_base::files::Files;
use cc2_base::machine::Machine;
use cc2_base::programs::Programs;
use cc2_cargo::RealPaths;
use cc2_cargo_settings::{Sources, env_variables};
use cc2_cargo_target::{WithVariables, rustc_command};
use cc2_cli::commands::{host_line, rustc_lines};
use cc2_cli::{Answer, answer_of, refusal_answer};
use cc2_rustc::host_of_rustc;
use cc2_target_answers::load_by_cargo;
use std::alloc::Global;
use std::mem::forget;

/// The command for rustc that Cargo itself runs by the configuration of the machine's directory, under these overrides (Cargo
/// Reference, Configuration,
/// [`build.rustc`](https://doc.rust-lang.org/cargo/reference/config.html#buildrustc)). The status is 1 if the configuration
/// has an error.
pub(crate) fn cargo_rustc_answer<F: Files, L: RealPaths>(
    alloc: Global,
    overrides: &[&str],
    machine: &Machine,
    files: &F,
    reals: &L,
) -> Answer
    ensures one { IsFoundOrError result }
    ensures told { WhereRead (F.told files.now) (L.told reals.now) (λ fs real_paths.
        PrintsCargoRustc fs real_paths machine.now (string_bytes machine.now.current_dir)
        (map (λ text. text.now) overrides.now) (answer_text result) result.status) }
{
    let dir = machine.current_dir.as_str();
    match rustc_under(alloc, dir, overrides, machine, files, reals) {
        Ok(command) => answer_of(rustc_lines(alloc, &command), 0),
        Err(error) => refusal_answer(alloc, &error),
    }
}

/// The triple of the host that this rustc reports. The status is 1 if the configuration has an error, or rustc can't be run
/// or reports none.
pub(crate) fn cargo_host_answer<F: Files, P: WithVariables, L: RealPaths>(
    alloc: Global,
    overrides: &[&str],
    machine: &Machine,
    files: &F,
    reals: &L,
    programs: &mut P,
) -> Answer
    ensures one { IsFoundOrError result }
    ensures told { WhereRun (F.told files.now) (L.told reals.now) (P.told_with programs.old)
        (λ fs real_paths own. PrintsCargoHost fs real_paths own machine.now
        (string_bytes machine.now.current_dir) (map (λ text. text.now) overrides.now)
        (answer_text result) result.status) }
{
    let dir = machine.current_dir.as_str();
    match host_under(alloc, dir, overrides, machine, files, reals, programs) {
        Ok(host) => answer_of(host_line(alloc, host.as_str()), 0),
        Err(error) => refusal_answer(alloc, &error),
    }
}

// The command for rustc in a directory under overrides.
fn rustc_under<F: Files, L: RealPaths>(
    alloc: Global,
    dir: &str,
    overrides: &[&str],
    machine: &Machine,
    files: &F,
    reals: &L,
) -> Result<PathAndArgs>
    ensures { WhereRead (F.told files.now) (L.told reals.now) (λ fs real_paths.
        IsOverSettings fs real_paths machine.now dir.now (map (λ text. text.now) overrides.now)
        (λ settings outcome. outcome
        ≡ rustc_command (raw_members_at settings) machine.now dir.now)
        (result_map_both command_of refusal_of result)) }
{
    let settings = load_by_cargo(alloc, dir, overrides, machine, files, reals)?;
    let sources = Sources {
        settings: &settings,
        machine,
    };
    let rustc = rustc_command(alloc, sources, dir);
    forget(settings);
    rustc
}

// The host in a directory under overrides.
fn host_under<F: Files, P: WithVariables, L: RealPaths>(
    alloc: Global,
    dir: &str,
    overrides: &[&str],
    machine: &Machine,
    files: &F,
    reals: &L,
    programs: &mut P,
) -> Result<String>
    ensures { WhereRun (F.told files.now) (L.told reals.now) (P.told_with programs.old)
        (λ fs real_paths own. IsOverSettings fs real_paths machine.now dir.now
        (map (λ text. text.now) overrides.now)
        (λ settings. IsWithEnv (λ answers o. o ≡ host_by settings machine.now dir.now answers)
        settings machine.now dir.now own) (result_map_both string_bytes refusal_of result)) }
{
    let settings = load_by_cargo(alloc, dir, overrides, machine, files, reals)?;
    let sources = Sources {
        settings: &settings,
        machine,
    };
    let host = host_of(alloc, sources, dir, programs);
    forget(settings);
    host
}

// The host that rustc reports, run with the variables of `[env]`.
fn host_of<P: WithVariables>(
    alloc: Global,
    sources: Sources<'_>,
    dir: &str,
    programs: &mut P,
) -> Result<String>
    ensures { WhereTold (P.told_with programs.old) (λ own. Comes string_bytes
        (IsWithEnv (λ answers o. o
        ≡ host_by sources.entry.settings.now sources.entry.machine.now dir.now answers)
        sources.entry.settings.now sources.entry.machine.now dir.now own) result) }
{
    let variables = env_variables(alloc, sources, dir)?;
    programs.set_variables(variables);
    host_by(alloc, sources, dir, programs)
}

fn host_by<P: Programs>(
    alloc: Global,
    sources: Sources<'_>,
    dir: &str,
    programs: &mut P,
) -> Result<String>
    ensures { WhereTold (P.told programs.old) (λ answers. Gives string_bytes result
        (host_by sources.entry.settings.now sources.entry.machine.now dir.now answers)) }
{
    let rustc = rustc_command(alloc, sources, dir)?;
    host_of_rustc(alloc, &rustc, programs)
}

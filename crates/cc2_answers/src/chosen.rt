//! Loads under the overrides that the words after a task choose.
ghost use Rattle.std.specs.Prelude.{◌≡◌, IfOk, IfErr, map, string_bytes};
ghost use Rattle.cc2_error.specs.Outcomes.{Answered, IsWantOfMemory};
ghost use Rattle.cc2_base.specs.Told.{WhereTold};
ghost use Rattle.cc2_de.specs.Config.{config_at};
ghost use Rattle.cc2_cli.specs.Choices.{choice_of};
ghost use Rattle.cc2_answers.specs.Choices.{ChoosesAlone, IsConfigUnder, IsConfigUnderCause, IsWithChoice, overrides_by};
ghost use Rattle.cc2_answers.specs.Environments.{IsBuilt, IsBuiltCause};

use cargo_config2::Config;
use cc2_base::files::Files;
use cc2_base::machine::Machine;
use cc2_de::{Configured, ResolveOptions, load_under};
use cc2_error::error::Result;
use std::alloc::Global;

/// The configuration of a directory under the overrides of these words: pairs of `--config` and a text, or of
/// `--config-file` and a path.
pub fn load_chosen<F: Files>(
    alloc: Global,
    dir: &str,
    choices: &[String],
    machine: &Machine,
    files: &F,
) -> Result<Config>
    ensures { let os = overrides_by (map string_bytes choices.now) in
        WhereTold (F.told files.now) (λ fs.
        Answered (λ c. c) result (IsConfigUnder fs machine.now dir.now os)
        (IsConfigUnderCause fs machine.now dir.now os)) }
{
    let options = options_by(alloc, choices)?;
    Config::load_with_options(alloc, dir, options, machine, files)
}

/// The same before it is resolved.
pub fn load_built<F: Files>(
    alloc: Global,
    dir: &str,
    choices: &[String],
    machine: &Machine,
    files: &F,
) -> Result<Configured>
    ensures { let os = overrides_by (map string_bytes choices.now) in
        WhereTold (F.told files.now) (λ fs.
        Answered (λ c. config_at c.config) result (IsBuilt fs machine.now dir.now os)
        (IsBuiltCause fs machine.now dir.now os)) }
{
    let options = options_by(alloc, choices)?;
    load_under(alloc, dir, options, machine, files)
}

/// Options by which nothing is chosen but the overrides of these words.
pub fn options_by(alloc: Global, choices: &[String]) -> Result<ResolveOptions>
    ensures ok { IfOk result (ChoosesAlone (overrides_by (map string_bytes choices.now))) }
    ensures refused { IfErr result IsWantOfMemory }
{
    let mut options = ResolveOptions::default();
    let mut rest = choices;
    while let [option, value, behind @ ..] = rest {
        options = with_choice(alloc, options, option.as_str(), value.as_str())?;
        rest = behind;
    }
    Ok(options)
}

// The options with one choice more.
fn with_choice(
    alloc: Global,
    options: ResolveOptions,
    option: &str,
    value: &str,
) -> Result<ResolveOptions>
    ensures ok { IfOk result (IsWithChoice (choice_of option.now value.now) options) }
    ensures refused { IfErr result IsWantOfMemory }
{
    let value = String::from_str(alloc, value)?;
    if option == "--config" {
        options.config_text(alloc, value)
    } else {
        options.config_file(alloc, value)
    }
}

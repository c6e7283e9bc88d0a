//! The lines of one item by a configuration. The queries keep what they found in it; that changes no later answer.
ghost use Rattle.std.specs.Prelude.{◌≡◌, IfOk, IfErr, option_map, string_bytes};
ghost use Rattle.std.specs.Option.{option_copied};
ghost use Rattle.cc2_error.specs.Outcomes.{IsWantOfMemory};
ghost use Rattle.cc2_base.specs.Told.{WhereTold};
ghost use Rattle.cc2_rustc.specs.RustcParts.{settings_of};
ghost use Rattle.cc2_cli.specs.CommandLines.{rustc_lines};
ghost use Rattle.cargo_config2.specs.RustcKept.{rustc_command_of, rustc_settings};
ghost use Rattle.cc2_answers.specs.Items as asked;
ghost use Rattle.cc2_answers.specs.ItemViews.{item_view};
ghost use Rattle.cc2_answers.specs.Left.{IsAsked, IsUnchosen};
ghost use Rattle.cc2_answers.specs.Outcomes.{ComesTo, IsOutcomeOf};

use crate::cfg_lines::cfg_lines;
use crate::item_build_lines::build_lines;
use crate::target_lines::target_lines;
use crate::version_lines::{cargo_version_lines, rustc_version_lines};
use crate::words::Item;
use cargo_config2::{Config, PathAndArgs, Result, TargetTripleRef};
use cc2_base::files::Files;
use cc2_base::programs::Programs;
use cc2_cli::commands::{host_line, rustc_lines};
use cc2_rustc::{Parts, find_rustc};
use std::alloc::Global;

/// The lines of an item.
///
/// # Errors
/// Those of the query that the item asks; `ErrorKind::SpecName` where a text is no target. `ErrorKind::Memory` where memory
/// ran out.
pub(crate) fn item_lines<F: Files, P: Programs>(
    alloc: Global,
    config: &mut Config,
    item: Item<'_>,
    files: &F,
    programs: &mut P,
) -> Result<Vec<u8>>
    ensures { IsAsked (F.told files.now) (P.told programs.old)
        (P.told programs.new) config.old config.new
        (λ fs answers. ComesTo (IsOutcomeOf fs answers config.old (item_view item.entry)) result) }
{
    match item {
        Item::Build => Ok(build_lines(alloc, &config.build)?),
        Item::Rustc => command_lines(alloc, config, files),
        Item::Host => host_lines(alloc, config, files, programs),
        Item::Target(text) => settings_lines(alloc, config, text, files, programs),
        Item::Cfg(text, name) => values_lines(alloc, config, text, name, files, programs),
        Item::RustcVersion => rustc_lines_of(alloc, config, files, programs),
        Item::CargoVersion => cargo_lines_of(alloc, config, files, programs),
    }
}

// The lines of the command for rustc, where none was chosen in place of the configuration's.
fn command_lines<F: Files>(alloc: Global, config: &Config, files: &F) -> Result<Vec<u8>>
    ensures told { WhereTold (F.told files.now) (λ fs. IsUnchosen config.now
        → IfOk result (λ text. text.items ≡ rustc_lines (rustc_command_of fs config.now))) }
    ensures refused { IfErr result IsWantOfMemory }
{
    let mut command = None;
    find_rustc(alloc, &parts_of(config), files, &mut command)?;
    match command {
        Some(command) => Ok(rustc_lines(alloc, &command)?),
        None => unreachable!(),
    }
}

// What the command for rustc is made of, where none was chosen.
fn parts_of(config: &Config) -> Parts<'_>
    ensures { IsUnchosen config.now → settings_of result ≡ rustc_settings config.now }
{
    Parts {
        chosen: None,
        rustc: lent(&config.build.rustc),
        wrapper: lent(&config.build.rustc_wrapper),
        workspace_wrapper: lent(&config.build.rustc_workspace_wrapper),
        cargo: config.cargo(),
    }
}

// A text that may be absent, lent.
fn lent(text: &Option<String>) -> Option<&str>
    ensures { option_copied result ≡ option_map string_bytes text.now }
{
    match text {
        Some(text) => Some(text.as_str()),
        None => None,
    }
}

// The line of the host.
fn host_lines<F: Files, P: Programs>(
    alloc: Global,
    config: &mut Config,
    files: &F,
    programs: &mut P,
) -> Result<Vec<u8>>
    ensures { IsAsked (F.told files.now) (P.told programs.old)
        (P.told programs.new) config.old config.new
        (λ fs answers. ComesTo (IsOutcomeOf fs answers config.old asked.host) result) }
{
    config.find_host(alloc, files, programs)?;
    match config.known_host() {
        Some(host) => Ok(host_line(alloc, host)?),
        None => unreachable!(),
    }
}

// The lines of the settings of the target of a text.
fn settings_lines<F: Files, P: Programs>(
    alloc: Global,
    config: &mut Config,
    text: &str,
    files: &F,
    programs: &mut P,
) -> Result<Vec<u8>>
    ensures { IsAsked (F.told files.now) (P.told programs.old)
        (P.told programs.new) config.old config.new
        (λ fs answers. ComesTo (IsOutcomeOf fs answers config.old (asked.target text.now)) result) }
{
    let target = TargetTripleRef::new(text)?;
    let settings = config.target(alloc, &target, files, programs)?;
    Ok(target_lines(alloc, &settings)?)
}

// The lines of the values that rustc prints for the target of a text, of a cfg name.
fn values_lines<F: Files, P: Programs>(
    alloc: Global,
    config: &mut Config,
    text: &str,
    name: &str,
    files: &F,
    programs: &mut P,
) -> Result<Vec<u8>>
    ensures { IsAsked (F.told files.now) (P.told programs.old)
        (P.told programs.new) config.old config.new
        (λ fs answers. ComesTo (IsOutcomeOf fs answers config.old
        (asked.cfg text.now name.now)) result) }
{
    let target = TargetTripleRef::new(text)?;
    config.find_cfg_set(alloc, &target, files, programs)?;
    match config.known_cfg_set(&target) {
        Some(set) => Ok(cfg_lines(alloc, set, name)?),
        None => unreachable!(),
    }
}

// The lines of rustc's version.
fn rustc_lines_of<F: Files, P: Programs>(
    alloc: Global,
    config: &mut Config,
    files: &F,
    programs: &mut P,
) -> Result<Vec<u8>>
    ensures { IsAsked (F.told files.now) (P.told programs.old)
        (P.told programs.new) config.old config.new
        (λ fs answers. ComesTo (IsOutcomeOf fs answers config.old asked.rustc_version) result) }
{
    let version = config.rustc_version(alloc, files, programs)?;
    Ok(rustc_version_lines(alloc, &version)?)
}

// The lines of cargo's version.
fn cargo_lines_of<F: Files, P: Programs>(
    alloc: Global,
    config: &mut Config,
    files: &F,
    programs: &mut P,
) -> Result<Vec<u8>>
    ensures { IsAsked (F.told files.now) (P.told programs.old)
        (P.told programs.new) config.old config.new
        (λ fs answers. ComesTo (IsOutcomeOf fs answers config.old asked.cargo_version) result) }
{
    let version = config.cargo_version(alloc, files, programs)?;
    Ok(cargo_version_lines(alloc, &version)?)
}

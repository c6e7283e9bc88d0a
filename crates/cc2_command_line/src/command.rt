//! A command with its options.
ghost use Rattle.std.specs.Prelude.{◌≡◌, Err, None, Ok, Some, map, option_map, IfOk, IfErr, OnOk};
ghost use Rattle.cc2_command_line.specs.Commands as spec;
ghost use Rattle.cc2_command_line.specs.CommandViews.{command_view, get_view, lint_view, targets_view};
ghost use Rattle.cc2_command_line.specs.FaultViews.{IsFaultOf, fault_view};
ghost use Rattle.cc2_command_line.specs.Parts.{part_view};

use crate::agreement::{expect_agreement, expect_files_alone, expect_rules, expect_rules_of_cargo};
use crate::choice::{Level, LintFormat, Rules, Stage, TargetFormat, ValueFormat, chosen};
use crate::fault::Fault;
use crate::option::{Flag, Setting};
use crate::part::Part;
use crate::selected::{has_flag, values};
use std::alloc::Global;

/// A command by its name.
#[derive(Clone, Copy, Debug, PartialEq, Eq)]
pub enum Verb {
    /// `get`
    Get,
    /// `target`
    Target,
    /// `rustc`
    Rustc,
    /// `host`
    Host,
    /// `version`
    Version,
    /// `lint`
    Lint,
}

/// What `get` prints.
#[derive(Clone, Copy, Debug)]
pub struct Get<'a> {
    /// The key whose value is printed; none for the whole configuration.
    pub key: Option<&'a str>,
    /// Which configuration is printed.
    pub stage: Stage,
    /// The rules by which files are read.
    pub rules: Rules,
    /// How it is printed.
    pub format: ValueFormat,
    /// Whether it is one configuration, or each source by itself.
    pub merged: bool,
    /// Whether each value is printed with where it was set.
    pub origins: bool,
    /// Whether tokens are printed as they are.
    pub tokens: bool,
}

/// What `target` prints.
#[derive(Debug, Drop)]
pub struct Targets<'a> {
    /// The targets; none for those of the configuration.
    pub triples: Vec<&'a str>,
    /// Whether the settings of build scripts and procedural macros are printed instead.
    pub build_scripts: bool,
    /// The rules by which their settings are found.
    pub rules: Rules,
    /// How their settings are printed.
    pub format: TargetFormat,
}

/// What `lint` prints.
#[derive(Debug, Drop)]
pub struct Lint<'a> {
    /// Directories and files; none for the current directory.
    pub paths: Vec<&'a str>,
    /// The level of findings from which on the status is 1.
    pub deny: Level,
    /// How findings are printed.
    pub format: LintFormat,
    /// The lints that aren't reported.
    pub allowed: Vec<&'a str>,
    /// The targets for which `cfg(..)` tables are compared.
    pub targets: Vec<&'a str>,
    /// Whether it is reported where cargo-config2 0.1.45 and Cargo differ.
    pub compares: bool,
}

/// A command with its options.
#[derive(Debug, Drop)]
pub enum Command<'a> {
    /// `get`
    Get(Get<'a>),
    /// `target`
    Target(Targets<'a>),
    /// `rustc`, by these rules
    Rustc(Rules),
    /// `host`, by these rules
    Host(Rules),
    /// `version`
    Version,
    /// `lint`
    Lint(Lint<'a>),
}

/// The command of this name.
pub(crate) fn verb_named(word: &str) -> Option<Verb>
    ensures { result ≡ spec.verb_named word.now }
{
    match word {
        "get" => Some(Verb::Get),
        "target" => Some(Verb::Target),
        "rustc" => Some(Verb::Rustc),
        "host" => Some(Verb::Host),
        "version" => Some(Verb::Version),
        "lint" => Some(Verb::Lint),
        _ => None,
    }
}

/// A command with these operands and the options of these parts.
///
/// # Errors
/// `Fault::UnfitFlag` and `Fault::UnfitSetting` where the command doesn't have an option; `Fault::Twice`, `Fault::BadValue`,
/// `Fault::Conflict`, `Fault::Unexpected`; `Fault::Memory` where memory ran out.
pub(crate) fn command_of<'a>(
    alloc: Global,
    verb: Verb,
    operands: &[&'a str],
    parts: &[Part<'a>],
) -> Result<Command<'a>, Fault<'a>>
    ensures ok { IfOk result (λ command.
        spec.command_of verb (map (λ o. o.now) operands.now) (map part_view parts.now)
        ≡ Ok (command_view command)) }
    ensures wrong { IfErr result (λ fault. IsFaultOf fault
        (spec.command_of verb (map (λ o. o.now) operands.now) (map part_view parts.now))) }
{
    expect_fit(verb, parts)?;
    match verb {
        Verb::Get => Ok(Command::Get(get_of(alloc, operands, parts)?)),
        Verb::Target => Ok(Command::Target(targets_of(alloc, operands, parts)?)),
        Verb::Rustc => bare(
            Command::Rustc(rules_of(alloc, parts, Rules::Cargo)?),
            operands,
        ),
        Verb::Host => bare(
            Command::Host(rules_of(alloc, parts, Rules::Cargo)?),
            operands,
        ),
        Verb::Version => bare(Command::Version, operands),
        Verb::Lint => Ok(Command::Lint(lint_of(alloc, operands, parts)?)),
    }
}

// Nothing, where a command has all these options.
fn expect_fit<'a>(verb: Verb, parts: &[Part<'a>]) -> Result<(), Fault<'a>>
    ensures ok { OnOk result (spec.first_unfit verb (map part_view parts.now) ≡ None) }
    ensures wrong { IfErr result (λ fault.
        spec.unfit_of (spec.first_unfit verb (map part_view parts.now)) ≡ Some (fault_view fault)) }
{
    let mut rest = parts;
    while let [part, behind @ ..] = rest {
        if !is_fit(verb, part) {
            return Err(unfit(part));
        }
        rest = behind;
    }
    Ok(())
}

fn is_fit(verb: Verb, part: &Part<'_>) -> bool
    ensures { result ≡ spec.is_fit verb (part_view part.now) }
{
    match *part {
        Part::Flag(flag) => is_fit_flag(verb, flag),
        Part::Setting(setting, _) => is_fit_setting(verb, setting),
        Part::Operand(_) => true,
    }
}

fn is_fit_flag(verb: Verb, flag: Flag) -> bool
    ensures { result ≡ spec.is_fit_flag verb flag }
{
    match flag {
        Flag::Help | Flag::Version | Flag::Quiet | Flag::NoPrograms => true,
        Flag::ShowOrigin | Flag::Files | Flag::Resolved | Flag::Tokens => {
            matches!(verb, Verb::Get)
        }
        Flag::BuildScripts => matches!(verb, Verb::Target),
        Flag::Compare => matches!(verb, Verb::Lint),
    }
}

fn is_fit_setting(verb: Verb, setting: Setting) -> bool
    ensures { result ≡ spec.is_fit_setting verb setting }
{
    match setting {
        Setting::Directory | Setting::Color => true,
        Setting::Config => !matches!(verb, Verb::Lint),
        Setting::Format => matches!(verb, Verb::Get | Verb::Target | Verb::Lint),
        Setting::Merged => matches!(verb, Verb::Get),
        Setting::Rules => matches!(verb, Verb::Get | Verb::Target | Verb::Rustc | Verb::Host),
        Setting::Deny | Setting::Allow | Setting::Target => matches!(verb, Verb::Lint),
    }
}

// Why a part doesn't fit.
fn unfit<'a>(part: &Part<'a>) -> Fault<'a>
    ensures { fault_view result ≡ spec.unfit (part_view part.now) }
{
    match *part {
        Part::Flag(flag) => Fault::UnfitFlag(flag),
        Part::Setting(setting, _) => Fault::UnfitSetting(setting),
        Part::Operand(word) => Fault::Unexpected(word),
    }
}

// A command without operands.
fn bare<'a>(command: Command<'a>, operands: &[&'a str]) -> Result<Command<'a>, Fault<'a>>
    ensures ok { IfOk result (λ same.
        spec.bare (command_view command.entry) (map (λ o. o.now) operands.now)
        ≡ Ok (command_view same)) }
    ensures wrong { IfErr result (λ fault.
        spec.bare (command_view command.entry) (map (λ o. o.now) operands.now)
        ≡ Err (fault_view fault)) }
{
    match operands {
        [] => Ok(command),
        [word, ..] => Err(Fault::Unexpected(*word)),
    }
}

// The key of `get`: its one operand, if it has one.
fn key_of<'a>(operands: &[&'a str]) -> Result<Option<&'a str>, Fault<'a>>
    ensures ok { IfOk result (λ key.
        spec.key_of (map (λ o. o.now) operands.now) ≡ Ok (option_map (λ k. k.now) key)) }
    ensures wrong { IfErr result (λ fault.
        spec.key_of (map (λ o. o.now) operands.now) ≡ Err (fault_view fault)) }
{
    match operands {
        [] => Ok(None),
        [key] => Ok(Some(*key)),
        [_, word, ..] => Err(Fault::Unexpected(*word)),
    }
}

// The command `get` with these operands and options.
fn get_of<'a>(alloc: Global, operands: &[&'a str], parts: &[Part<'a>]) -> Result<Get<'a>, Fault<'a>>
    ensures ok { IfOk result (λ get.
        spec.get_of (map (λ o. o.now) operands.now) (map part_view parts.now) ≡ Ok (get_view get)) }
    ensures wrong { IfErr result (λ fault. IsFaultOf fault
        (spec.get_of (map (λ o. o.now) operands.now) (map part_view parts.now))) }
{
    let key = key_of(operands)?;
    let stage = stage_of(parts)?;
    let format = chosen(alloc, parts, Setting::Format, ValueFormat::Toml)?;
    let merged = chosen(alloc, parts, Setting::Merged, true)?;
    let get = Get {
        key,
        stage,
        rules: rules_of(alloc, parts, rules_of_get(stage, merged))?,
        format,
        merged,
        origins: has_flag(parts, Flag::ShowOrigin),
        tokens: has_flag(parts, Flag::Tokens),
    };
    expect_agreement(&get)?;
    expect_rules(&get)?;
    expect_files_alone(alloc, &get, parts)?;
    Ok(get)
}

// Which configuration is printed.
fn stage_of<'a>(parts: &[Part<'a>]) -> Result<Stage, Fault<'a>>
    ensures ok { IfOk result (λ stage. spec.stage_of (map part_view parts.now) ≡ Ok stage) }
    ensures wrong { IfErr result (λ fault.
        spec.stage_of (map part_view parts.now) ≡ Err (fault_view fault)) }
{
    match (
        has_flag(parts, Flag::Files),
        has_flag(parts, Flag::Resolved),
    ) {
        (false, false) => Ok(Stage::Environment),
        (true, false) => Ok(Stage::Files),
        (false, true) => Ok(Stage::Resolved),
        (true, true) => Err(Fault::Conflict("--files", "--resolved")),
    }
}

// The command `target` with these operands and options.
fn targets_of<'a>(
    alloc: Global,
    operands: &[&'a str],
    parts: &[Part<'a>],
) -> Result<Targets<'a>, Fault<'a>>
    ensures ok { IfOk result (λ targets.
        spec.targets_of (map (λ o. o.now) operands.now) (map part_view parts.now)
        ≡ Ok (targets_view targets)) }
    ensures wrong { IfErr result (λ fault. IsFaultOf fault
        (spec.targets_of (map (λ o. o.now) operands.now) (map part_view parts.now))) }
{
    let targets = Targets {
        triples: Vec::from_slice(alloc, operands)?,
        build_scripts: has_flag(parts, Flag::BuildScripts),
        rules: rules_of(alloc, parts, Rules::Cargo)?,
        format: chosen(alloc, parts, Setting::Format, TargetFormat::Toml)?,
    };
    expect_rules_of_cargo(&targets)?;
    Ok(targets)
}

// The rules by which a command answers; the default where none are given.
fn rules_of<'a>(alloc: Global, parts: &[Part<'a>], default: Rules) -> Result<Rules, Fault<'a>>
    ensures ok { IfOk result (λ rules.
        spec.rules_of default (map part_view parts.now) ≡ Ok rules) }
    ensures wrong { IfErr result (λ fault. IsFaultOf fault
        (spec.rules_of default (map part_view parts.now))) }
{
    chosen(alloc, parts, Setting::Rules, default)
}

// The rules of `get` where none are given: Cargo's, but the crate's for what is resolved and for what isn't merged.
fn rules_of_get(stage: Stage, merged: bool) -> Rules
    ensures { result ≡ spec.rules_of_get stage merged }
{
    if !merged || matches!(stage, Stage::Resolved) {
        Rules::Crate
    } else {
        Rules::Cargo
    }
}

// The command `lint` with these operands and options.
fn lint_of<'a>(
    alloc: Global,
    operands: &[&'a str],
    parts: &[Part<'a>],
) -> Result<Lint<'a>, Fault<'a>>
    ensures ok { IfOk result (λ lint.
        spec.lint_of (map (λ o. o.now) operands.now) (map part_view parts.now)
        ≡ Ok (lint_view lint)) }
    ensures wrong { IfErr result (λ fault. IsFaultOf fault
        (spec.lint_of (map (λ o. o.now) operands.now) (map part_view parts.now))) }
{
    Ok(Lint {
        deny: chosen(alloc, parts, Setting::Deny, Level::Error)?,
        format: chosen(alloc, parts, Setting::Format, LintFormat::Text)?,
        paths: Vec::from_slice(alloc, operands)?,
        allowed: values(alloc, parts, Setting::Allow)?,
        targets: values(alloc, parts, Setting::Target)?,
        compares: has_flag(parts, Flag::Compare),
    })
}

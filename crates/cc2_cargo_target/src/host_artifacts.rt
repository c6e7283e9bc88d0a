//! What build scripts and procedural macros get.
ghost use Rattle.std.specs.Prelude.{◌≡◌, Err, IfOk, map};
ghost use Rattle.cc2_error.specs.Causes.{Refusal};
ghost use Rattle.cc2_error.specs.Commands.{command_of};
ghost use Rattle.cc2_error.specs.Outcomes.{Gives};
ghost use Rattle.cc2_base.specs.Told.{Keeps, WhereTold};
ghost use Rattle.cc2_cargo.specs.Raw.{raw_members_at};
ghost use Rattle.cc2_cargo_settings.specs.Shown.{list_view};
ghost use Rattle.cc2_resolved.specs.TargetConfigs.{shown};
ghost use Rattle.cc2_cargo_target.specs.Outcomes.{GivesOne};
ghost use Rattle.cc2_cargo_target.specs.HostArtifacts.{AreHostArtifacts, AreSettings, IsBare, MatchWithoutFlags, are_given, artifacts_view, linker_alone, targets_given, without_runner};

use crate::build_targets::{all_requested, build_target, texts_or};
use crate::settle::{Settled, have_cfg, matching_with};
use crate::target::{checked_keys, finished, target_by_cargo};
use cc2_base::programs::Programs;
use cc2_cargo_settings::{List, Sources};
use cc2_error::error::Result;
use cc2_error::path_and_args::PathAndArgs;
use cc2_resolved::flags::Flags;
use cc2_resolved::target_config::TargetConfig;
use cc2_rustc::host_of_rustc;
use std::alloc::Global;

/// What Cargo uses for host artifacts, which are build scripts and procedural macros.
#[derive(Drop)]
pub struct HostArtifacts {
    /// The triple of the host.
    pub host: String,
    /// Their linker and flags. They have no runner.
    pub settings: TargetConfig,
}

/// What Cargo 1.95 uses for host artifacts in a directory, where these targets are asked for, as by `--target`. Without any and
/// without `build.target` they get the linker and the flags of the host; else its linker and no flags, whatever is set (Cargo
/// Reference, Configuration,
/// [`build.rustflags`](https://doc.rust-lang.org/cargo/reference/config.html#buildrustflags)). rustc is run for the host; where
/// some key begins with `cfg(`, once more, and without targets a third time if the flags of matching keys change its flags. A
/// directory is absolute.
///
/// # Errors
/// - `ErrorKind::ParseFile` with the path `build.target` where neither a text nor an array of texts is there, whether it counts
///   or not; and where a target is empty or ends with `.json`;
/// - `ErrorKind::NotRun`, `ProgramFailed`, `OutputNotText` and `VersionOutput` by rustc's answer;
/// - those of `target_by_cargo` for the host: two keys that match with a runner are refused too.
///
/// # Example
/// ```ignore
/// let artifacts = host_artifacts_by_cargo(alloc, sources, "/p", &rustc, &["host-tuple"], &mut programs)?;
/// ```
pub fn host_artifacts_by_cargo<P: Programs>(
    alloc: Global,
    sources: Sources<'_>,
    dir: &str,
    rustc: &PathAndArgs,
    texts: &[&str],
    programs: &mut P,
) -> Result<HostArtifacts>
    ensures target { WhereTold (P.told programs.old) (λ answers. GivesOne artifacts_view result
        (AreHostArtifacts sources.entry.settings.now sources.entry.machine.now dir.now
        (command_of rustc.now) answers (map (λ text. text.now) texts.now))) }
    ensures exact { WhereTold (P.told programs.old) (λ answers. IfOk result (λ _.
        (refusal : Refusal) → ¬ (AreHostArtifacts sources.entry.settings.now
        sources.entry.machine.now dir.now (command_of rustc.now) answers
        (map (λ text. text.now) texts.now) (Err refusal)))) }
    ensures same { Keeps (P.told programs.old) (P.told programs.new) }
{
    let given = targets_given(alloc, sources, texts)?;
    let host = host_of_rustc(alloc, rustc, programs)?;
    let settings = settings_for(alloc, sources, dir, rustc, given, host.as_str(), programs)?;
    Ok(HostArtifacts { host, settings })
}

// Whether targets are given, where each can be built for.
fn targets_given(alloc: Global, sources: Sources<'_>, texts: &[&str]) -> Result<bool>
    ensures { Gives (λ given. given) result
        (targets_given (raw_members_at sources.entry.settings.now) sources.entry.machine.now
        (map (λ text. text.now) texts.now)) }
{
    let set = build_target(alloc, sources)?;
    let given = are_given(texts, &set);
    let texts = texts_or(alloc, texts, set)?;
    all_requested(alloc, texts.as_slice())?;
    Ok(given)
}

// Whether targets are given, by these texts or by `build.target`.
fn are_given(texts: &[&str], set: &Option<List>) -> bool
    ensures { result ≡ are_given (map (λ text. text.now) texts.now) (list_view set.now) }
{
    match texts {
        [] => set.is_some(),
        [_, ..] => true,
    }
}

// Their settings for this host.
fn settings_for<P: Programs>(
    alloc: Global,
    sources: Sources<'_>,
    dir: &str,
    rustc: &PathAndArgs,
    given: bool,
    host: &str,
    programs: &mut P,
) -> Result<TargetConfig>
    ensures settings { WhereTold (P.told programs.old) (λ answers. GivesOne shown result
        (AreSettings sources.entry.settings.now sources.entry.machine.now dir.now
        (command_of rustc.now) answers given host.now)) }
    ensures same { Keeps (P.told programs.old) (P.told programs.new) }
{
    if given {
        let target = bare(alloc, sources, dir, rustc, host, programs)?;
        Ok(linker_alone(target))
    } else {
        let target = target_by_cargo(alloc, sources, dir, rustc, host, programs)?;
        Ok(without_runner(target))
    }
}

// What the host has without flags for rustc.
fn bare<P: Programs>(
    alloc: Global,
    sources: Sources<'_>,
    dir: &str,
    rustc: &PathAndArgs,
    host: &str,
    programs: &mut P,
) -> Result<TargetConfig>
    ensures target { WhereTold (P.told programs.old) (λ answers. GivesOne shown result
        (IsBare sources.entry.settings.now sources.entry.machine.now dir.now
        (command_of rustc.now) answers host.now)) }
    ensures same { Keeps (P.told programs.old) (P.told programs.new) }
{
    let keys = checked_keys(alloc, sources)?;
    let matching = matching_bare(alloc, rustc, host, keys.as_slice(), programs)?;
    let flags = Flags::empty(alloc);
    finished(alloc, sources, dir, host, Settled { flags, matching })
}

// Those of the keys that match by what rustc prints without flags.
fn matching_bare<'a, P: Programs>(
    alloc: Global,
    rustc: &PathAndArgs,
    host: &str,
    keys: &[&'a str],
    programs: &mut P,
) -> Result<Vec<&'a str>>
    ensures matches { WhereTold (P.told programs.old) (λ answers.
        GivesOne (λ found. map (λ k. k.now) found.items) result
        (MatchWithoutFlags (command_of rustc.now) answers host.now
        (map (λ k. k.now) keys.now))) }
    ensures same { Keeps (P.told programs.old) (P.told programs.new) }
{
    if !have_cfg(keys) {
        return Ok(Vec::new(alloc));
    }
    let flags = Flags::empty(alloc);
    matching_with(alloc, rustc, host, &flags, keys, programs)
}

fn linker_alone(target: TargetConfig) -> TargetConfig
    ensures { shown result ≡ linker_alone (shown target) }
{
    TargetConfig {
        linker: target.linker,
        runner: None,
        rustflags: None,
        rustdocflags: None,
    }
}

fn without_runner(target: TargetConfig) -> TargetConfig
    ensures { shown result ≡ without_runner (shown target) }
{
    TargetConfig {
        linker: target.linker,
        runner: None,
        rustflags: target.rustflags,
        rustdocflags: target.rustdocflags,
    }
}

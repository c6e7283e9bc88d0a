//! The targets of a build, as its command line has them (Cargo Reference,
//! [`build.target`](https://doc.rust-lang.org/cargo/reference/config.html#buildtarget)).
ghost use Rattle.std.specs.Prelude.{◌≡◌, ◌≤◌, ◌+◌, true, false, Ok, Some, IfOk, IfErr, OnOk, IsSome, map, option_map};
ghost use Rattle.std.specs.Option.{option_copied};
ghost use Rattle.cc2_base.specs.Told.{Keeps};
ghost use Rattle.cc2_error.specs.Outcomes.{Gives, IsWantOfMemory};
ghost use Rattle.cc2_rustc.specs.AskedVersions.{host_said};
ghost use Rattle.cc2_resolved.specs.Texts.{texts_of, lent_texts};
ghost use Rattle.cc2_resolved.specs.Targets.{command_text};
ghost use Rattle.cc2_resolved.specs.ShownTargets.{target_at};
ghost use Rattle.cargo_config2.specs.BuildTarget.{targets_for_cli, targets_shown, targets_set, is_given};
ghost use Rattle.cargo_config2.specs.BuildTarget.{targets_for_config, target_alone};
ghost use Rattle.cargo_config2.specs.Config.{tables_of};
ghost use Rattle.cc2_rustc.specs.Kept.{WhereBothTold};
ghost use Rattle.cargo_config2.specs.Kept.{asked_by, Agrees, KeepsFinds, host_of};

use crate::config::Config;
use cc2_base::files::Files;
use cc2_base::programs::Programs;
use cc2_error::error::Result;
use cc2_resolved::string_list::StringList;
use cc2_resolved::target_triple::{TargetTriple, TargetTripleRef};
use std::alloc::Global;

impl Config {
    /// The targets as Cargo's command line has them: the given ones, where there is one; else those of
    /// `build.target`, a spec path as it was resolved; else none (Cargo Reference, Configuration,
    /// [`build.target`](https://doc.rust-lang.org/cargo/reference/config.html#buildtarget)).
    ///
    /// # Errors
    /// `ErrorKind::Memory` where memory ran out.
    pub fn build_target_for_cli(&self, alloc: Global, given: &[&str]) -> Result<Vec<String>>
        ensures texts { IfOk result (λ texts. texts_of texts.items
            ≡ targets_for_cli (lent_texts given.now) (targets_shown self.now.build.target)) }
        ensures refused { IfErr result IsWantOfMemory }
    {
        build_target_for_cli(alloc, self.build.target.as_ref(), given)
    }

    /// The targets whose settings a build goes by: copies of the given ones, where there is one; else
    /// those of `build.target`, where there is one; else the host, which is kept. Without given and
    /// configured targets and where the host isn't known two programs are run at most, else none (Cargo
    /// Reference, Configuration,
    /// [`build.target`](https://doc.rust-lang.org/cargo/reference/config.html#buildtarget)).
    ///
    /// # Errors
    /// Those of `find_host`, and `ErrorKind::SpecName` where the host's text is a spec path without file
    /// name; with given or configured targets `ErrorKind::Memory` alone. What was found before a refusal
    /// stays.
    pub fn build_target_for_config<F: Files, P: Programs>(
        &mut self,
        alloc: Global,
        given: &[TargetTripleRef<'_>],
        files: &F,
        programs: &mut P,
    ) -> Result<Vec<TargetTriple>>
        ensures agrees { WhereBothTold (F.told files.now) (P.told programs.old) (λ fs answers.
            Agrees fs answers self.old → Agrees fs answers self.new) }
        ensures keeps { KeepsFinds self.old self.new }
        ensures answer { WhereBothTold (F.told files.now) (P.told programs.old) (λ fs answers.
            Agrees fs answers self.old → Gives (λ targets. map target_at targets.items) result
            (targets_for_config (map target_at given.now) (targets_shown self.old.build.target)
            (host_said (asked_by fs self.old) answers))) }
        ensures tables { tables_of self.new ≡ tables_of self.old }
        ensures loaded { self.new.loaded ≡ self.old.loaded }
        ensures targets { self.new.target ≡ self.old.target }
        ensures same { Keeps (P.told programs.old) (P.told programs.new) }
        ensures few { P.runs programs.new ≤ P.runs programs.old + 2 }
        ensures none { is_given (map target_at given.now) (targets_shown self.old.build.target)
            ≡ true
            → P.runs programs.new ≡ P.runs programs.old }
        ensures none_known { IsSome (host_of self.old) → P.runs programs.new ≡ P.runs programs.old }
        ensures kept { is_given (map target_at given.now) (targets_shown self.old.build.target)
            ≡ false
            → OnOk result (IsSome (host_of self.new)) }
        ensures kept_as { is_given (map target_at given.now) (targets_shown self.old.build.target)
            ≡ false
            → IfOk result (λ targets.
            option_map target_alone (host_of self.new) ≡ Some (Ok (map target_at targets.items))) }
    {
        let targets = self.targets_set(alloc, given)?;
        if !targets.is_empty() {
            return Ok(targets);
        }
        self.find_host(alloc, files, programs)?;
        match self.known_host() {
            Some(host) => alone(alloc, host),
            None => unreachable!(),
        }
    }

    // Copies of the given targets, where there is one, else of those of `build.target`.
    fn targets_set(&self, alloc: Global, given: &[TargetTripleRef<'_>]) -> Result<Vec<TargetTriple>>
        ensures targets { IfOk result (λ targets. map target_at targets.items
            ≡ targets_set (map target_at given.now) (targets_shown self.now.build.target)) }
        ensures refused { IfErr result IsWantOfMemory }
    {
        match &self.build.target {
            Some(targets) if given.is_empty() => copied_targets(alloc, targets.as_slice()),
            _ => copied_targets(alloc, given),
        }
    }
}

/// The texts that were given, where there is one; else those of `build.target` as Cargo takes them;
/// else none.
///
/// # Errors
/// `ErrorKind::Memory` where memory ran out.
pub(crate) fn build_target_for_cli(
    alloc: Global,
    configured: Option<&Vec<TargetTriple>>,
    given: &[&str],
) -> Result<Vec<String>>
    ensures texts { IfOk result (λ texts. texts_of texts.items
        ≡ targets_for_cli (lent_texts given.now) (targets_shown (option_copied configured.entry))) }
    ensures refused { IfErr result IsWantOfMemory }
{
    match configured {
        Some(targets) if given.is_empty() => command_texts(alloc, targets.as_slice()),
        _ => Ok(StringList::from_strs(alloc, given)?.list),
    }
}

// The texts of targets as Cargo takes them.
fn command_texts(alloc: Global, targets: &[TargetTriple]) -> Result<Vec<String>>
    ensures texts { IfOk result (λ texts.
        texts_of texts.items ≡ map command_text (map target_at targets.now)) }
    ensures refused { IfErr result IsWantOfMemory }
{
    let mut texts = Vec::new(alloc);
    for target in targets {
        texts.push(String::from_str(alloc, target.as_command_text())?)?;
    }
    Ok(texts)
}

// Copies of targets, each with a text of its own.
fn copied_targets(alloc: Global, targets: &[TargetTripleRef<'_>]) -> Result<Vec<TargetTriple>>
    ensures targets { IfOk result (λ copies.
        map target_at copies.items ≡ map target_at targets.now) }
    ensures refused { IfErr result IsWantOfMemory }
{
    let mut copies = Vec::new(alloc);
    for target in targets {
        copies.push(target.by_ref().into_owned(alloc)?)?;
    }
    Ok(copies)
}

// The target of a text, as a list of one.
fn alone(alloc: Global, text: &str) -> Result<Vec<TargetTriple>>
    ensures { Gives (λ targets. map target_at targets.items) result (target_alone text.now) }
{
    let target = TargetTripleRef::from_string(String::from_str(alloc, text)?)?;
    let mut targets = Vec::new(alloc);
    targets.push(target)?;
    Ok(targets)
}

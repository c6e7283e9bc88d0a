//! The host, and the versions of rustc and cargo.
ghost use Rattle.std.specs.Prelude.{◌≡◌, ◌≤◌, ◌+◌, IfOk, IfErr, IsOk, IsSome, OnOk, Some, option_map, string_bytes};
ghost use Rattle.std.specs.Borrow.{sem};
ghost use Rattle.std.specs.Option.{option_copied};
ghost use Rattle.cc2_base.specs.Told.{Keeps};
ghost use Rattle.cc2_error.specs.Outcomes.{Gives, IsRefusal};
ghost use Rattle.cc2_rustc.specs.AskedVersions.{host_said, known_host, rustc_version_said, cargo_version_said};
ghost use Rattle.cc2_rustc.specs.Shown.{of_rustc, of_cargo};
ghost use Rattle.cargo_config2.specs.Config.{tables_of};
ghost use Rattle.cc2_rustc.specs.Kept.{WhereBothTold};
ghost use Rattle.cargo_config2.specs.Kept.{asked_by, Agrees, KeepsFinds, host_of};
ghost use Rattle.cargo_config2.specs.Lent.{AfterHost, LeavesHost, lent_host};

use crate::config::Config;
use crate::lent::HostRef;
use cc2_base::files::Files;
use cc2_base::programs::Programs;
use cc2_error::error::Result;
use cc2_rustc::{
    Asked, CargoVersion, Commands, RustcVersion, Versions, find_cargo_version, find_host,
    find_rustc_version,
};
use std::alloc::Global;
use std::mem::replace;

impl Config {
    /// The triple of the host: the one that `ResolveOptions::host_triple` chose; else that which
    /// `cargo -vV` prints, where it answers with a version and a host; else that of `rustc -vV`. The
    /// first answer is kept.
    ///
    /// The answer holds the configuration; its text is `config.host_triple(alloc, files, programs)?.as_str()`.
    /// Where the host was chosen or is kept no program is run, else two at most.
    ///
    /// # Errors
    /// Those of `find_host`. What was found before a refusal stays.
    pub fn host_triple<F: Files, P: Programs>(
        &mut self,
        alloc: Global,
        files: &F,
        programs: &mut P,
    ) -> Result<HostRef<'_>>
        ensures* after { sem 𝓛
            (AfterHost (F.told files.now) (P.told programs.old) self.entry result) }
        ensures same_reference { IfOk result (λ lent.
            lent.config.ghost_name ≡ self.entry.ghost_name) }
        ensures leaves { IfOk result (λ lent.
            LeavesHost (F.told files.now) (P.told programs.old) self.old lent.config.now) }
        ensures answer { WhereBothTold (F.told files.now) (P.told programs.old) (λ fs answers.
            Agrees fs answers self.old
            → Gives lent_host result (host_said (asked_by fs self.old) answers)) }
        ensures same { Keeps (P.told programs.old) (P.told programs.new) }
        ensures few { P.runs programs.new ≤ P.runs programs.old + 2 }
        ensures none { IsSome (host_of self.old) → (P.runs programs.new ≡ P.runs programs.old)
            × IsOk result }
    {
        self.find_host(alloc, files, programs)?;
        Ok(HostRef::new(self))
    }

    /// The triple of the host, where it was chosen or is kept.
    pub fn known_host(&self) -> Option<&str>
        ensures { option_copied result ≡ known_host
            (option_map string_bytes self.now.loaded.context.host_triple) self.now.kept.versions }
    {
        match self.loaded.context.host_triple() {
            Some(host) => Some(host),
            None => match &self.kept.versions.host {
                Some(host) => Some(host.as_str()),
                None => None,
            },
        }
    }

    /// Finds the triple of the host, as `host_triple` answers it, and keeps it, with the versions that
    /// are learned on the way. What is kept stays, and then no program is run; without it two at most.
    ///
    /// # Errors
    /// Those of rustc's answer, where cargo's has no host: `ErrorKind::NotRun` where rustc can't be
    /// started, `ProgramFailed` where it ends otherwise than with the status 0, `OutputNotText` where
    /// its output is not UTF-8, `VersionOutput` where that has no version or no host.
    /// `ErrorKind::Memory` where memory ran out. What was found before a refusal stays.
    pub fn find_host<F: Files, P: Programs>(
        &mut self,
        alloc: Global,
        files: &F,
        programs: &mut P,
    ) -> Result<()>
        ensures agrees { WhereBothTold (F.told files.now) (P.told programs.old) (λ fs answers.
            Agrees fs answers self.old → Agrees fs answers self.new) }
        ensures keeps { KeepsFinds self.old self.new }
        ensures found { OnOk result (IsSome (known_host
            (option_map string_bytes self.new.loaded.context.host_triple) self.new.kept.versions)) }
        ensures refused { WhereBothTold (F.told files.now) (P.told programs.old) (λ fs answers.
            IfErr result (IsRefusal (host_said (asked_by fs self.old) answers))) }
        ensures tables { tables_of self.new ≡ tables_of self.old }
        ensures loaded { self.new.loaded ≡ self.old.loaded }
        ensures targets { self.new.target ≡ self.old.target }
        ensures same { Keeps (P.told programs.old) (P.told programs.new) }
        ensures few { P.runs programs.new ≤ P.runs programs.old + 2 }
        ensures none { IsSome (known_host
            (option_map string_bytes self.old.loaded.context.host_triple) self.old.kept.versions)
            → (P.runs programs.new ≡ P.runs programs.old) × IsOk result }
    {
        if self.known_host().is_some() {
            return Ok(());
        }
        let Commands {
            cargo,
            rustc,
            is_stable,
        } = self.commands(alloc, files)?;
        let mut versions = replace(&mut self.kept.versions, Versions::default());
        let asked = Asked {
            host: self.loaded.context.host_triple(),
            cargo: &cargo,
            rustc: &rustc,
            is_stable,
        };
        let found = find_host(alloc, &asked, programs, &mut versions);
        self.kept.versions = versions;
        found
    }

    /// The version of rustc, as `rustc -vV` prints it, run without the workspace wrapper (rustc's
    /// book, Command-line arguments,
    /// [`--version`](https://doc.rust-lang.org/rustc/command-line-arguments.html#option-version)).
    /// The host is asked for first, whose answers may have the version; why that is refused is
    /// passed over. The first version that is printed is kept, and then no program is run; without it
    /// three at most.
    ///
    /// # Errors
    /// Those of rustc's own answer alone: `ErrorKind::NotRun` where it can't be started,
    /// `ProgramFailed` where it ends otherwise than with the status 0, `OutputNotText` where its output
    /// is not UTF-8, `VersionOutput` where that has no version. `ErrorKind::Memory` where memory ran
    /// out. What was found before a refusal stays.
    pub fn rustc_version<F: Files, P: Programs>(
        &mut self,
        alloc: Global,
        files: &F,
        programs: &mut P,
    ) -> Result<RustcVersion>
        ensures agrees { WhereBothTold (F.told files.now) (P.told programs.old) (λ fs answers.
            Agrees fs answers self.old → Agrees fs answers self.new) }
        ensures keeps { KeepsFinds self.old self.new }
        ensures kept { IfOk result (λ version. self.new.kept.versions.rustc ≡ Some version) }
        ensures answer { WhereBothTold (F.told files.now) (P.told programs.old) (λ fs answers.
            Agrees fs answers self.old
            → Gives of_rustc result (rustc_version_said (asked_by fs self.old) answers)) }
        ensures tables { tables_of self.new ≡ tables_of self.old }
        ensures loaded { self.new.loaded ≡ self.old.loaded }
        ensures targets { self.new.target ≡ self.old.target }
        ensures same { Keeps (P.told programs.old) (P.told programs.new) }
        ensures few { P.runs programs.new ≤ P.runs programs.old + 3 }
        ensures none { IsSome self.old.kept.versions.rustc
            → (P.runs programs.new ≡ P.runs programs.old) × IsOk result }
    {
        if let Some(version) = self.kept.versions.rustc {
            return Ok(version);
        }
        let Commands {
            cargo,
            rustc,
            is_stable,
        } = self.commands(alloc, files)?;
        let mut versions = replace(&mut self.kept.versions, Versions::default());
        let asked = Asked {
            host: self.loaded.context.host_triple(),
            cargo: &cargo,
            rustc: &rustc,
            is_stable,
        };
        let found = find_rustc_version(alloc, &asked, programs, &mut versions);
        self.kept.versions = versions;
        found?;
        match self.kept.versions.rustc {
            Some(version) => Ok(version),
            None => unreachable!(),
        }
    }

    /// The version of cargo, as `cargo -vV` prints it (Cargo Book,
    /// [cargo version](https://doc.rust-lang.org/cargo/commands/cargo-version.html)). The host is
    /// asked for first, whose answers may have the version; why that is refused is passed over. The
    /// first version that is printed is kept, and then no program is run; without it three at most.
    ///
    /// # Errors
    /// Those of cargo's own answer alone: `ErrorKind::NotRun` where it can't be started,
    /// `ProgramFailed` where it ends otherwise than with the status 0, `OutputNotText` where its output
    /// is not UTF-8, `VersionOutput` where that has no version of three numbers. `ErrorKind::Memory`
    /// where memory ran out. What was found before a refusal stays.
    pub fn cargo_version<F: Files, P: Programs>(
        &mut self,
        alloc: Global,
        files: &F,
        programs: &mut P,
    ) -> Result<CargoVersion>
        ensures agrees { WhereBothTold (F.told files.now) (P.told programs.old) (λ fs answers.
            Agrees fs answers self.old → Agrees fs answers self.new) }
        ensures keeps { KeepsFinds self.old self.new }
        ensures kept { IfOk result (λ version. self.new.kept.versions.cargo ≡ Some version) }
        ensures answer { WhereBothTold (F.told files.now) (P.told programs.old) (λ fs answers.
            Agrees fs answers self.old
            → Gives of_cargo result (cargo_version_said (asked_by fs self.old) answers)) }
        ensures tables { tables_of self.new ≡ tables_of self.old }
        ensures loaded { self.new.loaded ≡ self.old.loaded }
        ensures targets { self.new.target ≡ self.old.target }
        ensures same { Keeps (P.told programs.old) (P.told programs.new) }
        ensures few { P.runs programs.new ≤ P.runs programs.old + 3 }
        ensures none { IsSome self.old.kept.versions.cargo
            → (P.runs programs.new ≡ P.runs programs.old) × IsOk result }
    {
        if let Some(version) = self.kept.versions.cargo {
            return Ok(version);
        }
        let Commands {
            cargo,
            rustc,
            is_stable,
        } = self.commands(alloc, files)?;
        let mut versions = replace(&mut self.kept.versions, Versions::default());
        let asked = Asked {
            host: self.loaded.context.host_triple(),
            cargo: &cargo,
            rustc: &rustc,
            is_stable,
        };
        let found = find_cargo_version(alloc, &asked, programs, &mut versions);
        self.kept.versions = versions;
        found?;
        match self.kept.versions.cargo {
            Some(version) => Ok(version),
            None => unreachable!(),
        }
    }
}

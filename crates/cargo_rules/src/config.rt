//! A directory's configuration by Cargo's own rules.
ghost use Rattle.std.specs.Prelude.{◌≡◌, ℕ, List, false, map, string_bytes};
ghost use Rattle.cc2_error.specs.Commands.{command_of};
ghost use Rattle.cc2_error.specs.Outcomes.{Answered, Gives};
ghost use Rattle.cc2_base.specs.Homes.{cargo_home_of};
ghost use Rattle.cc2_base.specs.Told.{WhereTold};
ghost use Rattle.cc2_cargo.specs.Raw.{raw_members_at};
ghost use Rattle.cc2_cargo_settings.specs.EnvVariables.{AreNames, env_variables, variables_view};
ghost use Rattle.cc2_cargo_settings.specs.Under.{under};
ghost use Rattle.cc2_cargo_target.specs.HostArtifacts.{AreHostArtifacts, artifacts_view};
ghost use Rattle.cc2_cargo_target.specs.Outcomes.{GivesOne};
ghost use Rattle.cc2_cargo_target.specs.Target.{IsTarget};
ghost use Rattle.cc2_cargo_target.specs.Targets.{targets_of};
ghost use Rattle.cc2_rustc.specs.AskedVersions.{rustc_host};
ghost use Rattle.cc2_resolved.specs.TargetConfigs.{shown};
ghost use Rattle.cargo_rules.specs.Configs.{IsAsked, IsCargoConfig, IsReady, rustc_of};
ghost use Rattle.cargo_rules.specs.Loads.{IsCauseUnder};

use crate::launcher::Launcher;
use crate::load::load_under;
use cc2_base::files::Files;
use cc2_base::machine::Machine;
use cc2_cargo::{Raw, RealPaths};
use cc2_cargo_settings::{Sources, env_variables, under_variables};
use cc2_cargo_target::{
    HostArtifacts, WithVariables, host_artifacts_by_cargo, rustc_command, target_by_cargo,
    targets_by_cargo,
};
use cc2_error::error::Result;
use cc2_error::path_and_args::PathAndArgs;
use cc2_resolved::target_config::TargetConfig;
use cc2_rustc::host_of_rustc;
use std::alloc::Global;
use std::collections::BTreeMap;

/// What Cargo 1.95 itself has for a directory (Cargo Reference,
/// [Configuration](https://doc.rust-lang.org/cargo/reference/config.html)): what its files, those that they include and
/// overrides set, and the machine's variables. What depends on rustc's answers asks rustc each time, run with the variables of
/// `[env]`.
#[derive(Drop)]
pub struct Config {
    dir: String,
    machine: Machine,
    settings: BTreeMap<String, Raw>,
}

impl Config {
    /// The configuration of a directory, which is absolute, under overrides of the command line, the last the strongest: each is
    /// the path of a file or one dotted key with a value, as for `--config`.
    ///
    /// # Errors
    /// Those of `load_under`.
    ///
    /// # Example
    /// ```ignore
    /// let machine = Machine::current(alloc, &rt)?;
    /// let config = Config::load(alloc, "/p", &["build.jobs=2"], machine, &files, &reals)?;
    /// let target = config.target(alloc, "x86_64-unknown-linux-gnu", &HostLauncher::new(&rt))?;
    /// ```
    pub fn load<F: Files, L: RealPaths>(
        alloc: Global,
        dir: &str,
        overrides: &[&str],
        machine: Machine,
        files: &F,
        reals: &L,
    ) -> Result<Config>
        ensures { let texts = map (λ text. text.now) overrides.now in
            WhereTold (F.told files.now) (λ fs. WhereTold (L.told reals.now) (λ real_paths.
            Answered (λ config. config) result (IsCargoConfig fs real_paths machine dir.now texts)
            (IsCauseUnder fs real_paths dir.now texts (cargo_home_of dir.now machine)))) }
    {
        let settings = load_under(alloc, dir, overrides, &machine, files, reals)?;
        let dir = String::from_str(alloc, dir)?;
        Ok(Config {
            dir,
            machine,
            settings,
        })
    }

    /// What is at each key that files or overrides set; variables don't count.
    pub fn settings(&self) -> &BTreeMap<String, Raw>
        ensures { result.now ≡ self.now.settings }
    {
        &self.settings
    }

    /// What is at each key under the variables of the environment, where a key with these pieces asks for it.
    ///
    /// # Errors
    /// Those of `under_variables`.
    pub fn under_variables(self, alloc: Global, key: &[&str]) -> Result<BTreeMap<String, Raw>>
        ensures { Gives raw_members_at result
            (under self.settings self.machine (map (λ piece. piece.now) key.now)) }
    {
        under_variables(alloc, self.settings, &self.machine, key)
    }

    /// The command for rustc: the wrapper, the workspace wrapper and rustc, as many as there are.
    ///
    /// # Errors
    /// Those of `rustc_command`.
    pub fn rustc(&self, alloc: Global) -> Result<PathAndArgs>
        ensures { Gives command_of result (rustc_of self.now) }
    {
        let sources = Sources {
            settings: &self.settings,
            machine: &self.machine,
        };
        rustc_command(alloc, sources, self.dir.as_str())
    }

    /// The variables of `[env]`, by name, with which Cargo runs programs.
    ///
    /// # Errors
    /// Those of `env_variables`.
    pub fn env(&self, alloc: Global) -> Result<Vec<(String, String)>>
        ensures { let look = raw_members_at self.now.settings in
            (names : List (List ℕ)) × AreNames look names × Gives variables_view result
            (env_variables look self.now.machine (string_bytes self.now.dir) names) }
    {
        let sources = Sources {
            settings: &self.settings,
            machine: &self.machine,
        };
        env_variables(alloc, sources, self.dir.as_str())
    }

    /// The triple of the host that rustc reports.
    ///
    /// # Errors
    /// Those of `env` and `rustc`; and `ErrorKind::NotRun`, `ProgramFailed`, `OutputNotText` and `VersionOutput` by rustc's answer.
    pub fn host<S: Launcher>(&self, alloc: Global, launcher: &S) -> Result<String>
        ensures { WhereTold (S.told_with launcher.now) (λ own. GivesOne string_bytes result
            (IsAsked self.now (λ rustc answers outcome.
            outcome ≡ rustc_host false answers rustc) own)) }
    {
        let mut programs = launcher.launch(alloc)?;
        let rustc = self.ready(alloc, &mut programs)?;
        host_of_rustc(alloc, &rustc, &mut programs)
    }

    /// The triples of the targets that Cargo builds for: those of these texts, as of `--target`; without a text those of
    /// `build.target`; without any the host's.
    ///
    /// # Errors
    /// Those of `env`, `rustc` and `targets_by_cargo`.
    pub fn targets<S: Launcher>(
        &self,
        alloc: Global,
        texts: &[&str],
        launcher: &S,
    ) -> Result<Vec<String>>
        ensures { WhereTold (S.told_with launcher.now) (λ own.
            GivesOne (λ triples. map string_bytes triples.items) result
            (IsAsked self.now (λ rustc answers outcome. outcome
            ≡ targets_of (raw_members_at self.now.settings) self.now.machine rustc answers
            (map (λ text. text.now) texts.now)) own)) }
    {
        let mut programs = launcher.launch(alloc)?;
        let rustc = self.ready(alloc, &mut programs)?;
        let sources = Sources {
            settings: &self.settings,
            machine: &self.machine,
        };
        targets_by_cargo(alloc, sources, &rustc, texts, &mut programs)
    }

    /// The linker, the runner and the flags of a target.
    ///
    /// # Errors
    /// Those of `env`, `rustc` and `target_by_cargo`.
    pub fn target<S: Launcher>(
        &self,
        alloc: Global,
        triple: &str,
        launcher: &S,
    ) -> Result<TargetConfig>
        ensures { WhereTold (S.told_with launcher.now) (λ own. GivesOne shown result
            (IsAsked self.now (λ rustc answers outcome. IsTarget self.now.settings
            self.now.machine (string_bytes self.now.dir) triple.now rustc answers outcome) own)) }
    {
        let mut programs = launcher.launch(alloc)?;
        let rustc = self.ready(alloc, &mut programs)?;
        let sources = Sources {
            settings: &self.settings,
            machine: &self.machine,
        };
        target_by_cargo(
            alloc,
            sources,
            self.dir.as_str(),
            &rustc,
            triple,
            &mut programs,
        )
    }

    /// The linker and the flags of build scripts and procedural macros, where these targets are asked for, as by `--target`.
    ///
    /// # Errors
    /// Those of `env`, `rustc` and `host_artifacts_by_cargo`.
    pub fn host_artifacts<S: Launcher>(
        &self,
        alloc: Global,
        texts: &[&str],
        launcher: &S,
    ) -> Result<HostArtifacts>
        ensures { WhereTold (S.told_with launcher.now) (λ own. GivesOne artifacts_view result
            (IsAsked self.now (λ rustc answers outcome. AreHostArtifacts self.now.settings
            self.now.machine (string_bytes self.now.dir) rustc answers
            (map (λ text. text.now) texts.now) outcome) own)) }
    {
        let mut programs = launcher.launch(alloc)?;
        let rustc = self.ready(alloc, &mut programs)?;
        let sources = Sources {
            settings: &self.settings,
            machine: &self.machine,
        };
        host_artifacts_by_cargo(
            alloc,
            sources,
            self.dir.as_str(),
            &rustc,
            texts,
            &mut programs,
        )
    }

    // The command for rustc, which is run with the variables of `[env]` from now on.
    fn ready<P: WithVariables>(&self, alloc: Global, programs: &mut P) -> Result<PathAndArgs>
        ensures { WhereTold (P.told_with programs.old) (λ own.
            IsReady self.now own (P.told programs.new) result) }
    {
        let variables = self.env(alloc)?;
        programs.set_variables(variables);
        self.rustc(alloc)
    }
}

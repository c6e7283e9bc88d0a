//! The linker, the runner and the flags of a target (Cargo Reference, Configuration,
//! [`[target]`](https://doc.rust-lang.org/cargo/reference/config.html#target)).
ghost use Rattle.std.specs.Prelude.{◌≡◌, Some, IfOk, OnOk, OnErr, option_map};
ghost use Rattle.cc2_base.specs.Told.{Keeps};
ghost use Rattle.cc2_error.specs.Outcomes.{Answered};
ghost use Rattle.cc2_resolved.specs.ShownTargets.{target_at};
ghost use Rattle.cc2_resolved.specs.Answers.{text_answer, command_answer, flags_answer};
ghost use Rattle.cc2_resolved.specs.TargetConfigs.{shown};
ghost use Rattle.cc2_rustc.specs.Kept.{WhereBothTold};
ghost use Rattle.cargo_config2.specs.Kept.{Agrees};
ghost use Rattle.cargo_config2.specs.TargetQueries.{SomeKeyOf, HasTarget, HasSet, Leaves, KeepsTarget, IsNothingStored, kept_of};
ghost use Rattle.cargo_config2.specs.TargetQueries.{IsQueryAnswer, IsSetting, IsQueryCause};

use crate::config::Config;
use crate::rustc::parts_of;
use crate::setting::{Linker, Runner, Rustdocflags, Rustflags, Setting, Whole};
use crate::target_query::settings;
use cc2_base::files::Files;
use cc2_base::programs::Programs;
use cc2_error::error::Result;
use cc2_error::path_and_args::PathAndArgs;
use cc2_resolved::flags::Flags;
use cc2_resolved::target_config::TargetConfig;
use cc2_resolved::target_triple::TargetTripleRef;
use cc2_rustc::{Kept, keep};
use cc2_target::given::Given;
use std::alloc::Global;
use std::mem::replace;

impl Config {
    /// The settings of the target. Its linker and its runner are those of the first place that has
    /// one: its variable (`CARGO_TARGET_<triple>_LINKER`, `_RUNNER`), the table of its triple, the
    /// tables at keys `cfg(..)` that are true by what rustc prints for it, in byte order of the keys.
    /// Its flags are one list, of the table, the variable (`_RUSTFLAGS`, `_RUSTDOCFLAGS`) and the true
    /// tables; those of the table `build` are taken in its place where it is empty, and where `RUSTFLAGS`
    /// or `CARGO_ENCODED_RUSTFLAGS` is set, for rustdoc `RUSTDOCFLAGS` or `CARGO_ENCODED_RUSTDOCFLAGS`
    /// (Cargo Reference, Configuration,
    /// [`[target]`](https://doc.rust-lang.org/cargo/reference/config.html#target) and
    /// [`build.rustflags`](https://doc.rust-lang.org/cargo/reference/config.html#buildrustflags)).
    ///
    /// A relative linker or runner that holds `/` or `\` is joined to its root: the folder above that
    /// of its file, or the context's directory where a variable set it. The first answer is kept for
    /// the target's text, and what rustc prints for it with it.
    ///
    /// # Errors
    /// - `ErrorKind::NotTriple` where the triple begins with `cfg(`;
    /// - `ErrorKind::CfgParse` where some key of `[target]`, whichever target is asked for, begins
    ///   with `cfg(`, isn't blank and is no cfg expression (Rust Reference,
    ///   [Conditional compilation](https://doc.rust-lang.org/reference/conditional-compilation.html));
    /// - `ErrorKind::EnvNotText` where one of the target's four variables isn't UTF-8, and `EmptyCommand`
    ///   where the runner's is blank;
    /// - where some key is a cfg expression, for which rustc is asked: `ErrorKind::NotRun` where it
    ///   can't be started, `ProgramFailed` where it ends otherwise than with the status 0,
    ///   `OutputNotText` where its output is not UTF-8;
    /// - `ErrorKind::NoRoot` where the chosen linker or runner must be joined to a root and its file has
    ///   none;
    /// - `ErrorKind::Memory` where memory ran out.
    ///
    /// A refused query keeps no settings; what rustc printed stays.
    pub fn target<F: Files, P: Programs>(
        &mut self,
        alloc: Global,
        target: &TargetTripleRef<'_>,
        files: &F,
        programs: &mut P,
    ) -> Result<TargetConfig>
        ensures leaves { Leaves (F.told files.now) (P.told programs.old) (target_at target.now)
            self.old self.new (P.runs programs.old) (P.runs programs.new) }
        ensures kept { OnOk result (KeepsTarget (target_at target.now) self.old self.new) }
        ensures kept_as { IfOk result (λ answer.
            kept_of self.new (target_at target.now) ≡ Some (shown answer)) }
        ensures stored { OnErr result (IsNothingStored self.old self.new) }
        ensures answer { WhereBothTold (F.told files.now) (P.told programs.old) (λ fs answers.
            Agrees fs answers self.old → Answered shown result
            (IsQueryAnswer fs answers self.old (target_at target.now))
            (IsQueryCause fs answers self.old (target_at target.now))) }
        ensures none { HasTarget self.old (target_at target.now) → P.runs programs.new
            ≡ P.runs programs.old }
        ensures same { Keeps (P.told programs.old) (P.told programs.new) }
    {
        self.setting::<Whole, F, P>(alloc, target, files, programs)
    }

    /// The linker of the target, a relative path from its root; none where no place has one (Cargo
    /// Reference, Configuration,
    /// [`target.<triple>.linker`](https://doc.rust-lang.org/cargo/reference/config.html#targettriplelinker)).
    /// See `target`.
    ///
    /// # Errors
    /// Those of `target`.
    pub fn linker<F: Files, P: Programs>(
        &mut self,
        alloc: Global,
        target: &TargetTripleRef<'_>,
        files: &F,
        programs: &mut P,
    ) -> Result<Option<String>>
        ensures leaves { Leaves (F.told files.now) (P.told programs.old) (target_at target.now)
            self.old self.new (P.runs programs.old) (P.runs programs.new) }
        ensures kept { OnOk result (KeepsTarget (target_at target.now) self.old self.new) }
        ensures kept_as { IfOk result (λ answer.
            option_map (λ a. a.linker) (kept_of self.new (target_at target.now))
            ≡ Some (option_map text_answer answer)) }
        ensures stored { OnErr result (IsNothingStored self.old self.new) }
        ensures answer { WhereBothTold (F.told files.now) (P.told programs.old) (λ fs answers.
            Agrees fs answers self.old → Answered (option_map text_answer) result
            (IsSetting fs answers self.old (target_at target.now) (λ a. a.linker))
            (IsQueryCause fs answers self.old (target_at target.now))) }
        ensures none { HasTarget self.old (target_at target.now) → P.runs programs.new
            ≡ P.runs programs.old }
        ensures same { Keeps (P.told programs.old) (P.told programs.new) }
    {
        self.setting::<Linker, F, P>(alloc, target, files, programs)
    }

    /// The program that runs what is built for the target, a relative path from its root; none where no
    /// place has one. See the Cargo Reference, Configuration,
    /// [`target.<triple>.runner`](https://doc.rust-lang.org/cargo/reference/config.html#targettriplerunner).
    /// See `target`.
    ///
    /// # Errors
    /// Those of `target`.
    pub fn runner<F: Files, P: Programs>(
        &mut self,
        alloc: Global,
        target: &TargetTripleRef<'_>,
        files: &F,
        programs: &mut P,
    ) -> Result<Option<PathAndArgs>>
        ensures leaves { Leaves (F.told files.now) (P.told programs.old) (target_at target.now)
            self.old self.new (P.runs programs.old) (P.runs programs.new) }
        ensures kept { OnOk result (KeepsTarget (target_at target.now) self.old self.new) }
        ensures kept_as { IfOk result (λ answer.
            option_map (λ a. a.runner) (kept_of self.new (target_at target.now))
            ≡ Some (option_map command_answer answer)) }
        ensures stored { OnErr result (IsNothingStored self.old self.new) }
        ensures answer { WhereBothTold (F.told files.now) (P.told programs.old) (λ fs answers.
            Agrees fs answers self.old → Answered (option_map command_answer) result
            (IsSetting fs answers self.old (target_at target.now) (λ a. a.runner))
            (IsQueryCause fs answers self.old (target_at target.now))) }
        ensures none { HasTarget self.old (target_at target.now) → P.runs programs.new
            ≡ P.runs programs.old }
        ensures same { Keeps (P.told programs.old) (P.told programs.new) }
    {
        self.setting::<Runner, F, P>(alloc, target, files, programs)
    }

    /// The flags for rustc, for the target; none where no place has any (Cargo Reference,
    /// Configuration,
    /// [`target.<triple>.rustflags`](https://doc.rust-lang.org/cargo/reference/config.html#targettriplerustflags)).
    /// See `target`.
    ///
    /// # Errors
    /// Those of `target`.
    pub fn rustflags<F: Files, P: Programs>(
        &mut self,
        alloc: Global,
        target: &TargetTripleRef<'_>,
        files: &F,
        programs: &mut P,
    ) -> Result<Option<Flags>>
        ensures leaves { Leaves (F.told files.now) (P.told programs.old) (target_at target.now)
            self.old self.new (P.runs programs.old) (P.runs programs.new) }
        ensures kept { OnOk result (KeepsTarget (target_at target.now) self.old self.new) }
        ensures kept_as { IfOk result (λ answer.
            option_map (λ a. a.rustflags) (kept_of self.new (target_at target.now))
            ≡ Some (option_map flags_answer answer)) }
        ensures stored { OnErr result (IsNothingStored self.old self.new) }
        ensures answer { WhereBothTold (F.told files.now) (P.told programs.old) (λ fs answers.
            Agrees fs answers self.old → Answered (option_map flags_answer) result
            (IsSetting fs answers self.old (target_at target.now) (λ a. a.rustflags))
            (IsQueryCause fs answers self.old (target_at target.now))) }
        ensures none { HasTarget self.old (target_at target.now) → P.runs programs.new
            ≡ P.runs programs.old }
        ensures same { Keeps (P.told programs.old) (P.told programs.new) }
    {
        self.setting::<Rustflags, F, P>(alloc, target, files, programs)
    }

    /// The flags for rustdoc, for the target; none where no place has any (Cargo Reference,
    /// Configuration,
    /// [`target.<triple>.rustdocflags`](https://doc.rust-lang.org/cargo/reference/config.html#targettriplerustdocflags)).
    /// See `target`.
    ///
    /// # Errors
    /// Those of `target`.
    pub fn rustdocflags<F: Files, P: Programs>(
        &mut self,
        alloc: Global,
        target: &TargetTripleRef<'_>,
        files: &F,
        programs: &mut P,
    ) -> Result<Option<Flags>>
        ensures leaves { Leaves (F.told files.now) (P.told programs.old) (target_at target.now)
            self.old self.new (P.runs programs.old) (P.runs programs.new) }
        ensures kept { OnOk result (KeepsTarget (target_at target.now) self.old self.new) }
        ensures kept_as { IfOk result (λ answer.
            option_map (λ a. a.rustdocflags) (kept_of self.new (target_at target.now))
            ≡ Some (option_map flags_answer answer)) }
        ensures stored { OnErr result (IsNothingStored self.old self.new) }
        ensures answer { WhereBothTold (F.told files.now) (P.told programs.old) (λ fs answers.
            Agrees fs answers self.old → Answered (option_map flags_answer) result
            (IsSetting fs answers self.old (target_at target.now) (λ a. a.rustdocflags))
            (IsQueryCause fs answers self.old (target_at target.now))) }
        ensures none { HasTarget self.old (target_at target.now) → P.runs programs.new
            ≡ P.runs programs.old }
        ensures same { Keeps (P.told programs.old) (P.told programs.new) }
    {
        self.setting::<Rustdocflags, F, P>(alloc, target, files, programs)
    }

    // What a query answers of the target's settings. It is copied before the settings are kept, so that a
    // refused query keeps none.
    fn setting<S: Setting, F: Files, P: Programs>(
        &mut self,
        alloc: Global,
        target: &TargetTripleRef<'_>,
        files: &F,
        programs: &mut P,
    ) -> Result<S::Output>
        ensures leaves { Leaves (F.told files.now) (P.told programs.old) (target_at target.now)
            self.old self.new (P.runs programs.old) (P.runs programs.new) }
        ensures kept { OnOk result (KeepsTarget (target_at target.now) self.old self.new) }
        ensures kept_as { IfOk result (λ answer.
            option_map S.part (kept_of self.new (target_at target.now))
            ≡ Some (S.shown answer)) }
        ensures stored { OnErr result (IsNothingStored self.old self.new) }
        ensures answer { WhereBothTold (F.told files.now) (P.told programs.old) (λ fs answers.
            Agrees fs answers self.old → Answered S.shown result
            (IsSetting fs answers self.old (target_at target.now) S.part)
            (IsQueryCause fs answers self.old (target_at target.now))) }
        ensures none { HasTarget self.old (target_at target.now) → P.runs programs.new
            ≡ P.runs programs.old }
        ensures same { Keeps (P.told programs.old) (P.told programs.new) }
    {
        if let Some(settings) = self.target.get(target.as_command_text()) {
            return Ok(S::copied(alloc, settings)?);
        }
        let found = self.ask_for_target(alloc, target, files, programs)?;
        let answer = S::copied(alloc, &found)?;
        keep(alloc, target, found, &mut self.target)?;
        Ok(answer)
    }

    // The settings of the target, which aren't kept; what rustc prints for it is.
    fn ask_for_target<F: Files, P: Programs>(
        &mut self,
        alloc: Global,
        target: &TargetTripleRef<'_>,
        files: &F,
        programs: &mut P,
    ) -> Result<TargetConfig>
        ensures leaves { Leaves (F.told files.now) (P.told programs.old) (target_at target.now)
            self.old self.new (P.runs programs.old) (P.runs programs.new) }
        ensures answer { WhereBothTold (F.told files.now) (P.told programs.old) (λ fs answers.
            Agrees fs answers self.old → Answered shown result
            (IsQueryAnswer fs answers self.old (target_at target.now))
            (IsQueryCause fs answers self.old (target_at target.now))) }
        ensures used { OnOk result (SomeKeyOf self.old → HasSet self.new (target_at target.now)) }
        ensures targets { self.new.target ≡ self.old.target }
        ensures same { Keeps (P.told programs.old) (P.told programs.new) }
    {
        let mut kept = replace(&mut self.kept, Kept::empty(alloc));
        let parts = parts_of(&self.loaded.context, &self.build);
        let given = Given {
            tables: &self.loaded.target,
            context: &self.loaded.context,
            build: &self.build,
            flags_overridden: self.loaded.flags_overridden,
            doc_flags_overridden: self.loaded.doc_flags_overridden,
        };
        let found = settings(alloc, &given, &parts, target, files, programs, &mut kept);
        self.kept = kept;
        found
    }
}

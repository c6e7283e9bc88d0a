//! What rustc says of a cfg name for a target.
ghost use Rattle.std.specs.Prelude.{◌≡◌, ◌≤◌, ◌+◌, Ok, Some, IfOk, IfErr, IsOk, IsSome, OnOk, option_map};
ghost use Rattle.std.specs.BTreeMap.{get_by_text};
ghost use Rattle.std.specs.Option.{option_copied};
ghost use Rattle.cc2_error.specs.Outcomes.{Gives, IsRefusal};
ghost use Rattle.cc2_base.specs.Told.{Keeps, WhereTold};
ghost use Rattle.cc2_resolved.specs.ShownTargets.{target_at};
ghost use Rattle.cc2_resolved.specs.Targets.{command_text};
ghost use Rattle.cc2_rustc.specs.CfgSets.{kept_set, set_said, values_said};
ghost use Rattle.cargo_config2.specs.Config.{tables_of};
ghost use Rattle.cc2_rustc.specs.Kept.{WhereBothTold};
ghost use Rattle.cargo_config2.specs.Kept.{Agrees, KeepsFinds};
ghost use Rattle.cargo_config2.specs.RustcKept.{rustc_command_of};

use crate::config::Config;
use crate::rustc::parts_of;
use cc2_base::files::Files;
use cc2_base::programs::Programs;
use cc2_error::error::Result;
use cc2_resolved::target_triple::TargetTripleRef;
use cc2_rustc::{Cfg, CfgSet, Kept, cfg_answer, find_set};
use std::alloc::Global;
use std::mem::replace;

impl Config {
    /// What rustc says of the cfg name of `C` for the target: what its values are read as, or the
    /// default where rustc prints none. See rustc's book, Print options,
    /// [`--print cfg`](https://doc.rust-lang.org/rustc/command-line-arguments/print-options.html#cfg).
    /// It is called as `config.cfg::<C, _, _>(..)`. Rustc is run by the command of `rustc`, with
    /// `--print cfg --target T` after it and, for a spec path, `-Z unstable-options` before that.
    /// Its list is kept for the target, and then rustc isn't run; what is answered is read from the
    /// kept list.
    ///
    /// # Errors
    /// - `ErrorKind::NotRun` where rustc can't be started, `ProgramFailed` where it ends otherwise than
    ///   with the status 0, `OutputNotText` where its output is not UTF-8;
    /// - `ErrorKind::CfgValue` where there is no value and no default, where there are more than
    ///   `C::MAX` values, and where `C` can't read them;
    /// - `ErrorKind::Memory` where memory ran out.
    ///
    /// What was found before a refusal stays.
    pub fn cfg<C: Cfg, F: Files, P: Programs>(
        &mut self,
        alloc: Global,
        target: &TargetTripleRef<'_>,
        files: &F,
        programs: &mut P,
    ) -> Result<C::Output>
        ensures agrees { WhereBothTold (F.told files.now) (P.told programs.old) (λ fs answers.
            Agrees fs answers self.old → Agrees fs answers self.new) }
        ensures keeps { KeepsFinds self.old self.new }
        ensures kept { OnOk result (IsSome (get_by_text
            self.new.kept.cfg_sets (command_text (target_at target.now)))) }
        ensures kept_as { WhereTold C.told (λ reading. IfOk result (λ answer.
            option_map (λ atoms. values_said C.named C.MAX reading (Ok atoms))
            (kept_set self.new.kept.cfg_sets (command_text (target_at target.now)))
            ≡ Some (Ok (C.shown answer)))) }
        ensures answer { WhereBothTold (F.told files.now) (P.told programs.old) (λ fs answers.
            Agrees fs answers self.old → WhereTold C.told (λ reading. Gives C.shown result
            (values_said C.named C.MAX reading
            (set_said (rustc_command_of fs self.old) answers (target_at target.now))))) }
        ensures tables { tables_of self.new ≡ tables_of self.old }
        ensures loaded { self.new.loaded ≡ self.old.loaded }
        ensures targets { self.new.target ≡ self.old.target }
        ensures same { Keeps (P.told programs.old) (P.told programs.new) }
        ensures few { P.runs programs.new ≤ P.runs programs.old + 1 }
        ensures none { IsSome (get_by_text self.old.kept.cfg_sets
            (command_text (target_at target.now)))
            → P.runs programs.new ≡ P.runs programs.old }
    {
        self.find_cfg_set(alloc, target, files, programs)?;
        match self.kept.cfg_sets.get(target.as_command_text()) {
            Some(set) => cfg_answer::<C>(alloc, set),
            None => unreachable!(),
        }
    }

    /// What rustc prints for the target, where `find_cfg_set`, or a question that needed it, has kept it. See rustc's
    /// book, Print options,
    /// [`--print cfg`](https://doc.rust-lang.org/rustc/command-line-arguments/print-options.html#cfg).
    pub fn known_cfg_set(&self, target: &TargetTripleRef<'_>) -> Option<&CfgSet>
        ensures { option_copied result
            ≡ get_by_text self.now.kept.cfg_sets (command_text (target_at target.now)) }
    {
        self.kept.cfg_sets.get(target.as_command_text())
    }

    /// Finds what rustc prints for the target, as `cfg` asks for it, and keeps it. What is kept stays, and then no
    /// program is run; without it one at most. See rustc's book, Print options,
    /// [`--print cfg`](https://doc.rust-lang.org/rustc/command-line-arguments/print-options.html#cfg).
    ///
    /// # Errors
    /// `ErrorKind::NotRun` where rustc can't be started, `ProgramFailed` where it ends otherwise than with the
    /// status 0, `OutputNotText` where its output is not UTF-8. `ErrorKind::Memory` where memory ran out. What was
    /// found before a refusal stays.
    pub fn find_cfg_set<F: Files, P: Programs>(
        &mut self,
        alloc: Global,
        target: &TargetTripleRef<'_>,
        files: &F,
        programs: &mut P,
    ) -> Result<()>
        ensures agrees { WhereBothTold (F.told files.now) (P.told programs.old) (λ fs answers.
            Agrees fs answers self.old → Agrees fs answers self.new) }
        ensures keeps { KeepsFinds self.old self.new }
        ensures found { OnOk result (IsSome (get_by_text
            self.new.kept.cfg_sets (command_text (target_at target.now)))) }
        ensures refused { WhereBothTold (F.told files.now) (P.told programs.old) (λ fs answers.
            Agrees fs answers self.old → IfErr result
            (IsRefusal (set_said (rustc_command_of fs self.old) answers (target_at target.now)))) }
        ensures tables { tables_of self.new ≡ tables_of self.old }
        ensures loaded { self.new.loaded ≡ self.old.loaded }
        ensures targets { self.new.target ≡ self.old.target }
        ensures same { Keeps (P.told programs.old) (P.told programs.new) }
        ensures few { P.runs programs.new ≤ P.runs programs.old + 1 }
        ensures none { IsSome (get_by_text self.old.kept.cfg_sets
            (command_text (target_at target.now)))
            → (P.runs programs.new ≡ P.runs programs.old) × IsOk result }
    {
        let mut kept = replace(&mut self.kept, Kept::empty(alloc));
        let parts = parts_of(&self.loaded.context, &self.build);
        let found = find_set(alloc, &parts, target, files, programs, &mut kept);
        self.kept = kept;
        found
    }
}

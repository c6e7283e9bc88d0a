//! The command for rustc of a configuration (Cargo Reference, Configuration,
//! [`build.rustc`](https://doc.rust-lang.org/cargo/reference/config.html#buildrustc),
//! [`build.rustc-wrapper`](https://doc.rust-lang.org/cargo/reference/config.html#buildrustc-wrapper)
//! and
//! [`build.rustc-workspace-wrapper`](https://doc.rust-lang.org/cargo/reference/config.html#buildrustc-workspace-wrapper)).
ghost use Rattle.std.specs.Prelude.{◌≡◌, Some, IsSome, IsOk, IfOk, IfErr, OnOk, OnErr};
ghost use Rattle.std.specs.Prelude.{option_map, string_bytes};
ghost use Rattle.std.specs.Borrow.{sem};
ghost use Rattle.std.specs.Option.{option_copied};
ghost use Rattle.cc2_error.specs.Commands.{command_of};
ghost use Rattle.cc2_error.specs.Outcomes.{IsWantOfMemory};
ghost use Rattle.cc2_base.specs.Told.{WhereTold};
ghost use Rattle.cc2_base.specs.ToldPrograms.{Answers};
ghost use Rattle.cc2_rustc.specs.RustcParts.{settings_of};
ghost use Rattle.cargo_config2.specs.Config.{tables_of};
ghost use Rattle.cargo_config2.specs.Kept.{Agrees, KeepsFinds, rustc_of};
ghost use Rattle.cargo_config2.specs.Lent.{AfterRustc, LeavesRustc};
ghost use Rattle.cargo_config2.specs.RustcKept.{AgreesOnRustc, rustc_command_of, settings_in};

use crate::config::Config;
use crate::lent::RustcRef;
use cc2_base::files::Files;
use cc2_de::ResolveContext;
use cc2_error::error::Result;
use cc2_error::path_and_args::PathAndArgs;
use cc2_resolved_tables::BuildConfig;
use cc2_rustc::{Parts, find_rustc};
use std::alloc::Global;

impl Config {
    /// The command for rustc: the one that `ResolveOptions::rustc` chose; else the wrapper, the
    /// workspace wrapper and rustc, as many as there are, the first as program and the others as its
    /// arguments. Without `build.rustc` rustc is the one in the folder of `cargo()`, where that is
    /// there, else `rustc`. The first answer is kept, and files are asked for it alone (Cargo
    /// Reference, Configuration,
    /// [`build.rustc`](https://doc.rust-lang.org/cargo/reference/config.html#buildrustc),
    /// [`build.rustc-wrapper`](https://doc.rust-lang.org/cargo/reference/config.html#buildrustc-wrapper)
    /// and
    /// [`build.rustc-workspace-wrapper`](https://doc.rust-lang.org/cargo/reference/config.html#buildrustc-workspace-wrapper)).
    ///
    /// The answer holds the configuration, and reads as the command: `config.rustc(alloc, files)?.args`.
    ///
    /// # Errors
    /// `ErrorKind::Memory` where memory ran out; the configuration is then as it was.
    pub fn rustc<F: Files>(&mut self, alloc: Global, files: &F) -> Result<RustcRef<'_>>
        ensures* after { sem 𝓛 (AfterRustc (F.told files.now) self.entry result) }
        ensures same_reference { IfOk result (λ lent.
            lent.config.ghost_name ≡ self.entry.ghost_name) }
        ensures leaves { IfOk result (λ lent.
            LeavesRustc (F.told files.now) self.old lent.config.now) }
        ensures kept { IsSome self.old.kept.rustc
            → IfOk result (λ lent. lent.config.now.kept.rustc ≡ self.old.kept.rustc) }
        ensures answer { WhereTold (F.told files.now) (λ fs. AgreesOnRustc fs self.old
            → IfOk result (λ lent. rustc_of lent.config.now
            ≡ Some (rustc_command_of fs self.old))) }
        ensures succeeds { IsSome self.old.kept.rustc → IsOk result }
        ensures refused { IfErr result IsWantOfMemory }
    {
        self.find_rustc(alloc, files)?;
        Ok(RustcRef::new(self))
    }

    /// The command for rustc, where it is kept: what `find_rustc` or `rustc` found. It asks no file.
    pub fn known_rustc(&self) -> Option<&PathAndArgs>
        ensures { option_map (λ rustc. command_of rustc.now) result ≡ rustc_of self.now }
    {
        self.kept.rustc.as_ref()
    }

    /// Finds the command for rustc, as `rustc` answers it, and keeps it (Cargo Reference,
    /// Configuration,
    /// [`build.rustc`](https://doc.rust-lang.org/cargo/reference/config.html#buildrustc),
    /// [`build.rustc-wrapper`](https://doc.rust-lang.org/cargo/reference/config.html#buildrustc-wrapper)
    /// and
    /// [`build.rustc-workspace-wrapper`](https://doc.rust-lang.org/cargo/reference/config.html#buildrustc-workspace-wrapper)).
    /// What is kept stays, and then no file is asked.
    ///
    /// # Errors
    /// `ErrorKind::Memory` where memory ran out; the configuration is then as it was.
    pub fn find_rustc<F: Files>(&mut self, alloc: Global, files: &F) -> Result<()>
        ensures agrees { WhereTold (F.told files.now) (λ fs.
            AgreesOnRustc fs self.old → AgreesOnRustc fs self.new) }
        ensures all_agree { WhereTold (F.told files.now) (λ fs. (answers : Answers) →
            Agrees fs answers self.old → Agrees fs answers self.new) }
        ensures all_kept { KeepsFinds self.old self.new }
        ensures found { WhereTold (F.told files.now) (λ fs. AgreesOnRustc fs self.old
            → OnOk result (option_map command_of self.new.kept.rustc
            ≡ Some (rustc_command_of fs self.old))) }
        ensures keeps { IsSome self.old.kept.rustc → self.new.kept.rustc ≡ self.old.kept.rustc }
        ensures some { OnOk result (IsSome self.new.kept.rustc) }
        ensures tables { tables_of self.new ≡ tables_of self.old }
        ensures loaded { self.new.loaded ≡ self.old.loaded }
        ensures versions { self.new.kept.versions ≡ self.old.kept.versions }
        ensures sets { self.new.kept.cfg_sets ≡ self.old.kept.cfg_sets }
        ensures targets { self.new.target ≡ self.old.target }
        ensures succeeds { IsSome self.old.kept.rustc → IsOk result }
        ensures same { OnErr result (self.new.kept.rustc ≡ self.old.kept.rustc) }
        ensures refused { IfErr result IsWantOfMemory }
    {
        let mut kept = self.kept.rustc.take();
        let parts = parts_of(&self.loaded.context, &self.build);
        let found = find_rustc(alloc, &parts, files, &mut kept);
        self.kept.rustc = kept;
        found
    }
}

/// What the command is made of: what the context says, and the fields of `build`.
pub(crate) fn parts_of<'a>(context: &'a ResolveContext, build: &'a BuildConfig) -> Parts<'a>
    ensures { settings_of result ≡ settings_in context.now build.now }
{
    Parts {
        chosen: context.rustc(),
        rustc: text_of(&build.rustc),
        wrapper: text_of(&build.rustc_wrapper),
        workspace_wrapper: text_of(&build.rustc_workspace_wrapper),
        cargo: context.cargo(),
    }
}

// A text that may be absent, lent.
fn text_of(text: &Option<String>) -> Option<&str>
    ensures { option_copied result ≡ option_map string_bytes text.now }
{
    match text {
        Some(text) => Some(text.as_str()),
        None => None,
    }
}

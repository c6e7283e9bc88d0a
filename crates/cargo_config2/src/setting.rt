//! What a query answers of a target's settings: all of them, or one.
ghost use Rattle.std.specs.Prelude.{◌≡◌, IfOk, IfErr};
ghost use Rattle.cc2_error.specs.Outcomes.{IsWantOfMemory};
ghost use Rattle.cc2_resolved.specs.TargetConfigs.{TargetAnswer, shown as settings_shown};

use cc2_error::error::Result;
use cc2_error::path_and_args::PathAndArgs;
use cc2_resolved::TryClone;
use cc2_resolved::flags::Flags;
use cc2_resolved::target_config::TargetConfig;
use std::alloc::Global;

/// What a query answers of a target's settings.
pub(crate) trait Setting {
    /// What it answers.
    type Output: Drop;

    /// What contracts see of an answer.
    ghost Shown: { Type 0 };

    /// What this answer shows.
    ghost shown: { Self.Output → Shown };

    /// What is asked of the settings.
    ghost part: { TargetAnswer → Shown };

    /// A copy of what is asked. Fails only if memory runs out.
    fn copied(alloc: Global, settings: &TargetConfig) -> Result<Self::Output>
        ensures copy { IfOk result (λ copy. shown copy ≡ part (settings_shown settings.now)) }
        ensures refused { IfErr result IsWantOfMemory };
}

/// All of them.
pub(crate) struct Whole;

impl Setting for Whole {
    ghost use Rattle.cc2_resolved.specs.TargetConfigs.{TargetAnswer, shown as settings_shown};

    type Output = TargetConfig;

    ghost Shown = { TargetAnswer };

    ghost shown = { settings_shown };

    ghost part = { λ a. a };

    fn copied(alloc: Global, settings: &TargetConfig) -> Result<TargetConfig> {
        Ok(TryClone::try_clone(settings, alloc)?)
    }
}

/// The linker.
pub(crate) struct Linker;

impl Setting for Linker {
    ghost use Rattle.std.specs.Prelude.{Option, option_map};
    ghost use Rattle.cc2_resolved.specs.Answers.{Answer, text_answer};

    type Output = Option<String>;

    ghost Shown = { Option Answer };

    ghost shown = { option_map text_answer };

    ghost part = { λ a. a.linker };

    fn copied(alloc: Global, settings: &TargetConfig) -> Result<Option<String>> {
        Ok(TryClone::try_clone(&settings.linker, alloc)?)
    }
}

/// The program that runs what is built.
pub(crate) struct Runner;

impl Setting for Runner {
    ghost use Rattle.std.specs.Prelude.{Option, option_map};
    ghost use Rattle.cc2_resolved.specs.Answers.{Answer, command_answer};

    type Output = Option<PathAndArgs>;

    ghost Shown = { Option Answer };

    ghost shown = { option_map command_answer };

    ghost part = { λ a. a.runner };

    fn copied(alloc: Global, settings: &TargetConfig) -> Result<Option<PathAndArgs>> {
        Ok(TryClone::try_clone(&settings.runner, alloc)?)
    }
}

/// The flags for rustc.
pub(crate) struct Rustflags;

impl Setting for Rustflags {
    ghost use Rattle.std.specs.Prelude.{Option, option_map};
    ghost use Rattle.cc2_resolved.specs.Answers.{Answer, flags_answer};

    type Output = Option<Flags>;

    ghost Shown = { Option Answer };

    ghost shown = { option_map flags_answer };

    ghost part = { λ a. a.rustflags };

    fn copied(alloc: Global, settings: &TargetConfig) -> Result<Option<Flags>> {
        Ok(TryClone::try_clone(&settings.rustflags, alloc)?)
    }
}

/// The flags for rustdoc.
pub(crate) struct Rustdocflags;

impl Setting for Rustdocflags {
    ghost use Rattle.std.specs.Prelude.{Option, option_map};
    ghost use Rattle.cc2_resolved.specs.Answers.{Answer, flags_answer};

    type Output = Option<Flags>;

    ghost Shown = { Option Answer };

    ghost shown = { option_map flags_answer };

    ghost part = { λ a. a.rustdocflags };

    fn copied(alloc: Global, settings: &TargetConfig) -> Result<Option<Flags>> {
        Ok(TryClone::try_clone(&settings.rustdocflags, alloc)?)
    }
}

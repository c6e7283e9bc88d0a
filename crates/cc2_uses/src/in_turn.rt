//! Any questions in turn, and one more: its answer is that of the configuration before all of them.
ghost use Rattle.std.specs.Prelude.{◌≡◌, option_map, string_bytes};
ghost use Rattle.cargo_config2.specs.Told.{Keeps};
ghost use Rattle.cargo_config2.specs.Answers.{text_answer};
ghost use Rattle.cargo_config2.specs.Kept.{Agrees, asked_by};
ghost use Rattle.cargo_config2.specs.KeptOfRustc.{WhereBothTold};
ghost use Rattle.cargo_config2.specs.Left.{IsLeft};
ghost use Rattle.cargo_config2.specs.Outcomes.{Answered, Gives};
ghost use Rattle.cargo_config2.specs.ShownTargets.{target_at};
ghost use Rattle.cargo_config2.specs.TargetQueries.{IsSetting, IsQueryCause};
ghost use Rattle.cargo_config2.specs.VersionsAsked.{host_said};

use cargo_config2::cfg::Cfg;
use cargo_config2::{Config, Files, Programs, Result, TargetTripleRef};
use std::alloc::Global;

/// A question to a configuration.
#[derive(Clone, Copy)]
pub enum Question<'a> {
    /// The command for rustc, by `find_rustc`.
    Rustc,
    /// The triple of the host, by `find_host`.
    Host,
    /// The version of rustc.
    RustcVersion,
    /// The version of cargo.
    CargoVersion,
    /// What rustc says of a cfg name, for a target.
    Cfg(&'a TargetTripleRef<'a>),
    /// The targets that a build goes by where these are given.
    BuildTargets(&'a [TargetTripleRef<'a>]),
    /// The settings of a target.
    Target(&'a TargetTripleRef<'a>),
    /// The linker of a target.
    Linker(&'a TargetTripleRef<'a>),
    /// The runner of a target.
    Runner(&'a TargetTripleRef<'a>),
    /// The flags for rustc, for a target.
    Rustflags(&'a TargetTripleRef<'a>),
    /// The flags for rustdoc, for a target.
    Rustdocflags(&'a TargetTripleRef<'a>),
}

/// The linker of a target, by a configuration that is asked these questions first, and whatever they
/// are answered or refused for, out of memory too. Those for a cfg name are for that of `C`. It is the
/// linker by the configuration as it was, or a cause for which that refuses.
///
/// # Errors
/// Those of `Config::linker`.
pub fn linker_after<C: Cfg, F: Files, P: Programs>(
    alloc: Global,
    config: &mut Config,
    questions: &[Question<'_>],
    target: &TargetTripleRef<'_>,
    files: &F,
    programs: &mut P,
) -> Result<Option<String>>
    ensures { WhereBothTold (F.told files.now) (P.told programs.old) (λ fs answers.
        Agrees fs answers config.old → Answered (option_map text_answer) result
        (IsSetting fs answers config.old (target_at target.now) (λ a. a.linker))
        (IsQueryCause fs answers config.old (target_at target.now))) }
{
    ask_in_turn::<C, F, P>(alloc, config, questions, files, programs);
    config.linker(alloc, target, files, programs)
}

/// The triple of the host, by a configuration that is asked these questions first, and whatever they are
/// answered or refused for, out of memory too. Those for a cfg name are for that of `C`. It is the host
/// by the configuration as it was, or the refusal of that.
///
/// # Errors
/// Those of `Config::host_triple`.
pub fn host_after<C: Cfg, F: Files, P: Programs>(
    alloc: Global,
    config: &mut Config,
    questions: &[Question<'_>],
    files: &F,
    programs: &mut P,
) -> Result<String>
    ensures { WhereBothTold (F.told files.now) (P.told programs.old) (λ fs answers.
        Agrees fs answers config.old
        → Gives string_bytes result (host_said (asked_by fs config.old) answers)) }
{
    ask_in_turn::<C, F, P>(alloc, config, questions, files, programs);
    match config.host_triple(alloc, files, programs) {
        Ok(host) => Ok(String::from_str(alloc, host.as_str())?),
        Err(error) => Err(error),
    }
}

/// Asks all of them in turn, and lets the answers go. Those for a cfg name are for that of `C`.
pub fn ask_in_turn<C: Cfg, F: Files, P: Programs>(
    alloc: Global,
    config: &mut Config,
    questions: &[Question<'_>],
    files: &F,
    programs: &mut P,
)
    ensures left { IsLeft (F.told files.now) (P.told programs.old) config.old config.new }
    ensures same { Keeps (P.told programs.old) (P.told programs.new) }
{
    for question in questions {
        ask::<C, F, P>(alloc, config, *question, files, programs);
    }
}

// Asks it, and lets the answer go.
fn ask<C: Cfg, F: Files, P: Programs>(
    alloc: Global,
    config: &mut Config,
    question: Question<'_>,
    files: &F,
    programs: &mut P,
)
    ensures left { IsLeft (F.told files.now) (P.told programs.old) config.old config.new }
    ensures same { Keeps (P.told programs.old) (P.told programs.new) }
{
    match question {
        Question::Rustc => let_go(config.find_rustc(alloc, files)),
        Question::Host => let_go(config.find_host(alloc, files, programs)),
        Question::RustcVersion => let_go(config.rustc_version(alloc, files, programs)),
        Question::CargoVersion => let_go(config.cargo_version(alloc, files, programs)),
        Question::Cfg(target) => let_go(config.cfg::<C, F, P>(alloc, target, files, programs)),
        Question::BuildTargets(given) => {
            let_go(config.build_target_for_config(alloc, given, files, programs))
        }
        Question::Target(target) => let_go(config.target(alloc, target, files, programs)),
        Question::Linker(target) => let_go(config.linker(alloc, target, files, programs)),
        Question::Runner(target) => let_go(config.runner(alloc, target, files, programs)),
        Question::Rustflags(target) => let_go(config.rustflags(alloc, target, files, programs)),
        Question::Rustdocflags(target) => let_go(config.rustdocflags(
            alloc, target, files, programs,
        )),
    }
}

// Lets an answer go.
fn let_go<T: Drop>(_answer: Result<T>) {}

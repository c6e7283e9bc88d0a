//! The flags of a target, or those of the table `build` in their place.
ghost use Rattle.std.specs.Prelude.{◌≡◌, false, IfOk, IfErr, map, option_map, string_bytes};
ghost use Rattle.cc2_error.specs.Outcomes.{IsWantOfMemory};
ghost use Rattle.cc2_resolved.specs.Answers.{flags_answer};
ghost use Rattle.cc2_target.specs.Settings.{or_build};
ghost use Rattle.cc2_target.specs.Sources.{joined};

use crate::given::Given;
use crate::sources::TargetSources;
use cc2_error::error::Result;
use cc2_resolved::flags::Flags;
use std::alloc::Global;

/// The flags for rustc: those of the sources as one list; where that is empty, and where variables
/// override it, those of the table `build` (Cargo Reference, Configuration,
/// [`build.rustflags`](https://doc.rust-lang.org/cargo/reference/config.html#buildrustflags)).
///
/// # Errors
/// `Memory` where memory ran out.
pub fn rustflags_of(
    alloc: Global,
    sources: &TargetSources<'_>,
    given: &Given<'_>,
) -> Result<Option<Flags>>
    ensures flags { IfOk result (λ flags.
        option_map flags_answer flags ≡ or_build given.now.flags_overridden
        (joined (λ t. t.rustflags) sources.now.variables.now.rustflags sources.now)
        (option_map flags_answer given.now.build.now.rustflags)) }
    ensures refused { IfErr result IsWantOfMemory }
{
    let build = &given.build.rustflags;
    if given.flags_overridden {
        return copied(alloc, build);
    }
    Ok(or_build(alloc, sources.rustflags(alloc)?, build)?)
}

/// The same of the flags for rustdoc (Cargo Reference, Configuration,
/// [`build.rustdocflags`](https://doc.rust-lang.org/cargo/reference/config.html#buildrustdocflags)).
///
/// # Errors
/// `Memory` where memory ran out.
pub fn rustdocflags_of(
    alloc: Global,
    sources: &TargetSources<'_>,
    given: &Given<'_>,
) -> Result<Option<Flags>>
    ensures flags { IfOk result (λ flags.
        option_map flags_answer flags ≡ or_build given.now.doc_flags_overridden
        (joined (λ t. t.rustdocflags) sources.now.variables.now.rustdocflags sources.now)
        (option_map flags_answer given.now.build.now.rustdocflags)) }
    ensures refused { IfErr result IsWantOfMemory }
{
    let build = &given.build.rustdocflags;
    if given.doc_flags_overridden {
        return copied(alloc, build);
    }
    Ok(or_build(alloc, sources.rustdocflags(alloc)?, build)?)
}

// The flags, where there are any, else those of `build`.
fn or_build(alloc: Global, flags: Vec<String>, build: &Option<Flags>) -> Result<Option<Flags>>
    ensures flags { IfOk result (λ answer. option_map flags_answer answer
        ≡ or_build false (map string_bytes flags.items) (option_map flags_answer build.now)) }
    ensures refused { IfErr result IsWantOfMemory }
{
    if flags.is_empty() {
        return copied(alloc, build);
    }
    Ok(Some(Flags::from(flags)))
}

// The same flags once more, where there are any.
fn copied(alloc: Global, flags: &Option<Flags>) -> Result<Option<Flags>>
    ensures same { IfOk result (λ copy.
        option_map flags_answer copy ≡ option_map flags_answer flags.now) }
    ensures refused { IfErr result IsWantOfMemory }
{
    match flags {
        None => Ok(None),
        Some(flags) => Ok(Some(flags.try_clone(alloc)?)),
    }
}

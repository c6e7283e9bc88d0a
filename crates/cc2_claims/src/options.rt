//! What is chosen in place of the machine's.
ghost use Rattle.std.specs.Prelude.{◌≡◌, ◌++◌, ◌∷◌, [], IfOk, string_bytes};
ghost use Rattle.cc2_env.specs.CommandLine.{from_text};
ghost use Rattle.cc2_env.specs.Options.{chosen_overrides, IsContext};

use cc2_de::Machine;
use cc2_env::{ResolveContext, ResolveOptions};
use cc2_error::error::Result;
use std::alloc::Global;

/// `ResolveOptions::config_text`: a text after what the command line set before.
///
/// # Errors
/// Those of `ResolveOptions::config_text`.
pub fn with_text(alloc: Global, options: ResolveOptions, text: String) -> Result<ResolveOptions>
    ensures { IfOk result
        (λ o. chosen_overrides o ≡ chosen_overrides options ++ from_text (string_bytes text) ∷ []) }
{
    options.config_text(alloc, text)
}

/// `ResolveOptions::into_context`: all that was chosen counts.
///
/// # Errors
/// Those of `ResolveOptions::into_context`.
pub fn context_of(
    alloc: Global,
    options: ResolveOptions,
    current_dir: String,
    machine: &Machine,
) -> Result<ResolveContext>
    ensures { IfOk result (IsContext options current_dir machine.now) }
{
    options.into_context(alloc, current_dir, machine)
}

//! Values that are resolved, and flags in one text.
ghost use Rattle.std.specs.Prelude.{◌≡◌, IfOk, string_bytes};
ghost use Rattle.cc2_error.specs.Outcomes.{Gives};
ghost use Rattle.cc2_error.specs.declared.error.Separator.TheVariants.{Unit as unit};
ghost use Rattle.cc2_leaf.specs.Env.{env_at};
ghost use Rattle.cc2_resolved.specs.Encodings.{encoded_with};
ghost use Rattle.cc2_resolved.specs.Env.{by_variable, variable_shown};
ghost use Rattle.cc2_resolved.specs.Rows.{IsResolved};
ghost use Rattle.cc2_resolved.specs.ShownFlags.{flag_texts};
ghost use Rattle.cc2_resolved.specs.Sites.{site_of};

use cc2_error::error::Result;
use cc2_leaf::EnvConfigValue;
use cc2_resolved::flags::Flags;
use cc2_resolved::{Place, resolve_variable};
use std::alloc::Global;

/// `resolve_variable`: a relative value from the root of its own file.
///
/// # Errors
/// Those of `resolve_variable`.
pub fn variable(
    alloc: Global,
    place: &Place<'_>,
    variable: EnvConfigValue,
) -> Result<cc2_resolved::env::EnvConfigValue>
    ensures { IfOk result (λ r.
        IsResolved by_variable (site_of place.now) (env_at variable) (variable_shown r)) }
{
    resolve_variable(alloc, place, variable)
}

/// `Flags::encode`: empty flags in front are left out, and no others.
///
/// # Errors
/// Those of `Flags::encode`.
pub fn encoded(alloc: Global, flags: &Flags) -> Result<String>
    ensures { Gives string_bytes result (encoded_with unit (flag_texts flags.now)) }
{
    flags.encode(alloc)
}

//! Variables of the table `env`: a value is meant as a path where its table says so.
ghost use Rattle.std.specs.Prelude.{◌≡◌, [], string_bytes, IfOk, IfErr};
ghost use Rattle.cc2_leaf.specs.Env.{env_at};
ghost use Rattle.cc2_error.specs.Outcomes.{Gives};
ghost use Rattle.cc2_value.specs.Singles.{truth_value};
ghost use Rattle.cc2_value.specs.Values.{word_of};
ghost use Rattle.cc2_resolved.specs.Env.{by_variable, variable_shown, is_true, value_for};
ghost use Rattle.cc2_resolved.specs.Rows.{IsCause, IsResolved};
ghost use Rattle.cc2_resolved.specs.Sites.{site_of};

use crate::env::EnvConfigValue;
use crate::place::Place;
use crate::roots::{Meant, resolve_text};
use cc2_error::error::Result;
use cc2_leaf::Value;
use std::alloc::Global;

/// Resolves a variable: its value from the root of its own origin, where its table says `relative`
/// (Cargo Reference, Configuration,
/// [`[env]`](https://doc.rust-lang.org/cargo/reference/config.html#env)).
///
/// Refused exactly where that value has no root.
pub fn resolve_variable(
    alloc: Global,
    place: &Place<'_>,
    variable: cc2_leaf::EnvConfigValue,
) -> Result<EnvConfigValue>
    ensures ok { IfOk result (λ r.
        IsResolved by_variable (site_of place.now) (env_at variable) (variable_shown r)) }
    ensures refused { IfErr result (IsCause by_variable (site_of place.now) (env_at variable)) }
{
    match variable {
        cc2_leaf::EnvConfigValue::Value(text) => Ok(EnvConfigValue {
            value: text.val,
            force: false,
            relative: false,
        }),
        cc2_leaf::EnvConfigValue::Table {
            value,
            force,
            relative,
        } => match resolve_value(alloc, place, holds(&relative), value) {
            Ok(value) => Ok(EnvConfigValue {
                value,
                force: holds(&force),
                relative: false,
            }),
            Err(error) => Err(error),
        },
    }
}

// A text, from its root where it is a relative path.
fn resolve_value(
    alloc: Global,
    place: &Place<'_>,
    relative: bool,
    value: Value<String>,
) -> Result<String>
    ensures { Gives string_bytes result (value_for relative (site_of place.now) (word_of value)) }
{
    if relative {
        resolve_text(alloc, place.directory, Meant::Path, value)
    } else {
        Ok(value.val)
    }
}

// Whether a mark is there and true.
fn holds(mark: &Option<Value<bool>>) -> bool
    ensures { result ≡ is_true (truth_value mark.now []) }
{
    match mark {
        Some(mark) => mark.val,
        None => false,
    }
}

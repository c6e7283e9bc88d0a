//! Variables of the table `env`, as members of a map.

use crate::member::Member;
use cc2_error::error::Result;
use cc2_resolved::env::EnvConfigValue;
use cc2_resolved::{Place, resolve_variable};
use std::alloc::Global;

impl Member for cc2_leaf::EnvConfigValue {
    ghost use Rattle.std.specs.Prelude.{refl};
    ghost use Rattle.cc2_leaf.specs.Env.{env_at};
    ghost use Rattle.cc2_resolved.specs.Env.{by_variable, variable_shown};

    type Resolved = EnvConfigValue;

    ghost look = { env_at };

    ghost how = { by_variable };

    ghost shown = { variable_shown };

    ghost nothing = { λ site p. refl };

    fn resolve_member(self, alloc: Global, place: &Place<'_>) -> Result<EnvConfigValue> {
        resolve_variable(alloc, place, self)
    }
}

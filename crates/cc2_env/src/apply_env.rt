//! What environment variables set.
ghost use Rattle.std.specs.Prelude.{List, OnOk, IfErr};
ghost use Rattle.cc2_value.specs.Shown.{fields_at};
ghost use Rattle.cc2_env.specs.Options.{variables_of};
ghost use Rattle.cc2_env.specs.Ranked.{Row, by_field, IsRanked, IsRankCause, AllRanked, IsRankCauseAt};

use crate::ResolveContext;
use cc2_error::error::Result;
use cc2_leaf::Fields;
use cc2_value::Visited;
use std::alloc::Global;

/// A table that environment variables set (Cargo Reference, Configuration,
/// [environment variables](https://doc.rust-lang.org/cargo/reference/config.html#environment-variables)).
pub trait ApplyEnv: Fields {
    /// Which variables set each field, by rank.
    ghost ranks: { List Row };

    /// Sets each field in turn, up to the first that is refused.
    fn apply_each(&mut self, alloc: Global, context: &ResolveContext) -> Visited
        ensures ok { OnOk result
            (AllRanked Self.fields ranks (variables_of context.now) self.old self.new) }
        ensures refused { IfErr result (λ r.
            IsRankCauseAt (fields_at Self.fields) ranks (variables_of context.now)
            self.old r.key.now r.error) };
}

/// Sets what the variables say of a table; the rest stays (Cargo Reference, Configuration,
/// [environment variables](https://doc.rust-lang.org/cargo/reference/config.html#environment-variables)).
/// Refused exactly where a variable that is looked at is refused; some settings are then set, and
/// others not.
pub fn apply_table<T: ApplyEnv>(
    alloc: Global,
    context: &ResolveContext,
    table: &mut T,
) -> Result<()>
    ensures ok { OnOk result
        (IsRanked (fields_at T.fields) (by_field T.ranks) (variables_of context.now) table.old
        table.new) }
    ensures refused { IfErr result
        (IsRankCause (fields_at T.fields) (by_field T.ranks) (variables_of context.now) table.old) }
{
    match table.apply_each(alloc, context) {
        Ok(()) => Ok(()),
        Err(refused) => Err(refused.error),
    }
}

/// The body of `ApplyEnv::apply_each`: sets the fields at these keys in turn, up to the first that is
/// refused. Each field is followed by the function that sets it, with its arguments.
#[macro_export]
macro_rules! apply_fields {
    ($alloc:ident, $context:ident, $own:ident;
        $($key:literal $field:ident $how:ident($($argument:expr),*)),* $(,)?) => {{
        $(
            if let Err(error) = $how($alloc, $context, $($argument,)* &mut $own.$field) {
                return Err(cc2_value::Refused { key: $key, error });
            }
        )*
        Ok(())
    }};
}

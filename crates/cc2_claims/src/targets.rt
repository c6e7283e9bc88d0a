//! Tables of targets, and what they give for a triple.
ghost use Rattle.std.specs.Prelude.{◌∷◌, [], map, IfOk, IfErr};
ghost use Rattle.cc2_env.specs.Options.{variables_of};
ghost use Rattle.cc2_error.specs.Outcomes.{Answered};
ghost use Rattle.cc2_target.specs.Given.{given_in};
ghost use Rattle.cc2_target.specs.Settings.{IsSettings, IsUnresolved};
ghost use Rattle.cc2_resolved.specs.TargetConfigs.{shown};
ghost use Rattle.cc2_target.specs.Variables.{AreRead};
ghost use Rattle.cc2_target_table.specs.Target.{target_at};
ghost use Rattle.cc2_value.specs.Cells.{IsPointwise};
ghost use Rattle.cc2_value.specs.Refusals.{IsRefused};

use cc2_error::error::Result;
use cc2_leaf::Merge;
use cc2_resolved::target_config::TargetConfig;
use cc2_target::given::Given;
use cc2_target::variables::TargetVariables;
use std::alloc::Global;

/// `Merge::merge` of target tables: a nested table has precedence over a value that didn't decode.
///
/// # Errors
/// Those of `Merge::merge`.
pub fn merged(
    alloc: Global,
    high: cc2_target_table::TargetConfig,
    low: cc2_target_table::TargetConfig,
) -> Result<cc2_target_table::TargetConfig>
    ensures ok { IfOk result (IsPointwise target_at (high ∷ low ∷ [])) }
    ensures refused { IfErr result (IsRefused target_at (high ∷ low ∷ [])) }
{
    high.merge(alloc, low)
}

/// `Given::settings`: the flags of all true tables, and those of `build` where there are none.
///
/// # Errors
/// Those of `Given::settings`.
pub fn settings(
    alloc: Global,
    given: &Given<'_>,
    triple: &str,
    variables: &TargetVariables,
    true_tables: &[&cc2_target_table::TargetConfig],
) -> Result<TargetConfig>
    ensures { AreRead (variables_of given.now.context.now) triple.now variables.now
        → Answered shown result
        (IsSettings (given_in given.now) triple.now (map (λ t. t.now) true_tables.now))
        (IsUnresolved (given_in given.now) triple.now (map (λ t. t.now) true_tables.now)) }
{
    given.settings(alloc, triple, variables, true_tables)
}

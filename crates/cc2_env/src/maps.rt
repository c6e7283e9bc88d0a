//! Maps by name, by the variables whose names begin alike.
ghost use Rattle.std.specs.Prelude.{OnOk, IfErr};
ghost use Rattle.cc2_value.specs.Shown.{map_at, single_at};
ghost use Rattle.cc2_leaf.specs.Commands.{setting_of_command};
ghost use Rattle.cc2_leaf.specs.Lists.{string_list_at};
ghost use Rattle.cc2_env.specs.Options.{variables_of};
ghost use Rattle.cc2_env.specs.Ranked.{IsRanked, IsRankCause};
ghost use Rattle.cc2_env.specs.Ranks.{names_rank, alias_rank, credential_alias_rank};

use crate::ResolveContext;
use crate::read::read_variable;
use cc2_error::error::Result;
use cc2_leaf::{PathAndArgs, ReadEnv, StringList, put};
use std::alloc::Global;
use std::collections::BTreeMap;

// What the variables make of a map: that whose name is the prefix and a key sets the key.
fn read_names<T: ReadEnv>(
    alloc: Global,
    context: &ResolveContext,
    prefix: &str,
    map: &mut BTreeMap<String, T>,
) -> Result<()>
    ensures ok { OnOk result
        (IsRanked (map_at T.MergeFrom.cell_at) (names_rank T.text_way prefix.now)
        (variables_of context.now) map.old map.new) }
    ensures refused { IfErr result
        (IsRankCause (map_at T.MergeFrom.cell_at) (names_rank T.text_way prefix.now)
        (variables_of context.now) map.old) }
{
    for (name, value) in context.variables().iter() {
        if let Some(key) = name.as_str().strip_prefix(prefix) {
            let read = read_variable(alloc, name.as_str(), value.as_slice())?;
            put(map, String::from_str(alloc, key)?, read)?;
        }
    }
    Ok(())
}

/// What the variables `CARGO_ALIAS_n` make of the table `alias` (Cargo Reference, Configuration,
/// [`[alias]`](https://doc.rust-lang.org/cargo/reference/config.html#alias)).
pub fn apply_aliases(
    alloc: Global,
    context: &ResolveContext,
    aliases: &mut BTreeMap<String, StringList>,
) -> Result<()>
    ensures ok { OnOk result
        (IsRanked (map_at string_list_at) alias_rank (variables_of context.now) aliases.old
        aliases.new) }
    ensures refused { IfErr result
        (IsRankCause (map_at string_list_at) alias_rank (variables_of context.now) aliases.old) }
{
    read_names(alloc, context, "CARGO_ALIAS_", aliases)
}

/// What the variables `CARGO_CREDENTIAL_ALIAS_n` make of the table `credential-alias` (Cargo
/// Reference, Configuration,
/// [`[credential-alias]`](https://doc.rust-lang.org/cargo/reference/config.html#credential-alias)).
pub fn apply_credential_aliases(
    alloc: Global,
    context: &ResolveContext,
    aliases: &mut BTreeMap<String, PathAndArgs>,
) -> Result<()>
    ensures ok { OnOk result (IsRanked (map_at (single_at setting_of_command)) credential_alias_rank
        (variables_of context.now) aliases.old aliases.new) }
    ensures refused { IfErr result
        (IsRankCause (map_at (single_at setting_of_command)) credential_alias_rank
        (variables_of context.now) aliases.old) }
{
    read_names(alloc, context, "CARGO_CREDENTIAL_ALIAS_", aliases)
}

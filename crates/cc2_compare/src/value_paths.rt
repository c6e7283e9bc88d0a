//! The key paths of values in JSON.
ghost use Rattle.std.specs.Prelude.{◌≡◌, ◌++◌, IfOk, OnOk, map};
ghost use Rattle.serde_json.specs.View.{members_view, view};
ghost use Rattle.cc2_value.specs.Rows.{texts_of};
ghost use Rattle.cc2_compare.specs.ValuePaths.{path_view, paths_below, paths_from, value_paths};

use cc2_error::error::NoMemory;
use cc2_json::Json;
use serde_json::Map;
use std::alloc::Global;

/// The keys that lead to each value, in the order of the members. A table is no value, and its members are.
///
/// # Errors
/// `NoMemory` where memory ran out.
pub(crate) fn value_paths<'a>(alloc: Global, json: &'a Json) -> Result<Vec<Vec<&'a str>>, NoMemory>
    ensures { IfOk result (λ paths. map path_view paths.items ≡ value_paths (view json.now)) }
{
    let mut paths = Vec::new(alloc);
    push_paths(alloc, &[], json, &mut paths)?;
    Ok(paths)
}

// Appends the paths of the values at a path and below it.
#[cycle(paths)]
fn push_paths<'a>(
    alloc: Global,
    path: &[&'a str],
    json: &'a Json,
    paths: &mut Vec<Vec<&'a str>>,
) -> Result<(), NoMemory>
    ensures { OnOk result (map path_view paths.new.items ≡ map path_view paths.old.items
        ++ paths_from (texts_of path.now) (view json.now)) }
{
    match json {
        Json::Object(members) => push_below(alloc, path, members, paths),
        _ => {
            paths.push(Vec::from_slice(alloc, path)?)?;
            Ok(())
        }
    }
}

// Appends the paths of the values in members below a path.
#[cycle(paths)]
fn push_below<'a>(
    alloc: Global,
    path: &[&'a str],
    members: &'a Map<String, Json>,
    paths: &mut Vec<Vec<&'a str>>,
) -> Result<(), NoMemory>
    ensures { OnOk result (map path_view paths.new.items ≡ map path_view paths.old.items
        ++ paths_below (texts_of path.now) (members_view members.now.entries)) }
{
    for (key, json) in members.iter() {
        let mut below = Vec::from_slice(alloc, path)?;
        below.push(key.as_str())?;
        push_paths(alloc, below.as_slice(), json, paths)?;
    }
    Ok(())
}

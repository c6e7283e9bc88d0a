//! Targets to build for: a spec path is joined to its root.
ghost use Rattle.std.specs.Prelude.{Some};
ghost use Rattle.cc2_error.specs.Outcomes.{Gives};
ghost use Rattle.cc2_resolved.specs.ShownTargets.{target_at};
ghost use Rattle.cc2_value.specs.Values.{origin_of, word_of, words_of};
ghost use Rattle.cc2_resolved.specs.Answers.{targets_of};
ghost use Rattle.cc2_resolved.specs.ResolvedTargets.{placed, target_for};
ghost use Rattle.cc2_resolved.specs.Turns.{in_turn};

use crate::place::Place;
use crate::resolve::Resolve;
use crate::roots::root_for;
use crate::target_triple::{TargetTriple, TargetTripleRef};
use cc2_base::path::is_absolute;
use cc2_error::error::Result;
use cc2_leaf::{Definition, StringOrArray, Value};
use std::alloc::Global;

// The target of a text.
fn resolve_target(alloc: Global, directory: &str, text: Value<String>) -> Result<TargetTriple>
    ensures { Gives target_at result (target_for directory.now (word_of text)) }
{
    let Value { val, definition } = text;
    let target = TargetTripleRef::from_string(val)?;
    match definition {
        None => Ok(target),
        Some(definition) => place_target(alloc, directory, target, &definition),
    }
}

// The target, with a relative spec path from the root of its definition.
fn place_target(
    alloc: Global,
    directory: &str,
    target: TargetTriple,
    definition: &Definition,
) -> Result<TargetTriple>
    ensures { Gives target_at result
        (placed directory.now (Some (origin_of definition.now)) (target_at target.entry)) }
{
    match target.spec_path() {
        Some(path) if !is_absolute(path) => {
            let root = root_for(alloc, directory, definition, path)?;
            target.joined_to(alloc, root)
        }
        _ => Ok(target),
    }
}

// The targets of these texts, in their order.
fn resolve_targets(
    alloc: Global,
    directory: &str,
    texts: Vec<Value<String>>,
) -> Result<Vec<TargetTriple>>
    ensures { Gives targets_of result (in_turn (target_for directory.now) (words_of texts.items)) }
{
    let mut targets = Vec::new(alloc);
    for text in texts {
        targets.push(resolve_target(alloc, directory, text)?)?;
    }
    Ok(targets)
}

impl Resolve for StringOrArray {
    ghost use Rattle.cc2_leaf.specs.Wholes.{whole_cell};
    ghost use Rattle.cc2_resolved.specs.Answers.{targets_answer};
    ghost use Rattle.cc2_resolved.specs.Resolving.{settled_targets};

    type Resolved = Vec<TargetTriple>;

    ghost cell = { whole_cell };

    ghost answer = { targets_answer };

    ghost how = { settled_targets };

    fn resolve(self, alloc: Global, place: &Place<'_>) -> Result<Vec<TargetTriple>> {
        let texts = match self {
            StringOrArray::String(text) => {
                let mut texts = Vec::new(alloc);
                texts.push(text)?;
                texts
            }
            StringOrArray::Array(texts) => texts,
        };
        match resolve_targets(alloc, place.directory, texts) {
            Ok(targets) => Ok(targets),
            Err(error) => Err(error),
        }
    }
}

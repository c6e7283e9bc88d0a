//! Flags and lists of texts: the texts stay as they are.
ghost use Rattle.std.specs.Prelude.{◌≡◌, map, string_bytes, IfOk, IfErr};
ghost use Rattle.cc2_error.specs.Causes.{no_memory};
ghost use Rattle.cc2_value.specs.Values.{words_of};
ghost use Rattle.cc2_resolved.specs.Resolving.{texts_of};

use crate::flags::Flags;
use crate::place::Place;
use crate::resolve::Resolve;
use crate::string_list::StringList;
use cc2_error::error::Result;
use cc2_leaf::Value;
use std::alloc::Global;

// The texts of values.
pub(crate) fn bare_texts(alloc: Global, values: Vec<Value<String>>) -> Result<Vec<String>>
    ensures ok { IfOk result (λ texts.
        map string_bytes texts.items ≡ texts_of (words_of values.items)) }
    ensures refused { IfErr result (λ e. e ≡ no_memory) }
{
    let mut texts = Vec::new(alloc);
    for value in values {
        texts.push(value.val)?;
    }
    Ok(texts)
}

impl Resolve for cc2_leaf::Flags {
    ghost use Rattle.cc2_leaf.specs.Lists.{texts_cell, texts_as};
    ghost use Rattle.cc2_resolved.specs.Answers.{flags_answer};
    ghost use Rattle.cc2_resolved.specs.Resolving.{settled};

    type Resolved = Flags;

    ghost cell = { λ f. texts_cell (texts_as f.repr f.flags) };

    ghost answer = { flags_answer };

    ghost how = { settled };

    fn resolve(self, alloc: Global, _place: &Place<'_>) -> Result<Flags> {
        match bare_texts(alloc, self.flags) {
            Ok(flags) => Ok(Flags { flags }),
            Err(error) => Err(error),
        }
    }
}

impl Resolve for cc2_leaf::StringList {
    ghost use Rattle.cc2_leaf.specs.Lists.{texts_cell, texts_as};
    ghost use Rattle.cc2_resolved.specs.Answers.{list_answer};
    ghost use Rattle.cc2_resolved.specs.Resolving.{settled};

    type Resolved = StringList;

    ghost cell = { λ l. texts_cell (texts_as l.repr l.list) };

    ghost answer = { list_answer };

    ghost how = { settled };

    fn resolve(self, alloc: Global, _place: &Place<'_>) -> Result<StringList> {
        match bare_texts(alloc, self.list) {
            Ok(list) => Ok(StringList { list }),
            Err(error) => Err(error),
        }
    }
}

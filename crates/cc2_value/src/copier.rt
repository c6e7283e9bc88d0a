//! Copying the fields of a table: a visit.
ghost use Rattle.std.specs.Prelude.{◌≡◌, OnOk, IfErr};
ghost use Rattle.cc2_error.specs.Causes.{no_memory};
ghost use Rattle.cc2_value.specs.Copies.{origin_given, IsCopied};
ghost use Rattle.cc2_value.specs.Visits.{FieldsCopied};

use crate::definition::Definition;
use crate::fields::{Fields, VisitRef};
use crate::part::Part;
use crate::try_clone::TryClone;
use cc2_error::error::Result;
use std::alloc::Global;

// Copies each field, with the definition where one is given.
#[derive(Drop)]
struct Copier<'a> {
    alloc: Global,
    definition: Option<&'a Definition>,
}

impl VisitRef for Copier<'_> {
    ghost gives = { λ c own new. IsCopied (λ look. look) (origin_given c.definition) own new };

    ghost fails = { λ c e. e ≡ no_memory };

    fn field<T: Part>(&self, own: &T, copy: &mut T) -> Result<()> {
        *copy = TryClone::copied(own, self.alloc, self.definition)?;
        Ok(())
    }
}

/// Copies each field in place of the copy's. Fails only if memory runs out.
#[inline(never)]
pub fn copy_fields<T: Fields>(
    alloc: Global,
    table: &T,
    copy: &mut T,
    definition: Option<&Definition>,
) -> Result<()>
    ensures ok { OnOk result
        (FieldsCopied T.fields (origin_given definition.entry) table.now copy.new) }
    ensures refused { IfErr result (λ e. e ≡ no_memory) }
{
    let copier = Copier { alloc, definition };
    table.each_ref(copy, &copier)
}

//! Tables, resolved field by field.
ghost use Rattle.std.specs.Prelude.{List, OnOk, IfErr};
ghost use Rattle.cc2_error.specs.Outcomes.{Answered};
ghost use Rattle.cc2_value.specs.Shown.{Field, fields_at};
ghost use Rattle.cc2_resolved.specs.Rows.{by_row, rows_at, AllResolved, IsCauseAt, IsResolved, IsRefusedSo};
ghost use Rattle.cc2_resolved.specs.Sites.{site_of};

use crate::member::Member;
use crate::slot::Slot;
use cc2_error::error::Result;
use cc2_resolved::{Place, ResolvedTable};
use cc2_value::Visited;
use std::alloc::Global;

/// A table that can be resolved.
pub trait ResolveTable: Drop {
    /// What it is then.
    type Resolved: ResolvedTable;

    /// Its fields.
    ghost fields: { List (Field Self) };

    /// Resolves each field in place, and takes it, up to the first that is refused.
    fn settle_each(
        &mut self,
        alloc: Global,
        place: &Place<'_>,
        resolved: &mut Self::Resolved,
    ) -> Visited
        ensures ok { OnOk result (AllResolved Self.Resolved.rows (site_of place.now)
            (fields_at fields self.old) resolved.new) }
        ensures refused { IfErr result (λ r.
            IsCauseAt Self.Resolved.rows (site_of place.now)
            (fields_at fields self.old) r.key.now r.error) };
}

/// A table that is always there.
impl<T: ResolveTable> Slot for T {
    ghost use Rattle.cc2_resolved.specs.Rows.{by_row, rows_at};

    type Resolved = T::Resolved;

    ghost look = { fields_at T.fields };

    ghost how = { by_row T.Resolved.rows };

    ghost shown = { rows_at T.Resolved.rows };

    fn settle(
        &mut self,
        alloc: Global,
        place: &Place<'_>,
        resolved: &mut T::Resolved,
    ) -> Result<()> {
        match self.settle_each(alloc, place, resolved) {
            Ok(()) => Ok(()),
            Err(refused) => Err(refused.error),
        }
    }
}

/// Resolves a table: refused exactly where a field is, or for want of memory.
pub fn resolve_table<T: ResolveTable>(
    alloc: Global,
    place: &Place<'_>,
    table: T,
) -> Result<T::Resolved>
    ensures { Answered (rows_at T.Resolved.rows) result
        (IsResolved (by_row T.Resolved.rows) (site_of place.now) (fields_at T.fields table))
        (IsRefusedSo (by_row T.Resolved.rows) (site_of place.now) (fields_at T.fields table)) }
{
    let mut table = table;
    let mut resolved = T::Resolved::empty(alloc);
    match table.settle_each(alloc, place, &mut resolved) {
        Ok(()) => Ok(resolved),
        Err(refused) => Err(refused.error),
    }
}

/// A table that is a member of a map.
impl<T: ResolveTable> Member for T {
    ghost use Rattle.std.specs.Prelude.{refl};
    ghost use Rattle.cc2_value.specs.Shown.{entry_at};
    ghost use Rattle.cc2_resolved.specs.Rows.{by_entry, entry_shown};

    type Resolved = T::Resolved;

    ghost look = { entry_at T.fields };

    ghost how = { by_entry T.Resolved.rows };

    ghost shown = { entry_shown T.Resolved.rows };

    ghost nothing = { λ site p. refl };

    fn resolve_member(self, alloc: Global, place: &Place<'_>) -> Result<T::Resolved> {
        match resolve_table(alloc, place, self) {
            Ok(resolved) => Ok(resolved),
            Err(error) => Err(error),
        }
    }
}

/// Resolves the field at a key: as it is, or a text that is meant so.
#[macro_export]
macro_rules! settle_field {
    ($alloc:ident, $place:ident, $own:expr, $resolved:expr) => {
        $crate::Slot::settle(&mut $own, $alloc, $place, &mut $resolved)
    };
    ($alloc:ident, $place:ident, $own:expr, $resolved:expr, $meant:ident) => {
        cc2_resolved::settle_text(
            &mut $own,
            $alloc,
            $place,
            cc2_resolved::Meant::$meant,
            &mut $resolved,
        )
    };
}

/// The body of `ResolveTable::settle_each`: resolves the fields at these keys in turn, up to the first
/// that is refused.
#[macro_export]
macro_rules! settle_fields {
    ($alloc:ident, $place:ident, $own:ident, $resolved:ident; $($key:literal $field:ident $($meant:ident)?),* $(,)?) => {{
        $(
            if let Err(error) = $crate::settle_field!($alloc, $place, $own.$field, $resolved.$field $(, $meant)?) {
                return Err(cc2_value::Refused { key: $key, error });
            }
        )*
        Ok(())
    }};
}

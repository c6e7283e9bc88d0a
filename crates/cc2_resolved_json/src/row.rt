//! Parts in a row, each put at its key.
ghost use Rattle.std.specs.Prelude.{◌≡◌, ◌≤◌, ◌+◌, ◌∷◌, ◌++◌, [], ℕ, List, drop, length, OnOk};
ghost use Rattle.cc2_value.specs.Rows.{texts_of};
ghost use Rattle.cc2_value.specs.Visits.{Look};
ghost use Rattle.cc2_json.specs.Json.{ArePut};
ghost use Rattle.cc2_resolved_json.specs.Plain.{plain_at, without_origins};

use crate::form::without_origins;
use crate::to_json::ToJson;
use cc2_json::{Json, put_field};
use cc2_leaf::{One, Pair};
use serde_json::Map;
use std::alloc::{AllocError, Global};

/// A row of parts that are written as JSON.
pub trait PlainRow {
    /// The cells of its parts, in their order.
    ghost looks: { Self → List Look };

    /// How many they are.
    ghost count: { ℕ };

    /// Every row has as many.
    ghost counts: { (row : Self) → length (looks row) ≡ count };

    /// The keys after those of a row.
    fn behind<'a, 'b>(keys: &'a [&'b str]) -> &'a [&'b str]
        requires { count ≤ length keys.now }
        ensures { result.now ≡ drop count keys.now };

    /// Puts what the parts show among the members, each at its key.
    ///
    /// # Errors
    /// `AllocError` where memory ran out; the members then have some of it.
    fn put_into(
        &self,
        alloc: Global,
        tokens: bool,
        keys: &[&str],
        members: &mut Map<String, Json>,
    ) -> Result<(), AllocError>
        requires { count ≤ length keys.now }
        ensures { OnOk result (ArePut (without_origins tokens) (texts_of keys.now) (looks self.now)
            members.old.entries members.new.entries) };
}

impl<T: ToJson> PlainRow for One<&T> {
    ghost use Rattle.std.specs.Prelude.{refl};

    ghost looks = { λ row. plain_at (T.shown row.part.now) ∷ [] };

    ghost count = { 1 };

    ghost counts = { λ row. refl };

    fn behind<'a, 'b>(keys: &'a [&'b str]) -> &'a [&'b str] {
        &keys[1..]
    }

    fn put_into(
        &self,
        alloc: Global,
        tokens: bool,
        keys: &[&str],
        members: &mut Map<String, Json>,
    ) -> Result<(), AllocError> {
        let json = self.part.to_json(alloc, tokens)?;
        put_field(alloc, without_origins(tokens), members, keys[0], json)
    }
}

/// The second row first: where two parts have one key the first is kept.
impl<A: PlainRow, B: PlainRow> PlainRow for Pair<A, B> {
    ghost use Rattle.cc2_value.specs.RowCounts.{both_counts};

    ghost looks = { λ row. A.looks row.front ++ B.looks row.back };

    ghost count = { A.count + B.count };

    ghost counts = { λ row. both_counts (A.looks row.front) (B.looks row.back) A.count B.count
        (A.counts row.front) (B.counts row.back) };

    fn behind<'a, 'b>(keys: &'a [&'b str]) -> &'a [&'b str] {
        B::behind(A::behind(keys))
    }

    fn put_into(
        &self,
        alloc: Global,
        tokens: bool,
        keys: &[&str],
        members: &mut Map<String, Json>,
    ) -> Result<(), AllocError> {
        self.back.put_into(alloc, tokens, A::behind(keys), members)?;
        self.front.put_into(alloc, tokens, keys, members)
    }
}

/// A row of these parts: a shallow tree, for deep types are too large for the prover.
#[macro_export]
macro_rules! row_of {
    ($a:expr) => {
        cc2_leaf::One { part: $a }
    };
    ($a:expr, $b:expr) => {
        cc2_leaf::Pair { front: $crate::row_of!($a), back: $crate::row_of!($b) }
    };
    ($a:expr, $b:expr, $c:expr) => {
        cc2_leaf::Pair { front: $crate::row_of!($a, $b), back: $crate::row_of!($c) }
    };
    ($a:expr, $b:expr, $c:expr, $d:expr) => {
        cc2_leaf::Pair { front: $crate::row_of!($a, $b), back: $crate::row_of!($c, $d) }
    };
    ($a:expr, $b:expr, $c:expr, $d:expr, $($more:expr),+) => {
        cc2_leaf::Pair { front: $crate::row_of!($a, $b, $c, $d), back: $crate::row_of!($($more),+) }
    };
}

/// Puts what these fields show among the members, each at its key.
#[macro_export]
macro_rules! put_fields {
    ($alloc:ident, $tokens:ident, $own:ident, $members:ident; $($key:literal $field:ident $($meant:ident)?),* $(,)?) => {
        $crate::row_of!($(&$own.$field),*).put_into($alloc, $tokens, &[$($key),*], $members)
    };
}

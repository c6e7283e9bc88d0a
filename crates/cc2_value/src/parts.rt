//! The parts of a table as a row, for what is made of a table field by field.
ghost use Rattle.std.specs.Prelude.{◌≡◌, ◌≤◌, ◌+◌, ℕ, List, [], ◌∷◌, ◌++◌, length, drop};
ghost use Rattle.cc2_value.specs.Visits.{Look};

use crate::merge::MergeFrom;

/// A row of one part.
#[derive(Drop)]
pub struct One<T> {
    /// The part.
    pub part: T,
}

/// Two rows, one after the other. A row is a shallow tree of these: deep types are too large for the
/// prover.
#[derive(Drop)]
pub struct Pair<A, B> {
    /// The first.
    pub front: A,
    /// The second.
    pub back: B,
}

/// A row of two parts.
pub type Two<A, B> = Pair<One<A>, One<B>>;

/// A row of three parts.
pub type Three<A, B, C> = Pair<Two<A, B>, One<C>>;

/// A row of four parts.
pub type Four<A, B, C, D> = Pair<Two<A, B>, Two<C, D>>;

/// A row of eight parts.
pub type Eight<A, B, C, D, E, F, G, H> = Pair<Four<A, B, C, D>, Four<E, F, G, H>>;

/// A row of parts.
pub trait Parts: Drop {
    /// What its parts show, in their order.
    ghost shown: { Self → List Look };

    /// How many they are.
    ghost count: { ℕ };

    /// Every row has as many.
    ghost counts: { (row : Self) → length (shown row) ≡ count };

    /// The keys after those of a row.
    fn behind<'a>(keys: &'a [&'static str]) -> &'a [&'static str]
        requires { count ≤ length keys.now }
        ensures { result.now ≡ drop count keys.now };
}

impl<T: MergeFrom> Parts for One<T> {
    ghost use Rattle.std.specs.Prelude.{refl};

    ghost shown = { λ row. T.cell_at row.part ∷ [] };

    ghost count = { 1 };

    ghost counts = { λ row. refl };

    fn behind<'a>(keys: &'a [&'static str]) -> &'a [&'static str] {
        &keys[1..]
    }
}

impl<A: Parts, B: Parts> Parts for Pair<A, B> {
    ghost use Rattle.cc2_value.specs.RowCounts.{both_counts};

    ghost shown = { λ row. A.shown row.front ++ B.shown row.back };

    ghost count = { A.count + B.count };

    ghost counts = { λ row. both_counts (A.shown row.front) (B.shown row.back) A.count B.count
        (A.counts row.front) (B.counts row.back) };

    fn behind<'a>(keys: &'a [&'static str]) -> &'a [&'static str] {
        B::behind(A::behind(keys))
    }
}

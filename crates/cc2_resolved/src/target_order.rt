//! Targets are equal, ordered, hashed and serialized by the text that Cargo takes.
ghost use Rattle.std.specs.Prelude.{◌∷◌, [], Some, refl, bytes_eq};
ghost use Rattle.std.proofs.Common.{rules};
ghost use Rattle.std.specs.Ordering.{nat_cmp};
ghost use Rattle.std.specs.Hash as fed;
ghost use Rattle.std.specs.Cmp.{on_equiv, on_total, on_po, on_per, partial_equiv_from_equiv};
ghost use Rattle.std.specs.Cmp.Lexicographic.{slice_cmp, nat_list_eq_equiv, nat_list_cmp_total, texts_ties, texts_po};
ghost use Rattle.std.specs.Cmp.Rules.{hashing};
ghost use Rattle.serde.specs.Event.{text};
ghost use Rattle.cc2_resolved.specs.Events.{SendsAll};
ghost use Rattle.cc2_resolved.specs.Targets.{command_text};
ghost use Rattle.cc2_resolved.specs.ShownTargets.{target_at};

use crate::target_triple::TargetTripleRef;
use serde::{Described, Serialize, Serializer};
use std::cmp::Ordering;
use std::hash::{Hash, Hasher};

impl<'a> PartialEq for TargetTripleRef<'a> {
    ghost eq = { λ a b. bytes_eq (command_text (target_at a)) (command_text (target_at b)) };

    ghost laws = { on_per
        (λ a. command_text (target_at a)) (partial_equiv_from_equiv nat_list_eq_equiv) };

    fn eq(&self, other: &TargetTripleRef<'a>) -> bool {
        self.as_command_text() == other.as_command_text()
    }
}

impl<'a> Eq for TargetTripleRef<'a> {
    ghost laws = { on_equiv (λ a. command_text (target_at a)) nat_list_eq_equiv };
}

impl<'a> PartialOrd for TargetTripleRef<'a> {
    ghost partial_cmp = { λ a b.
        Some (slice_cmp nat_cmp (command_text (target_at a)) (command_text (target_at b))) };

    ghost laws = { on_po (λ a. command_text (target_at a)) texts_po };

    fn partial_cmp(&self, other: &TargetTripleRef<'a>) -> Option<Ordering> {
        Some(self.cmp(other))
    }
}

impl<'a> Ord for TargetTripleRef<'a> {
    ghost cmp = { λ a b.
        slice_cmp nat_cmp (command_text (target_at a)) (command_text (target_at b)) };

    ghost total = { on_total (λ a. command_text (target_at a)) nat_list_cmp_total };

    ghost matches_partial_cmp = { λ a b. refl };

    ghost matches_eq = { λ a b.
        texts_ties (command_text (target_at a)) (command_text (target_at b)) };

    fn cmp(&self, other: &TargetTripleRef<'a>) -> Ordering {
        self.as_command_text().cmp(other.as_command_text())
    }
}

impl<'a> Hash for TargetTripleRef<'a> {
    ghost hash_input = { λ a. fed.str (command_text (target_at a)) };

    ghost respects_eq = { Prim.search (hashing, rules) };

    fn hash<H: Hasher>(&self, state: &mut H) {
        self.as_command_text().hash(state);
    }
}

impl<'a> Described for TargetTripleRef<'a> {
    ghost writes = { λ a old new. SendsAll (text (command_text (target_at a)) ∷ []) old new };
}

/// The text as Cargo takes it.
impl<'a> Serialize for TargetTripleRef<'a> {
    fn serialize<S: Serializer>(&self, out: &mut S) -> Result<(), S::Error> {
        out.str(self.as_command_text())
    }
}

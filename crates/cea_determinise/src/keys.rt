//! States and transitions as keys of tables.
ghost use Rattle.std.specs.Prelude.{◌≡◌, ◌++◌, flat_map};
ghost use Rattle.std.specs.Cmp.{decided, partial_equiv_from_equiv};
ghost use Rattle.std.specs.Hash as fed;
ghost use Rattle.std.specs.Hash.{same_Alike};
ghost use Rattle.cer_base.specs.Bits.{words_of};
ghost use Rattle.cea_determinise.specs.Keys.{is_same_phase, are_same_sets, is_same_key, Decides-sets, Decides-key};

use crate::cea::{Phase, StateSets};
use crate::table::TransitionKey;
use std::hash::{Hash, Hasher};

impl Phase {
    /// Whether both are the same.
    fn is(self, other: Phase) -> bool
        ensures { result ≡ is_same_phase self other }
    {
        match (self, other) {
            (Phase::Before, Phase::Before) => true,
            (Phase::Within, Phase::Within) => true,
            (Phase::After, Phase::After) => true,
            _ => false,
        }
    }
}

impl PartialEq for StateSets {
    ghost eq = { are_same_sets };

    ghost laws = { partial_equiv_from_equiv (decided are_same_sets Decides-sets) };

    fn eq(&self, other: &StateSets) -> bool {
        self.fresh == other.fresh && (self.waiting == other.waiting && self.phase.is(other.phase))
    }
}

impl Eq for StateSets {
    ghost laws = { decided are_same_sets Decides-sets };
}

/// The phase is left out: it tells few states apart.
impl Hash for StateSets {
    ghost hash_input = { λ p. flat_map fed.u64 (words_of p.fresh)
        ++ flat_map fed.u64 (words_of p.waiting) };

    ghost respects_eq = { (same_Alike
        (λ p. flat_map fed.u64 (words_of p.fresh)
        ++ flat_map fed.u64 (words_of p.waiting)) Decides-sets).fed };

    fn hash<H: Hasher>(&self, state: &mut H) {
        self.fresh.hash(state);
        self.waiting.hash(state);
    }
}

impl PartialEq for TransitionKey {
    ghost eq = { is_same_key };

    ghost laws = { partial_equiv_from_equiv (decided is_same_key Decides-key) };

    fn eq(&self, other: &TransitionKey) -> bool {
        self.state == other.state && self.event_class == other.event_class
    }
}

impl Eq for TransitionKey {
    ghost laws = { decided is_same_key Decides-key };
}

impl Hash for TransitionKey {
    ghost hash_input = { λ p. fed.u64 p.state ++ fed.u64 p.event_class };

    ghost respects_eq = { (same_Alike
        (λ p. fed.u64 p.state ++ fed.u64 p.event_class) Decides-key).fed };

    fn hash<H: Hasher>(&self, state: &mut H) {
        self.state.hash(state);
        self.event_class.hash(state);
    }
}

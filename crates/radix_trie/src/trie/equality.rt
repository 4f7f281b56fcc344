//! Equality of tries.
ghost use Rattle.std.specs.Cmp.{and_equiv, on_equiv};
ghost use Rattle.std.specs.Cmp.Lexicographic.{lists_equiv, nat_list_eq_equiv};
ghost use Rattle.std.specs.FinMap as map;
ghost use Rattle.std.specs.Prelude.{◌≡◌, ◌↔◌, IsTrue};
ghost use Rattle.nibble_map.specs.Copies.{same_maps};
ghost use Rattle.nibble_map.specs.MapQueries.{IsSame};
ghost use Rattle.nibble_map.specs.Maps.{PairMap};
ghost use Rattle.nibble_map.proofs.MapLemmas.SameTests.{maps_per};

use crate::trie::Trie;
use radix_keys::TrieKey;
use radix_nodes::whole::same::same;

/// Two tries are equal where they store the same encodings, and at each encoding equal values. Keys
/// with one encoding aren't told apart. It walks the two trees side by side, and allocates nothing.
impl<K: TrieKey, V: PartialEq> PartialEq for Trie<K, V> {
    ghost eq = { same_maps V.eq };

    ghost laws = { maps_per V.eq V.laws };

    /// Whether both store the same encodings, and equal values at each.
    fn eq(&self, other: &Trie<K, V>) -> bool
        ensures computed { result ≡ same_maps V.eq self.now other.now }
        ensures same { IsTrue result ↔ IsSame V.eq self.now other.now }
    {
        same(self.root(), other.root())
    }
}

impl<K: TrieKey, V: Eq> Eq for Trie<K, V> {
    ghost laws = { on_equiv (λ (m : PairMap K V). map.entries m)
        (lists_equiv (and_equiv (on_equiv (λ e. e.0) nat_list_eq_equiv)
        (on_equiv (λ e. e.1.1) V.Eq.laws))) };
}

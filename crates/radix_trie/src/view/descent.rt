//! Searches that go on from where they are.
ghost use Rattle.std.specs.Prelude.{◌≡◌, ◌↔◌, ◌++◌, [], ℕ, List, IsTrue, option_map};
ghost use Rattle.std.specs.FinMap as map;
ghost use Rattle.radix_trie.specs.Walks.{deref_pair};

use crate::iter::key_value_of;
use crate::locus::Locus;
use crate::trie::Trie;
use radix_keys::{Nibblet, TrieKey};
use std::marker::Model;

/// An incremental search: where a list of nibbles, a point or not, has led in a trie that doesn't
/// change while the descent lives.
///
/// A few words in size, and it keeps no list: several may go on from one, as for a search with
/// choices. A contract sees it as the map of what the trie holds behind the list: each stored
/// encoding that the list is a prefix of, without the list.
#[derive(Drop)]
pub struct Descent<'a, K: TrieKey, V> {
    locus: Locus<'a, K, V>,
}

impl<'a, K: TrieKey, V> Model for Descent<'a, K, V> {
    ghost use Rattle.nibble_map.specs.Maps.{PairMap, pair_map_code};

    ghost Value = { PairMap K V };

    ghost coded = { pair_map_code K.code V.code };

    ghost use Rattle.radix_trie.specs.Descents.{map_behind_path};
    ghost use Rattle.radix_trie.specs.Loci.{IsSomeLocus};

    ghost view = { λ d. map_behind_path d.locus.found };

    ghost invariant = { λ d. IsSomeLocus K.encoding d.locus };
}

impl<K: TrieKey, V> Trie<K, V> {
    /// The descent at the empty list. It allocates nothing.
    pub fn descent(&self) -> Descent<'_, K, V>
        ensures { result ≡ self.now }
    {
        Descent {
            locus: Locus::at(self, self.root(), self.top()),
        }
    }
}

impl<'a, K: TrieKey, V> Descent<'a, K, V> {
    /// The descent that goes on from this one by a list. It lives as long as the trie's borrow.
    ///
    /// It allocates nothing, and its time grows with the list's nibbles, not with those before.
    pub fn below(&self, list: &Nibblet) -> Descent<'a, K, V>
        ensures { (q : List ℕ) → map.get result q ≡ map.get self.now (list.now ++ q) }
    {
        Descent {
            locus: self.locus.below(list),
        }
    }

    /// The key and the value that are stored at the list, if a pair is. They live as long as the
    /// trie's borrow. It takes constant time.
    pub fn get_key_value(&self) -> Option<(&'a K, &'a V)>
        ensures { option_map deref_pair result ≡ map.get self.now [] }
    {
        key_value_of(self.locus.pair())
    }

    /// Whether the list is a prefix of no stored encoding. It takes constant time.
    pub fn is_empty(&self) -> bool
        ensures { IsTrue result ↔ (map.len self.now ≡ 0) }
    {
        self.locus.is_empty()
    }
}

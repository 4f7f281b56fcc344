//! A frozen trie, made a trie again.
ghost use Rattle.std.specs.Prelude.{◌≡◌, ◌++◌, [], IfOk, IfErr, IsOk};
ghost use Rattle.std.specs.FinMap as map;
ghost use Rattle.radix_trie.specs.Views.{pairs_below};

use crate::frozen::FrozenTrie;
use radix_keys::{Memory, Refused, TrieKey};
use radix_trie::Trie;

impl<K: TrieKey + Drop, V: Drop> FrozenTrie<K, V> {
    /// The same map, as a trie. The pairs are moved into it, from the last to the first.
    ///
    /// # Errors
    ///
    /// An allocation fails, for a key's encoding or a node of the trie; of no pair it never does.
    /// No pair is lost, and none is dropped: the first ones come back in the order of their
    /// encodings, and with them the trie of the others, so that a caller can go on where the call
    /// stopped.
    pub fn thaw(self) -> Result<Trie<K, V>, Refused<Memory, (Vec<(K, V)>, Trie<K, V>)>>
        ensures same { IfOk result (λ trie. trie ≡ self) }
        ensures handed_back { IfErr result
            (λ e. e.back.0.items ++ pairs_below e.back.1 [] ≡ pairs_below self []) }
        ensures none { map.len self ≡ 0 → IsOk result }
    {
        let (pairs, alloc) = self.into_parts();
        let mut rest = pairs;
        let mut trie = Trie::new(alloc);
        while let Some((key, value)) = rest.pop() {
            if let Err(refused) = trie.insert(key, value) {
                // There is room for the pair that was taken.
                rest.push_reserved((refused.key, refused.value));
                let (why, back) = (Memory, (rest, trie));
                return Err(Refused { why, back });
            }
        }
        Ok(trie)
    }
}

//! Queries of a trie that make no view: what stands above and below a key's place.
ghost use Rattle.std.specs.Prelude.{◌≡◌, IsOk, IfOk, option_copied, option_map};
ghost use Rattle.std.specs.FinMap as map;
ghost use Rattle.nibble_map.specs.Maps.{below};
ghost use Rattle.radix_trie.specs.Views.{IsPairAbove, IsValueAbove, pairs_above, pairs_below};
ghost use Rattle.radix_trie.specs.Walks.{deref_pair};

use crate::iter::{CommonPrefixes, Cursor};
use crate::locus::Locus;
use crate::trie::Trie;
use radix_keys::{Memory, TrieKey};

impl<K: TrieKey, V> Trie<K, V> {
    /// The value of the longest stored list that is a prefix of the key's encoding, or None where
    /// there is none.
    ///
    /// # Errors
    ///
    /// `Memory`: the encoding's allocation fails; an inline key needs none.
    ///
    /// # Examples
    ///
    /// ```
    /// # use nifazombi::{radix_trie::Trie, rattle_std::alloc::Global};
    /// let limits = [("/home/ann/", 30), ("/", 10), ("/home/", 20)];
    /// let limits = Trie::from_iter(Global, limits.into_iter())?;
    /// assert_eq!(limits.get_ancestor_value(&"/home/ann/letters")?, Some(&30));
    /// # Ok::<(), Box<dyn std::error::Error>>(())
    /// ```
    ///
    /// `inherited` in `crates/trie_examples/src/uses.rt` proves that the nearest path decides.
    pub fn get_ancestor_value<Q: TrieKey>(&self, key: &Q) -> Result<Option<&V>, Memory>
        ensures value { IfOk result
            (λ found. IsValueAbove self.now (Q.encoding key.now) (option_copied found)) }
        ensures inline { Q.is_inline key.now → IsOk result }
    {
        let list = key.encode(self.allocator())?;
        Ok(self.nearest_value(&list))
    }

    /// The key and the value at the longest stored list that is a prefix of the key's encoding, or
    /// None where there is none.
    ///
    /// # Errors
    ///
    /// `Memory`: the encoding's allocation fails; an inline key needs none.
    pub fn longest_match<Q: TrieKey>(&self, key: &Q) -> Result<Option<(&K, &V)>, Memory>
        ensures pair { IfOk result (λ found. IsPairAbove self.now (Q.encoding key.now)
            (option_map deref_pair found)) }
        ensures inline { Q.is_inline key.now → IsOk result }
    {
        let list = key.encode(self.allocator())?;
        Ok(self.nearest(&list))
    }

    /// The walk over the pairs whose encodings begin with the key's, in order. It begins in the
    /// time of a lookup, and allocates as it goes.
    ///
    /// The key needn't be stored, nor be a point.
    ///
    /// # Errors
    ///
    /// `Memory`: the encoding's allocation fails; an inline key needs none.
    pub fn below<Q: TrieKey>(&self, key: &Q) -> Result<Cursor<'_, K, V>, Memory>
        ensures walk { IfOk result
            (λ walk. walk ≡ pairs_below self.now (Q.encoding key.now)) }
        ensures inline { Q.is_inline key.now → IsOk result }
    {
        let list = key.encode(self.allocator())?;
        Ok(Locus::find(self, &list).cursor())
    }

    /// The count of pairs at and below the key. They are counted, so the time grows with
    /// their number.
    ///
    /// The key needn't be stored, nor be a point.
    ///
    /// # Errors
    ///
    /// `Memory`: the encoding's allocation fails; an inline key needs none.
    pub fn count_below<Q: TrieKey>(&self, key: &Q) -> Result<usize, Memory>
        ensures count { IfOk result
            (λ count. count ≡ map.len (below self.now (Q.encoding key.now))) }
        ensures inline { Q.is_inline key.now → IsOk result }
    {
        let list = key.encode(self.allocator())?;
        Ok(Locus::find(self, &list).len())
    }

    /// The walk over all pairs whose encodings are prefixes of the key's encoding, from the
    /// shortest to the longest. Its `next` allocates nothing, and the whole walk takes the time of
    /// one lookup.
    ///
    /// # Errors
    ///
    /// `Memory`: the encoding's allocation fails; an inline key needs none.
    ///
    /// # Examples
    ///
    /// ```
    /// # use nifazombi::{radix_trie::Trie, rattle_std::alloc::Global};
    /// let limits = Trie::from_iter(Global, [("/home/", 20), ("/", 10)].into_iter())?;
    /// let above = limits.common_prefixes(&"/home/ann/")?;
    /// assert!(above.eq([(&"/", &10), (&"/home/", &20)]));
    /// # Ok::<(), Box<dyn std::error::Error>>(())
    /// ```
    pub fn common_prefixes<Q: TrieKey>(&self, key: &Q) -> Result<CommonPrefixes<'_, K, V>, Memory>
        ensures walk { IfOk result
            (λ pairs. pairs ≡ pairs_above self.now (Q.encoding key.now)) }
        ensures inline { Q.is_inline key.now → IsOk result }
    {
        let list = key.encode(self.allocator())?;
        Ok(CommonPrefixes::new(self.root(), list))
    }
}

//! Pages: a few pairs at a time, in the order of the encodings.
ghost use Rattle.std.specs.Prelude.{◌≡◌, IsOk, IfOk, take};
ghost use Rattle.std.specs.FinMap as map;
ghost use Rattle.nibble_map.specs.Maps.{below};
ghost use Rattle.radix_trie.specs.Views.{pairs_after, pairs_below};
ghost use Rattle.radix_trie.specs.Walks.{deref_pairs};

use crate::iter::{Cursor, first_pairs};
use crate::locus::{Limits, Locus};
use crate::trie::Trie;
use radix_keys::{Memory, Nibblet, TrieKey};
use std::ops::Bound;

impl<K: TrieKey, V> Trie<K, V> {
    /// The first pairs at and below the key, in the order of their encodings: `most` of
    /// them, or all where there are fewer. The time grows with `most` and the depth, and not with
    /// how many pairs stand there.
    ///
    /// The key needn't be stored, nor be a point.
    ///
    /// # Errors
    ///
    /// `Memory`: an allocation fails, for the encoding or the list of pairs.
    ///
    /// # Examples
    ///
    /// ```
    /// # use nifazombi::{radix_trie::Trie, rattle_std::alloc::Global};
    /// let words = Trie::from_iter(Global, [("tea", 1), ("team", 2), ("ten", 3)].into_iter())?;
    /// let first = words.first_below(&"te", 2)?;
    /// let second = words.first_after(&"te", first[1].0, 2)?;
    /// assert!(first[1] == (&"team", &2) && second.as_slice() == [(&"ten", &3)]);
    /// # Ok::<(), Box<dyn std::error::Error>>(())
    /// ```
    ///
    /// `two_pages` in `crates/trie_examples/src/pages.rt` proves that it misses no word.
    pub fn first_below<Q: TrieKey>(&self, key: &Q, most: usize) -> Result<Vec<(&K, &V)>, Memory>
        ensures pairs { IfOk result (λ list. deref_pairs list.items
            ≡ take most (pairs_below self.now (Q.encoding key.now))) }
        ensures inline_no_page { Q.is_inline key.now → most ≡ 0 → IsOk result }
        ensures inline_none { Q.is_inline key.now
            → map.len (below self.now (Q.encoding key.now)) ≡ 0
            → IsOk result }
    {
        let list = key.encode(self.allocator())?;
        self.page_below(&list, most)
    }

    /// The first pairs at and below the key whose encodings come strictly after that of
    /// `last`, in the order of their encodings: `most` of them, or all where there are fewer. So
    /// the page after one whose last key is `last`. The time is that of a lookup and of the page,
    /// and doesn't grow with how many pairs stand there or come before.
    ///
    /// The keys needn't be stored, nor be points, and `last` needn't lie below the key's place.
    ///
    /// # Errors
    ///
    /// `Memory`: an allocation fails, for an encoding, for a row of nodes on the way or for the
    /// list of pairs.
    pub fn first_after<Q: TrieKey, R: TrieKey>(
        &self,
        key: &Q,
        last: &R,
        most: usize,
    ) -> Result<Vec<(&K, &V)>, Memory>
        ensures pairs { IfOk result (λ list. deref_pairs list.items
            ≡ take most (pairs_after self.now (Q.encoding key.now) (R.encoding last.now))) }
        ensures inline_no_page { Q.is_inline key.now → most ≡ 0 → IsOk result }
        ensures inline_none { Q.is_inline key.now
            → R.is_inline last.now
            → map.len (below self.now (Q.encoding key.now)) ≡ 0
            → IsOk result }
    {
        let list = key.encode(self.allocator())?;
        if most == 0 {
            return Ok(Vec::new(self.allocator()));
        }
        let last = last.encode(self.allocator())?;
        let limits = Limits::of(&list, Bound::Excluded(&last), Bound::Unbounded);
        let frames = Locus::find(self, &list).frames(limits)?;
        first_pairs(self.allocator(), Cursor::of(self.allocator(), frames), most)
    }

    /// The first pairs at and below a list, `most` of them where there are so many.
    pub(crate) fn page_below(&self, list: &Nibblet, most: usize) -> Result<Vec<(&K, &V)>, Memory>
        ensures pairs { IfOk result (λ page. deref_pairs page.items
            ≡ take most (pairs_below self.now list.now)) }
        ensures no_page { most ≡ 0 → IsOk result }
        ensures none { map.len (below self.now list.now) ≡ 0 → IsOk result }
    {
        first_pairs(self.allocator(), Locus::find(self, list).cursor(), most)
    }
}

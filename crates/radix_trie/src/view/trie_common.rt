//! What tries and views have in common.
ghost use Rattle.std.specs.Prelude.{◌≡◌, ◌<◌, ◌^◌, ◌-◌, ◌↔◌, [], ℕ, List, IsTrue, IsOk, IfOk, length, map as each, option_copied, option_map, reverse, slice_get};
ghost use Rattle.std.specs.FinMap as finite;
ghost use Rattle.nibble_map.specs.Lists.{Each};
ghost use Rattle.nibble_map.specs.MapQueries.{IsLeaf};
ghost use Rattle.nibble_map.specs.Maps.{PairMap, below, value_at, walk};
ghost use Rattle.nibble_map.specs.Nibbles.{IsShort};
ghost use Rattle.radix_trie.specs.Views.{IsInlineBound, encoded_bound, pairs_below, pairs_within};
ghost use Rattle.radix_trie.specs.Walks.{HasFullRows, deref_pair, left_rows, stacked};

use crate::iter::{Cursor, CursorBack, Frame, Iter, Keys, Values, key_of, key_value_of, value_of};
use crate::locus::{Limits, encoded};
use crate::view::locate::Locate;
use radix_keys::{Memory, Nibblet, TrieKey};
use std::ops::RangeBounds;

/// What a trie and its views return, by the map of the trie and a path in it. The path of a trie is
/// the empty list.
///
/// What comes from a trie or a view for reading lasts as long as the trie's borrow. `children` is a
/// call of each of these types, and none of the trait.
pub trait TrieCommon<'a, K: TrieKey + 'a, V: 'a>: Sized {
    /// The map of the whole trie.
    ghost map: { Self → PairMap K V };

    /// The path, a point of the map or not.
    ghost path: { Self → List ℕ };

    /// What `prefix` returns: the fragment at the path; of a view for writing the fragment that it
    /// was made with.
    ghost is_prefix: { Self → List ℕ → Type 0 };

    /// The key that is stored at the path.
    fn key(self) -> Option<&'a K>
        ensures { option_copied result
            ≡ option_map (λ p. p.0) (finite.get (map self) (path self)) };

    /// The value that is stored at the path.
    fn value(self) -> Option<&'a V>
        ensures { option_copied result ≡ value_at (map self) (path self) };

    /// The count of pairs at and below the path. A trie knows its own; a view's are counted, so the
    /// time grows with their number.
    fn len(self) -> usize
        ensures { result ≡ finite.len (below (map self) (path self)) };

    /// Whether no pair is at or below the path.
    fn is_empty(self) -> bool
        ensures { IsTrue result ↔ (finite.len (below (map self) (path self)) ≡ 0) };

    /// Whether no pair is strictly below the path.
    fn is_leaf(self) -> bool
        ensures { IsTrue result ↔ IsLeaf (map self) (path self) };

    /// The walk over the pairs at and below the path, in the order of their encodings, a prefix
    /// before its extensions.
    ///
    /// All memory that the walk needs is allocated here: its `next` allocates none. To know how
    /// much that is, it goes over all nodes at and below the path once, before the first pair. Each
    /// step takes time up to the depth below the path, and the whole walk the time of the nodes
    /// there. For a few pairs there is `cursor`, or a page of `Trie::first_below`.
    ///
    /// # Errors
    ///
    /// `Memory`: the walk's allocation fails. Its size grows with the height below the path, and
    /// not with the count of pairs, so none is made where no pair is strictly below the path.
    ///
    /// # Examples
    ///
    /// ```
    /// # use nifazombi::{radix_trie::prelude::*, rattle_std::alloc::Global};
    /// let limits = Trie::from_iter(Global, [("/home/", 20), ("/", 10)].into_iter())?;
    /// for (path, limit) in limits.iter()? {
    ///     println!("{path} {limit}");
    /// }
    /// assert!(limits.iter()?.eq([(&"/", &10), (&"/home/", &20)]));
    /// # Ok::<(), Box<dyn std::error::Error>>(())
    /// ```
    ///
    /// `in_order` in `crates/trie_examples/src/cited.rt` proves that the keys' encodings rise.
    fn iter(self) -> Result<Iter<'a, K, V>, Memory>
        ensures walk { IfOk result (λ pairs. pairs ≡ pairs_below (map self) (path self)) }
        ensures keyed { Each (λ e. e.0 ≡ K.encoding e.1.0) (walk (map self) (path self)) }
        ensures countable { IfOk result (λ pairs. length pairs < 2 ^ 64) }
        ensures none { finite.len (below (map self) (path self)) ≡ 0 → IsOk result }
        ensures leaf { IsLeaf (map self) (path self) → IsOk result };

    /// The keys of the walk of `iter`, in its time.
    ///
    /// # Errors
    ///
    /// Those of `iter`.
    fn keys(self) -> Result<Keys<'a, K, V>, Memory>
        ensures walk { IfOk result
            (λ keys. keys ≡ each (λ p. p.0) (pairs_below (map self) (path self))) }
        ensures countable { IfOk result (λ keys. length keys < 2 ^ 64) }
        ensures none { finite.len (below (map self) (path self)) ≡ 0 → IsOk result }
        ensures leaf { IsLeaf (map self) (path self) → IsOk result };

    /// The values of the walk of `iter`, in its time.
    ///
    /// # Errors
    ///
    /// Those of `iter`.
    fn values(self) -> Result<Values<'a, K, V>, Memory>
        ensures walk { IfOk result
            (λ values. values ≡ each (λ p. p.1) (pairs_below (map self) (path self))) }
        ensures countable { IfOk result (λ values. length values < 2 ^ 64) }
        ensures none { finite.len (below (map self) (path self)) ≡ 0 → IsOk result }
        ensures leaf { IsLeaf (map self) (path self) → IsOk result };

    /// The walk over the pairs at and below the path, as that of `iter`, which allocates as it
    /// goes.
    ///
    /// It begins in the time of the way down to the path, and allocates nothing then. Each step
    /// takes time up to the depth below the path, and a whole walk as much as that of `iter`.
    /// Memory for at most a row of nodes for each level below the path is allocated as the steps
    /// need it, so a step may fail.
    ///
    /// # Examples
    ///
    /// ```
    /// # use nifazombi::{radix_trie::prelude::*, rattle_std::alloc::Global};
    /// let log = Trie::from_iter(Global, [(1_300, "asked"), (1_200, "opened")].into_iter())?;
    /// let mut whole = log.cursor();
    /// assert_eq!(whole.next()?, Some((&1_200, &"opened")));
    /// # Ok::<(), Box<dyn std::error::Error>>(())
    /// ```
    fn cursor(self) -> Cursor<'a, K, V>
        ensures walk { result ≡ pairs_below (map self) (path self) }
        ensures keyed { Each (λ e. e.0 ≡ K.encoding e.1.0) (walk (map self) (path self)) }
        ensures countable { length result < 2 ^ 64 };

    /// The walk over the pairs at and below the path from the last to the first: in the falling
    /// order of their encodings, the extensions of a prefix before it. It takes the time and the
    /// memory of that of `cursor`.
    fn cursor_back(self) -> CursorBack<'a, K, V>
        ensures walk { result ≡ reverse (pairs_below (map self) (path self)) }
        ensures keyed { Each (λ e. e.0 ≡ K.encoding e.1.0) (walk (map self) (path self)) }
        ensures countable { length result < 2 ^ 64 };

    /// The walk of `cursor` over the pairs at and below the path whose encodings lie within a range
    /// of keys, by the order of the encodings. The keys needn't be stored, nor lie below the path.
    /// Where the first comes after the last, no pair lies between.
    ///
    /// A walk that was left at a key goes on by `(Excluded(&key), Unbounded)`. It begins in the
    /// time of a lookup of each of the two keys. Its steps take the time and the memory of those of
    /// `cursor`, and encode no key.
    ///
    /// # Errors
    ///
    /// `Memory`: an allocation fails, for a key's encoding or for the rows on the way down. Inline
    /// keys need none where no pair is within the range.
    ///
    /// # Examples
    ///
    /// ```
    /// # use nifazombi::{radix_trie::prelude::*, rattle_std::alloc::Global};
    /// let lines = [(1_300, "asked"), (1_200, "opened"), (1_250, "read")];
    /// let log: Trie<u64, &str> = Trie::from_iter(Global, lines.into_iter())?;
    /// let mut walk = log.range(1_201..1_300u64)?;
    /// assert!(walk.next()? == Some((&1_250, &"read")) && walk.next()?.is_none());
    /// # Ok::<(), Box<dyn std::error::Error>>(())
    /// ```
    fn range<Q: TrieKey, R: RangeBounds<Q>>(self, range: R) -> Result<Cursor<'a, K, V>, Memory>
        ensures walk { R.has_bounds range → IfOk result (λ pairs. pairs
            ≡ pairs_within (map self) (path self)
            (encoded_bound Q.encoding (R.start_bound range))
            (encoded_bound Q.encoding (R.end_bound range))) }
        ensures countable { IfOk result (λ pairs. length pairs < 2 ^ 64) }
        ensures inline_none { R.has_bounds range
            → IsInlineBound Q.is_inline (R.start_bound range)
            → IsInlineBound Q.is_inline (R.end_bound range)
            → pairs_within (map self) (path self)
            (encoded_bound Q.encoding (R.start_bound range))
            (encoded_bound Q.encoding (R.end_bound range)) ≡ []
            → IsOk result };

    /// The walk of `range` from the last pair to the first, with the time and the memory of that
    /// walk.
    ///
    /// # Errors
    ///
    /// Those of `range`.
    fn range_back<Q: TrieKey, R: RangeBounds<Q>>(
        self,
        range: R,
    ) -> Result<CursorBack<'a, K, V>, Memory>
        ensures walk { R.has_bounds range → IfOk result (λ pairs. pairs
            ≡ reverse (pairs_within (map self) (path self)
            (encoded_bound Q.encoding (R.start_bound range))
            (encoded_bound Q.encoding (R.end_bound range)))) }
        ensures countable { IfOk result (λ pairs. length pairs < 2 ^ 64) }
        ensures inline_none { R.has_bounds range
            → IsInlineBound Q.is_inline (R.start_bound range)
            → IsInlineBound Q.is_inline (R.end_bound range)
            → pairs_within (map self) (path self)
            (encoded_bound Q.encoding (R.start_bound range))
            (encoded_bound Q.encoding (R.end_bound range)) ≡ []
            → IsOk result };

    /// The key and the value of the first pair at and below the path, in the order of the
    /// encodings, if there is one. It allocates nothing, and takes the time of the way down to the
    /// pair.
    fn first_key_value(self) -> Option<(&'a K, &'a V)>
        ensures { option_map deref_pair result
            ≡ slice_get (pairs_below (map self) (path self)) 0 };

    /// The key and the value of the last pair at and below the path, in the order of the encodings,
    /// if there is one. It allocates nothing, and takes the time of the way down to the pair.
    fn last_key_value(self) -> Option<(&'a K, &'a V)>
        ensures { option_map deref_pair result
            ≡ slice_get (pairs_below (map self) (path self))
            (length (pairs_below (map self) (path self)) - 1) };

    /// The fragment, what the path has beyond the longest point strictly above it.
    ///
    /// # Errors
    ///
    /// `Memory`: the fragment's allocation fails; up to 32 nibbles need none.
    fn prefix(self) -> Result<Nibblet, Memory>
        ensures fragment { IfOk result (λ f. is_prefix self f) }
        ensures short { ((f : List ℕ) → is_prefix self f → IsShort f) → IsOk result };
}

impl<'a, K: TrieKey + 'a, V: 'a, T: Locate<'a, K, V>> TrieCommon<'a, K, V> for T {
    ghost map = { λ t. T.Locate.map t };

    ghost path = { λ t. T.Locate.path t };

    ghost is_prefix = { λ t. T.Locate.is_prefix t };

    fn key(self) -> Option<&'a K> {
        key_of(self.locus().pair())
    }

    fn value(self) -> Option<&'a V> {
        value_of(self.locus().pair())
    }

    fn len(self) -> usize {
        self.count()
    }

    fn is_empty(self) -> bool {
        self.locus().is_empty()
    }

    fn is_leaf(self) -> bool {
        self.locus().is_leaf()
    }

    fn iter(self) -> Result<Iter<'a, K, V>, Memory> {
        self.locus().cursor().reserved()
    }

    fn keys(self) -> Result<Keys<'a, K, V>, Memory> {
        Ok(Keys::new(TrieCommon::iter(self)?))
    }

    fn values(self) -> Result<Values<'a, K, V>, Memory> {
        Ok(Values::new(TrieCommon::iter(self)?))
    }

    fn cursor(self) -> Cursor<'a, K, V> {
        self.locus().cursor()
    }

    fn cursor_back(self) -> CursorBack<'a, K, V> {
        self.locus().cursor_back()
    }

    fn range<Q: TrieKey, R: RangeBounds<Q>>(self, range: R) -> Result<Cursor<'a, K, V>, Memory> {
        let alloc = self.allocator();
        Ok(Cursor::of(alloc, frames_in(self, range)?))
    }

    fn range_back<Q: TrieKey, R: RangeBounds<Q>>(
        self,
        range: R,
    ) -> Result<CursorBack<'a, K, V>, Memory> {
        let alloc = self.allocator();
        Ok(CursorBack::of(alloc, frames_in(self, range)?))
    }

    fn first_key_value(self) -> Option<(&'a K, &'a V)> {
        key_value_of(self.locus().first())
    }

    fn last_key_value(self) -> Option<(&'a K, &'a V)> {
        key_value_of(self.locus().last())
    }

    fn prefix(self) -> Result<Nibblet, Memory> {
        self.fragment().clone()
    }
}

/// The rows of the walk over the pairs at and below a path whose encodings lie within a range of
/// keys.
fn frames_in<'a, K: TrieKey + 'a, V: 'a, T: Locate<'a, K, V>, Q: TrieKey, R: RangeBounds<Q>>(
    at: T,
    range: R,
) -> Result<Vec<Frame<'a, K, V>>, Memory>
    ensures walk { R.has_bounds range → IfOk result (λ frames. stacked frames.items
        ≡ pairs_within (T.Locate.map at) (T.Locate.path at)
        (encoded_bound Q.encoding (R.start_bound range))
        (encoded_bound Q.encoding (R.end_bound range))) }
    ensures countable { IfOk result (λ frames. length (stacked frames.items) < 2 ^ 64) }
    ensures rows { IfOk result (λ frames. HasFullRows (left_rows frames.items)) }
    ensures inline_none { R.has_bounds range
        → IsInlineBound Q.is_inline (R.start_bound range)
        → IsInlineBound Q.is_inline (R.end_bound range)
        → pairs_within (T.Locate.map at) (T.Locate.path at)
        (encoded_bound Q.encoding (R.start_bound range))
        (encoded_bound Q.encoding (R.end_bound range)) ≡ []
        → IsOk result }
{
    let alloc = at.allocator();
    let low = encoded(range.start_bound(), alloc)?;
    let high = encoded(range.end_bound(), alloc)?;
    let limits = Limits::of(at.path(), low.as_ref(), high.as_ref());
    at.locus().frames(limits)
}

//! Keys of two sets side by side.
ghost use Rattle.std.specs.FinMap as map;
ghost use Rattle.std.specs.Prelude.{◌≡◌, [], IsOk, IfOk, OnOk, OnErr, drop, option_copied, slice_get};
ghost use Rattle.radix_trie.specs.Sets.{combined};
ghost use Rattle.trie_set.specs.Sets.{keys_in};

use crate::set::key_behind;
use radix_trie::iter::{Combination, Operation};
use radix_trie::{Memory, Trie, TrieKey};
use std::marker::Model;

/// A walk over keys of two sets: each encoding once, in their order. Of two keys with one encoding
/// the first set's is given.
///
/// A step may fail, since it may allocate: memory for the rows of nodes beside the ways down.
/// The same keys are left then. A contract sees the walk as the list of the keys that are left.
#[derive(Drop)]
pub struct Selection<'a, K> {
    pairs: Combination<'a, K, ()>,
}

impl<'a, K> Model for Selection<'a, K> {
    ghost use Rattle.std.specs.Prelude.{List, map};

    ghost Value = { List K };

    ghost view = { λ w. map (λ (p : K × Unit {0}). p.0) w.pairs };
}

impl<'a, K> Selection<'a, K> {
    /// The walk over the keys of two tries by an operation.
    pub(crate) fn new(
        first: &'a Trie<K, ()>,
        second: &'a Trie<K, ()>,
        operation: Operation,
    ) -> Result<Selection<'a, K>, Memory>
    where
        K: TrieKey,
        ensures keys { IfOk result
            (λ walk. walk ≡ keys_in (combined operation first.now second.now)) }
        ensures none { map.len first.now ≡ 0 → map.len second.now ≡ 0 → IsOk result }
    {
        Ok(Selection {
            pairs: Combination::new(first, second, operation)?,
        })
    }

    /// The next key, in the order of the encodings, or None where none is left, and then at each
    /// further call. No key is encoded. The key behind it is looked for too.
    ///
    /// # Errors
    ///
    /// An allocation fails, for rows of nodes that are put aside. Then the same keys are left, and
    /// the next call goes on where this one stopped. At the end nothing fails.
    pub fn next(&mut self) -> Result<Option<&'a K>, Memory>
        ensures key { IfOk result (λ key. option_copied key ≡ slice_get self.old 0) }
        ensures rest { OnOk result (self.new ≡ drop 1 self.old) }
        ensures unchanged { OnErr result (self.new ≡ self.old) }
        ensures end { self.old ≡ [] → IsOk result }
    {
        Ok(key_behind(self.pairs.next()?))
    }
}

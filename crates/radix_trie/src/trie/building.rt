//! Tries built from pairs.
ghost use Rattle.std.specs.FinMap as map;
ghost use Rattle.std.specs.Prelude.{◌≡◌, ◌≢◌, ⊤, [], IsOk, IfOk, IfErr, OnOk};
ghost use Rattle.std.specs.Iterator.{IsFinite};
ghost use Rattle.std.specs.Iterator.Runs.{SomeRun, WholeRun};
ghost use Rattle.radix_trie.specs.Building.{IsPartlyMerged, IsRefusedAtLast, IsStoppedAt, pairs_in_order, why_of, with_pairs};
ghost use Rattle.radix_trie.specs.Keys.{IsKeyed};
ghost use Rattle.radix_trie.specs.Refusals.{RefusesInsert};
ghost use Rattle.radix_trie.specs.Views.{pairs_below};

use crate::error::{BuildError, InsertError, InsertWhy, MergeError};
use crate::trie::Trie;
use radix_keys::TrieKey;
use std::alloc::Global;

impl<K: TrieKey + Drop, V: Drop> Trie<K, V> {
    /// The trie of an iterator's pairs, inserted in order, each in the time of an `insert`: of the
    /// pairs with one encoding the last one stays, with its key.
    ///
    /// The iterator has to end.
    ///
    /// # Errors
    ///
    /// Those of `insert`, for one of the pairs, so never where there is none. The pairs that were
    /// stored are dropped then, and so is the iterator.
    ///
    /// # Examples
    ///
    /// ```
    /// # use nifazombi::{radix_trie::Trie, rattle_std::alloc::Global};
    /// let lines = [(1_300, "asked"), (1_200, "opened"), (1_250, "read")];
    /// let log: Trie<u64, &str> = Trie::from_iter(Global, lines.into_iter())?;
    /// assert!(log.len() == 3 && log.get(&1_250u64)? == Some(&"read"));
    /// # Ok::<(), Box<dyn std::error::Error>>(())
    /// ```
    pub fn from_iter<I: Iterator<Item = (K, V)> + Drop>(
        alloc: Global,
        iter: I,
    ) -> Result<Trie<K, V>, BuildError>
        requires can { I.can_next iter }
        requires ends { IsFinite (I.remaining iter) }
        ensures pairs { IfOk result (λ trie.
            WholeRun I.next_gives iter (λ p. trie ≡ pairs_in_order K.encoding p.items)) }
        ensures why { IfErr result (λ e. SomeRun I.next_gives iter
            (λ p. IsRefusedAtLast K.encoding K.is_inline p.items e)) }
        ensures keyed { IfOk result (IsKeyed K.encoding K.is_value) }
    {
        let mut trie = Trie::new(alloc);
        match trie.extend(iter) {
            Ok(()) => Ok(trie),
            Err(error) => Err(why_not_built(error)),
        }
    }

    /// Inserts an iterator's pairs in order, each in the time of an `insert`: of the pairs with one
    /// encoding the last one stays, with its key.
    ///
    /// The iterator has to end.
    ///
    /// # Errors
    ///
    /// Those of `insert`, for one of the pairs: the error holds that pair, those before it are
    /// stored, and the iterator is dropped with those behind it.
    pub fn extend<I: Iterator<Item = (K, V)> + Drop>(
        &mut self,
        iter: I,
    ) -> Result<(), InsertError<K, V>>
        requires can { I.can_next iter }
        requires ends { IsFinite (I.remaining iter) }
        ensures pairs { OnOk result (WholeRun I.next_gives iter
            (λ p. self.new ≡ with_pairs K.encoding self.old p.items)) }
        ensures stopped { IfErr result (λ e. SomeRun I.next_gives iter
            (λ p. IsStoppedAt K.encoding self.old self.new p.items (e.key, e.value))) }
        ensures why { IfErr result
            (λ e. RefusesInsert self.new (K.encoding e.key) ⊤ (K.is_inline e.key) e.why) }
        ensures keyed { IsKeyed K.encoding K.is_value self.old
            → IsKeyed K.encoding K.is_value self.new }
    {
        for (key, value) in iter {
            if let Err(error) = self.insert(key, value) {
                return Err(error);
            }
        }
        Ok(())
    }

    /// Moves all pairs of another trie here, in the order of their encodings, each in the time of
    /// an `insert`: where both have a pair at an encoding, that of the other trie stays, with its
    /// key. Where they don't overlap, `graft` takes the time of one lookup.
    ///
    /// # Errors
    ///
    /// `Memory`: the allocation of the list of the other trie's pairs fails, before anything
    /// changes. `Stopped`: the `insert` of one of these pairs fails. Those before it are stored
    /// then, and no pair is lost.
    pub fn merge(&mut self, other: Trie<K, V>) -> Result<(), MergeError<K, V>>
        ensures merged { OnOk result
            (self.new ≡ with_pairs K.encoding self.old (pairs_below other [])) }
        ensures stopped { IfErr result
            (λ e. IsPartlyMerged K.encoding K.is_inline self.old other self.new e) }
        ensures keyed { IsKeyed K.encoding K.is_value self.old
            → IsKeyed K.encoding K.is_value self.new }
        ensures none { map.len other ≡ 0 → IsOk result }
    {
        let pairs = match other.into_pairs() {
            Ok(pairs) => pairs,
            Err(other) => return Err(MergeError::Memory(other)),
        };
        let mut rest = pairs.into_iter();
        while let Some((key, value)) = rest.next() {
            if let Err(error) = self.insert(key, value) {
                return Err(MergeError::Stopped(error, rest));
            }
        }
        Ok(())
    }
}

/// The error of a build by that of an insertion into a trie, where no key is outside.
fn why_not_built<K: Drop, V: Drop>(error: InsertError<K, V>) -> BuildError
    requires { error.why ≢ InsertWhy.Outside }
    ensures { error.why ≡ why_of result }
{
    match error.why {
        InsertWhy::Full => BuildError::Full,
        InsertWhy::Memory => BuildError::Memory,
        InsertWhy::Outside => unreachable!(),
    }
}

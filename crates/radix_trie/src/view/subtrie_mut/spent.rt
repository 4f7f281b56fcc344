//! Calls that spend a view for writing.
ghost use Rattle.std.specs.FinMap as map;
ghost use Rattle.std.specs.Borrow.{sem};
ghost use Rattle.std.specs.Prelude.{◌≡◌, ◌-◌, ◌↔◌, IsTrue, length, option_copied, option_map, slice_get};
ghost use Rattle.nibble_map.specs.MapQueries.{IsLeaf};
ghost use Rattle.nibble_map.specs.Maps.{below, value_at};
ghost use Rattle.radix_trie.specs.Lends.{stays_as};
ghost use Rattle.radix_trie.specs.Views.{pairs_below};
ghost use Rattle.radix_trie.specs.Walks.{deref_pair};
ghost use Rattle.radix_trie.specs.WriteViews.{map_behind, kept_path, kept_prefix, lender_of};

use crate::iter::{key_of, key_value_of, value_of};
use crate::locus::{Locus, PathList};
use crate::trie::Trie;
use crate::view::subtrie_mut::SubTrieMut;
use radix_keys::{Nibblet, TrieKey};
use std::alloc::Global;

impl<'a, K: TrieKey, V, P: PathList> SubTrieMut<'a, K, V, P> {
    /// The reference to the trie that the view was made of, for as long as the trie's borrow. The
    /// view is spent, and the trie is as the view leaves it.
    pub fn into_trie(self) -> &'a mut Trie<K, V>
        ensures same_reference { result.ghost_name ≡ lender_of self.entry }
        ensures map { result.now ≡ map_behind self.entry }
    {
        let SubTrieMut {
            trie,
            path: _,
            prefix: _,
        } = self;
        trie
    }

    /// The allocator of the trie.
    pub(crate) fn allocator(&self) -> Global {
        self.trie.allocator()
    }

    /// The trie and the path. The view is spent: its reference for writing becomes one for reading.
    pub(crate) fn into_parts(self) -> (&'a Trie<K, V>, P)
        ensures map { result.0.now ≡ map_behind self.entry }
        ensures path { result.1 ≡ kept_path self.entry }
    {
        let SubTrieMut {
            trie,
            path,
            prefix: _,
        } = self;
        (trie, path)
    }

    /// The trie, for as long as its borrow, and the path. The view is spent.
    pub(crate) fn into_owned_parts(self) -> (&'a mut Trie<K, V>, P)
        ensures same_reference { result.0.ghost_name ≡ lender_of self.entry }
        ensures map { result.0.now ≡ map_behind self.entry }
        ensures path { result.1 ≡ kept_path self.entry }
    {
        let SubTrieMut {
            trie,
            path,
            prefix: _,
        } = self;
        (trie, path)
    }

    /// The key that is stored at the path. The view is spent. A caller's proof still knows the trie
    /// then, as after each call here that has its name from `TrieCommon`.
    pub fn key(self) -> Option<&'a K>
        ensures* kept { sem 𝓛
            (stays_as K.row V.row K.TrieKey.own K.PartialEq.own (lender_of self.entry)
            (map_behind self.entry)) }
        ensures key { option_copied result ≡ option_map (λ p. p.0)
            (map.get (map_behind self.entry) (P.list (kept_path self.entry))) }
    {
        let parts = self.into_owned_parts();
        key_within(parts.0, parts.1)
    }

    /// The value that is stored at the path. The view is spent.
    pub fn value(self) -> Option<&'a V>
        ensures* kept { sem 𝓛
            (stays_as K.row V.row K.TrieKey.own K.PartialEq.own (lender_of self.entry)
            (map_behind self.entry)) }
        ensures value { option_copied result
            ≡ value_at (map_behind self.entry) (P.list (kept_path self.entry)) }
    {
        let parts = self.into_owned_parts();
        value_within(parts.0, parts.1)
    }

    /// The first pair at and below the path, in the order of the encodings, if there is one. The
    /// view is spent.
    pub fn first_key_value(self) -> Option<(&'a K, &'a V)>
        ensures* kept { sem 𝓛
            (stays_as K.row V.row K.TrieKey.own K.PartialEq.own (lender_of self.entry)
            (map_behind self.entry)) }
        ensures first { option_map deref_pair result ≡ slice_get
            (pairs_below (map_behind self.entry) (P.list (kept_path self.entry))) 0 }
    {
        let parts = self.into_owned_parts();
        first_within(parts.0, parts.1)
    }

    /// The last pair at and below the path, in the order of the encodings, if there is one. The
    /// view is spent.
    pub fn last_key_value(self) -> Option<(&'a K, &'a V)>
        ensures* kept { sem 𝓛
            (stays_as K.row V.row K.TrieKey.own K.PartialEq.own (lender_of self.entry)
            (map_behind self.entry)) }
        ensures last { option_map deref_pair result ≡ slice_get
            (pairs_below (map_behind self.entry) (P.list (kept_path self.entry)))
            (length (pairs_below (map_behind self.entry) (P.list (kept_path self.entry))) - 1) }
    {
        let parts = self.into_owned_parts();
        last_within(parts.0, parts.1)
    }

    /// The count of pairs at and below the path. The view is spent.
    pub fn len(self) -> usize
        ensures count { result
            ≡ map.len (below (map_behind self.entry) (P.list (kept_path self.entry))) }
        ensures kept { self.exit.0.now ≡ map_behind self.entry }
    {
        let SubTrieMut {
            trie,
            path,
            prefix: _,
        } = self;
        Locus::find(trie, path.nibbles()).len()
    }

    /// Whether no pair is at or below the path. The view is spent.
    pub fn is_empty(self) -> bool
        ensures empty { IsTrue result
            ↔ (map.len (below (map_behind self.entry) (P.list (kept_path self.entry))) ≡ 0) }
        ensures kept { self.exit.0.now ≡ map_behind self.entry }
    {
        let SubTrieMut {
            trie,
            path,
            prefix: _,
        } = self;
        Locus::find(trie, path.nibbles()).is_empty()
    }

    /// Whether no pair is strictly below the path. The view is spent.
    pub fn is_leaf(self) -> bool
        ensures leaf { IsTrue result
            ↔ IsLeaf (map_behind self.entry) (P.list (kept_path self.entry)) }
        ensures kept { self.exit.0.now ≡ map_behind self.entry }
    {
        let SubTrieMut {
            trie,
            path,
            prefix: _,
        } = self;
        Locus::find(trie, path.nibbles()).is_leaf()
    }

    /// The path's fragment when the view was made. The view is spent.
    pub fn into_prefix(self) -> Nibblet
        ensures prefix { result ≡ P.list (kept_prefix self.entry) }
        ensures kept { self.exit.0.now ≡ map_behind self.entry }
    {
        let SubTrieMut {
            trie: _,
            path: _,
            prefix,
        } = self;
        prefix.into_nibbles()
    }
}

/// The key that is stored at a path, for as long as the trie's borrow, in which nothing is written.
fn key_within<'a, K: TrieKey, V, P: PathList>(trie: &'a mut Trie<K, V>, path: P) -> Option<&'a K>
    ensures* kept { sem 𝓛
        (stays_as K.row V.row K.TrieKey.own K.PartialEq.own trie.entry.ghost_name trie.old) }
    ensures key { option_copied result
        ≡ option_map (λ p. p.0) (map.get trie.old (P.list path)) }
{
    key_of(Locus::find(trie, path.nibbles()).pair())
}

/// The value that is stored at a path, as `key_within` returns the key.
fn value_within<'a, K: TrieKey, V, P: PathList>(trie: &'a mut Trie<K, V>, path: P) -> Option<&'a V>
    ensures* kept { sem 𝓛
        (stays_as K.row V.row K.TrieKey.own K.PartialEq.own trie.entry.ghost_name trie.old) }
    ensures value { option_copied result ≡ value_at trie.old (P.list path) }
{
    value_of(Locus::find(trie, path.nibbles()).pair())
}

/// The first pair at and below a path, as `key_within` returns the key.
fn first_within<'a, K: TrieKey, V, P: PathList>(
    trie: &'a mut Trie<K, V>,
    path: P,
) -> Option<(&'a K, &'a V)>
    ensures* kept { sem 𝓛
        (stays_as K.row V.row K.TrieKey.own K.PartialEq.own trie.entry.ghost_name trie.old) }
    ensures first { option_map deref_pair result
        ≡ slice_get (pairs_below trie.old (P.list path)) 0 }
{
    key_value_of(Locus::find(trie, path.nibbles()).first())
}

/// The last pair at and below a path, as `key_within` returns the key.
fn last_within<'a, K: TrieKey, V, P: PathList>(
    trie: &'a mut Trie<K, V>,
    path: P,
) -> Option<(&'a K, &'a V)>
    ensures* kept { sem 𝓛
        (stays_as K.row V.row K.TrieKey.own K.PartialEq.own trie.entry.ghost_name trie.old) }
    ensures last { option_map deref_pair result
        ≡ slice_get (pairs_below trie.old (P.list path))
        (length (pairs_below trie.old (P.list path)) - 1) }
{
    key_value_of(Locus::find(trie, path.nibbles()).last())
}

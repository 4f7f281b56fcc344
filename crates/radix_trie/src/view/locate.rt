//! What stands at a path of a trie.
ghost use Rattle.std.specs.Prelude.{◌≡◌, [], ℕ, List};
ghost use Rattle.std.specs.FinMap as finite;
ghost use Rattle.nibble_map.specs.MapQueries.{IsFragment};
ghost use Rattle.nibble_map.specs.Maps.{PairMap, below};
ghost use Rattle.radix_trie.specs.Loci.{IsLocusIn};
ghost use Rattle.radix_trie.specs.WriteViews.{kept_path, kept_prefix, map_behind, path_of, prefix_of};

use crate::locus::{Locus, PathList};
use crate::trie::Trie;
use crate::view::subtrie::SubTrie;
use crate::view::subtrie_mut::SubTrieMut;
use radix_keys::{Nibblet, TrieKey};
use std::alloc::Global;

/// A trie and a path in it, whose locus returns what lasts for `'a`. Each type that is one has the
/// calls of `TrieCommon`.
pub(crate) trait Locate<'a, K: TrieKey + 'a, V: 'a>: Sized + Drop {
    /// The map of the whole trie.
    ghost map: { Self → PairMap K V };

    /// The path, a point of the map or not.
    ghost path: { Self → List ℕ };

    /// What `fragment` returns.
    ghost is_prefix: { Self → List ℕ → Type 0 };

    /// The locus of the path.
    fn locus(self) -> Locus<'a, K, V>
        ensures { IsLocusIn K.encoding (map self) (path self) result };

    /// The count of pairs at and below the path. They are counted, but those of a whole trie.
    fn count(self) -> usize
        ensures { result ≡ finite.len (below (map self) (path self)) };

    /// The path.
    fn path(&self) -> &Nibblet
        ensures { result.now ≡ path self.now };

    /// The fragment at the path.
    fn fragment(&self) -> &Nibblet
        ensures { is_prefix self.now result.now };

    /// The allocator of the trie.
    fn allocator(&self) -> Global;
}

impl<'a, K: TrieKey, V> Locate<'a, K, V> for &'a Trie<K, V> {
    ghost map = { λ t. t.now };

    ghost path = { λ t. [] };

    ghost is_prefix = { λ t. IsFragment t.now [] };

    fn locus(self) -> Locus<'a, K, V> {
        Locus::at(self, self.root(), self.top())
    }

    fn count(self) -> usize {
        Trie::len(self)
    }

    fn path(&self) -> &Nibblet {
        self.top()
    }

    fn fragment(&self) -> &Nibblet {
        self.top()
    }

    fn allocator(&self) -> Global {
        Trie::allocator(self)
    }
}

impl<'a, 'b, K: TrieKey, V> Locate<'a, K, V> for &'b SubTrie<'a, K, V> {
    ghost map = { λ s. s.now.map };

    ghost path = { λ s. s.now.path };

    ghost is_prefix = { λ s. IsFragment s.now.map s.now.path };

    fn locus(self) -> Locus<'a, K, V> {
        SubTrie::locus(self)
    }

    fn count(self) -> usize {
        SubTrie::locus(self).len()
    }

    fn path(&self) -> &Nibblet {
        SubTrie::path(self)
    }

    fn fragment(&self) -> &Nibblet {
        SubTrie::fragment(self)
    }

    fn allocator(&self) -> Global {
        SubTrie::allocator(self)
    }
}

impl<'a, 'b, K: TrieKey, V> Locate<'b, K, V> for &'b SubTrieMut<'a, K, V> {
    ghost map = { λ v. map_behind v.now };

    ghost path = { λ v. path_of v.now };

    ghost is_prefix = { λ v f. f ≡ prefix_of v.now };

    fn locus(self) -> Locus<'b, K, V> {
        SubTrieMut::locus(self)
    }

    fn count(self) -> usize {
        SubTrieMut::locus(self).len()
    }

    fn path(&self) -> &Nibblet {
        SubTrieMut::path(self)
    }

    fn fragment(&self) -> &Nibblet {
        &self.prefix
    }

    fn allocator(&self) -> Global {
        SubTrieMut::allocator(self)
    }
}

// The view is spent: its reference for writing becomes one for reading, so what is returned lasts
// as long as the trie's borrow.
impl<'a, K: TrieKey, V, P: PathList> Locate<'a, K, V> for SubTrieMut<'a, K, V, P> {
    ghost map = { map_behind };

    ghost path = { λ v. P.list (kept_path v) };

    ghost is_prefix = { λ v f. f ≡ P.list (kept_prefix v) };

    fn locus(self) -> Locus<'a, K, V> {
        let (trie, path) = self.into_parts();
        Locus::find(trie, path.nibbles())
    }

    fn count(self) -> usize {
        Locate::locus(self).len()
    }

    fn path(&self) -> &Nibblet {
        self.path.nibbles()
    }

    fn fragment(&self) -> &Nibblet {
        self.prefix.nibbles()
    }

    fn allocator(&self) -> Global {
        SubTrieMut::allocator(self)
    }
}

//! The trie, as a map.
ghost use Rattle.std.specs.Borrow.{sem};
ghost use Rattle.std.specs.Prelude.{◌≡◌, [], ◌↔◌, ◌*◌, ◌<◌, ◌≤◌, length, max, false, None, IsTrue, IsOk, IfOk, OnOk, option_copied, option_map};
ghost use Rattle.std.specs.Option.{option_copied_mut};
ghost use Rattle.std.specs.FinMap as map;
ghost use Rattle.nibble_map.specs.Copies.{IsMapCopy, IsPairClone};
ghost use Rattle.nibble_map.specs.Lists.{Counts};
ghost use Rattle.nibble_map.specs.Maps.{IsPoint, IsSomePrefix, IsStored, value_at};
ghost use Rattle.radix_nodes.specs.Nodes.{tree_of};
ghost use Rattle.radix_trie.specs.Keys.{IsKeyed};
ghost use Rattle.radix_trie.specs.Lends.{lends_at};
ghost use Rattle.radix_trie.specs.Refusals.{IsFullAt};
ghost use Rattle.radix_trie.specs.Walks.{deref_pair};

use crate::iter::key_value_of;
pub use entry::Entry;
use radix_keys::{Memory, Nibblet, TrieKey};
use radix_nodes::search::find::find;
use radix_nodes::search::find_mut::value_at_mut;
use radix_nodes::trie_node::{KeyValue, TrieNode};
use radix_nodes::whole::copied::copied;
use std::alloc::Global;
use std::marker::Model;

mod ascending;
mod building;
mod compact;
mod counted;
pub(crate) mod edit;
mod entry;
mod equality;
mod graft;
mod indexed;
mod integrity;
mod loci;
mod lookups;
mod lookups_mut;
mod pages;
mod pop;
mod prune;
mod queries;
mod remove;
mod retain;
mod split;
mod vacant;
mod values;

/// A map from keys to values. Keys are told apart by their encodings, and one is *inline* if it is
/// encoded without an allocation (`is_inline`): of the key types here each of at most 32 nibbles.
///
/// A contract sees it as the finite map from each stored encoding, a list of nibbles, to the pair
/// of the key and the value that are stored there.
#[derive(Drop)]
pub struct Trie<K: TrieKey, V> {
    root: TrieNode<K, V>,
    length: usize,
    nodes: u128,
    nibbles: u128,
    alloc: Global,
}

impl<K: TrieKey, V> Model for Trie<K, V> {
    ghost use Rattle.std.specs.FinMap as map;
    ghost use Rattle.nibble_map.specs.Maps.{PairMap, pair_map_code};

    ghost Value = { PairMap K V };

    ghost coded = { pair_map_code K.code V.code };

    ghost use Rattle.radix_nodes.specs.Nodes.{tree_of};
    ghost use Rattle.radix_trie.specs.Roots.{map_of, IsKept};

    ghost view = { λ t. map_of (tree_of t.root) };

    ghost invariant = { λ t. IsKept K.encoding (tree_of t.root) t.length t.nodes t.nibbles };
}

impl<K: TrieKey, V> Trie<K, V> {
    ghost use Rattle.radix_trie.specs.Roots.{IsRoot};

    /// The empty trie. It allocates nothing.
    pub fn new(alloc: Global) -> Self
        ensures { result ≡ map.empty }
    {
        Trie {
            root: TrieNode::new(alloc),
            length: 0,
            nodes: 1,
            nibbles: 0,
            alloc,
        }
    }

    /// The empty trie, as `new` makes it.
    pub fn default(alloc: Global) -> Self
        ensures { result ≡ map.empty }
    {
        Trie::new(alloc)
    }

    /// The count of pairs, in constant time.
    pub fn len(&self) -> usize
        ensures { result ≡ map.len self.now }
    {
        self.length
    }

    /// Whether there is no pair.
    pub fn is_empty(&self) -> bool
        ensures { IsTrue result ↔ (map.len self.now ≡ 0) }
    {
        self.length == 0
    }

    /// The count of nodes, the root among them, and the count of nibbles of all their fragments, in
    /// constant time.
    ///
    /// Whatever the history, these are the count of the map's points, and the count of the distinct
    /// non-empty prefixes of the stored encodings. There are at most two nodes a pair, or the root
    /// alone.
    pub fn footprint(&self) -> (u128, u128)
        ensures nodes { Counts (IsPoint self.now) result.0 }
        ensures nibbles { Counts (IsSomePrefix self.now) result.1 }
        ensures few { result.0 ≤ max 1 (2 * map.len self.now) }
    {
        (self.nodes, self.nibbles)
    }

    /// The value that is stored at the key's encoding, if there is one.
    ///
    /// The key may be of another type than the stored keys: its encoding alone decides.
    ///
    /// # Errors
    ///
    /// `Memory`: the encoding's allocation fails; an inline key needs none.
    ///
    /// # Examples
    ///
    /// ```
    /// # use nifazombi::{radix_trie::Trie, rattle_std::alloc::Global};
    /// let mut trie = Trie::new(Global);
    /// trie.insert("haskell", 36)?;
    /// assert!(trie.get(&"haskell")? == Some(&36) && trie.get(&"has")? == None);
    /// # Ok::<(), Box<dyn std::error::Error>>(())
    /// ```
    pub fn get<Q: TrieKey>(&self, key: &Q) -> Result<Option<&V>, Memory>
        ensures value { IfOk result
            (λ found. option_copied found ≡ value_at self.now (Q.encoding key.now)) }
        ensures is_value { OnOk result (Q.is_value key.now) }
        ensures inline { Q.is_inline key.now → IsOk result }
    {
        let list = key.encode(self.alloc)?;
        Ok(self.at(&list))
    }

    /// The key and the value that are stored at the key's encoding, if a pair is.
    ///
    /// The key may be of another type than the stored keys: its encoding alone decides.
    ///
    /// # Errors
    ///
    /// `Memory`: the encoding's allocation fails; an inline key needs none.
    pub fn get_key_value<Q: TrieKey>(&self, key: &Q) -> Result<Option<(&K, &V)>, Memory>
        ensures pair { IfOk result (λ found. option_map deref_pair found
            ≡ map.get self.now (Q.encoding key.now)) }
        ensures is_value { OnOk result (Q.is_value key.now) }
        ensures inline { Q.is_inline key.now → IsOk result }
    {
        let list = key.encode(self.alloc)?;
        Ok(key_value_of(self.pair_at(&list)))
    }

    /// Whether a pair is stored at the key's encoding.
    ///
    /// # Errors
    ///
    /// `Memory`: the encoding's allocation fails; an inline key needs none.
    pub fn contains_key<Q: TrieKey>(&self, key: &Q) -> Result<bool, Memory>
        ensures stored { IfOk result
            (λ found. IsTrue found ↔ IsStored self.now (Q.encoding key.now)) }
        ensures is_value { OnOk result (Q.is_value key.now) }
        ensures inline { Q.is_inline key.now → IsOk result }
    {
        let list = key.encode(self.alloc)?;
        Ok(self.contains(&list))
    }

    /// The value at a list of nibbles, for writing, if one is stored there. It allocates nothing.
    pub fn at_mut(&mut self, list: &Nibblet) -> Option<&mut V>
        ensures* writes_back { sem 𝓛
            (lends_at K.row V.row K.TrieKey.own K.PartialEq.own self.entry list.now result) }
        ensures value { option_copied_mut result ≡ value_at self.old list.now }
    {
        match value_at_mut(&mut self.root, list) {
            Some(value) => Some(value),
            None => None,
        }
    }

    /// Whether as many pairs are stored as can be counted, and none at this list.
    fn has_no_room_for(&self, list: &Nibblet) -> bool
        ensures { IsTrue result ↔ IsFullAt self.now list.now }
    {
        if self.len() < usize::MAX {
            return false;
        }
        self.pair_at(list).is_none()
    }

    /// The root, the canonical tree of the map.
    pub(crate) fn root(&self) -> &TrieNode<K, V>
        ensures { IsRoot K.encoding self.now (tree_of result.now) }
    {
        &self.root
    }

    /// The path of the trie, the empty list.
    pub(crate) fn top(&self) -> &Nibblet
        ensures { result.now ≡ [] }
    {
        &self.root.fragment
    }

    /// The allocator that the trie's memory comes from.
    pub fn allocator(&self) -> Global {
        self.alloc
    }
}

impl<K: TrieKey + Clone, V: Clone> Trie<K, V> {
    /// A trie with the same encodings, each with a clone of its key and of its value. It takes the
    /// time of a walk and of the clones. The trie without pairs is copied without an allocation.
    ///
    /// Clones of keys have to keep their encodings.
    ///
    /// # Errors
    ///
    /// `Memory`: an allocation fails, for the nodes or in a clone of a key or a value. What was
    /// copied is dropped, and the trie itself stays as it is.
    pub fn clone(&self) -> Result<Trie<K, V>, Memory>
        requires same_encoding { (key copy : K) → K.is_clone key copy → K.encoding copy
            ≡ K.encoding key }
        ensures copy { IfOk result
            (λ copy. IsMapCopy (IsPairClone K.is_clone V.is_clone) self.now copy) }
        ensures keyed { IfOk result (λ copy.
            ((key clone : K) → K.is_clone key clone → K.is_value key → K.is_value clone)
            → IsKeyed K.encoding K.is_value self.now → IsKeyed K.encoding K.is_value copy) }
        ensures inline { map.len self.now ≡ 0 → IsOk result }
    {
        Ok(Trie {
            root: copied(&self.root, self.alloc)?,
            length: self.length,
            nodes: self.nodes,
            nibbles: self.nibbles,
            alloc: self.alloc,
        })
    }
}

//! The trie of texts and their numbers.
ghost use Rattle.std.specs.Prelude.{◌≡◌, [], length, map as each, IfOk, IfSome, IfNone, OnOk, OnErr};
ghost use Rattle.std.specs.FinMap as map;
ghost use Rattle.nibble_map.specs.Computed.{ancestor, footprint};
ghost use Rattle.nibble_map.specs.Nibbles.{nibbles};
ghost use Rattle.nibble_map.specs.Maps.{value_at, without_below};
ghost use Rattle.trie_tool.specs.Numbers.{text};
ghost use Rattle.radix_trie.specs.Views.{pairs_below, value_of};

use radix_trie::iter::{Cursor, Iter};
use radix_trie::{Memory, Trie, TrieCommon};
use std::alloc::Global;
use std::marker::Model;

/// A walk over texts and their numbers, and how many they are.
#[derive(Drop)]
pub struct Rows<'a> {
    pub count: usize,
    pub walk: Cursor<'a, String, u64>,
    ghost counted: { count ≡ length walk },
}

/// A trie of texts, each with a number. A contract sees it as the finite map from the nibbles of
/// each text to the text and its number.
#[derive(Drop)]
pub struct Numbers {
    alloc: Global,
    trie: Trie<String, u64>,
}

impl Model for Numbers {
    ghost use Rattle.std.specs.Prelude.{ℕ, List};
    ghost use Rattle.std.specs.Coded.{coded_list, coded_ℕ};
    ghost use Rattle.nibble_map.specs.Maps.{PairMap, pair_map_code};
    ghost use Rattle.trie_tool.specs.Numbers.{texts_of};

    ghost Value = { PairMap (List ℕ) ℕ };

    ghost coded = { pair_map_code (coded_list coded_ℕ) coded_ℕ };

    ghost view = { λ n. texts_of n.trie };
}

impl Numbers {
    /// No text.
    pub fn new(alloc: Global) -> Numbers
        ensures { result ≡ map.empty }
    {
        Numbers {
            alloc,
            trie: Trie::new(alloc),
        }
    }

    /// Stores the number at this key, and gives the number that stood there. After a failure all is
    /// as before.
    pub fn insert(&mut self, key: &str, number: u64) -> Result<Option<u64>, Memory>
        ensures old_number { IfOk result (λ old. old ≡ value_at self.old (nibbles key.now)) }
        ensures stored { OnOk result
            (self.new ≡ map.insert self.old (nibbles key.now) (key.now, number)) }
        ensures unchanged { OnErr result (self.new ≡ self.old) }
    {
        let key = String::from_str(self.alloc, key)?;
        self.trie.insert(key, number).map_err(|_| Memory)
    }

    /// The number at this key.
    pub fn get(&self, key: &str) -> Result<Option<u64>, Memory>
        ensures { IfOk result (λ found. found ≡ value_at self.now (nibbles key.now)) }
    {
        Ok(self.trie.get(&key)?.copied())
    }

    /// The number at the longest stored text that the key begins with.
    pub fn ancestor(&self, key: &str) -> Result<Option<u64>, Memory>
        ensures { IfOk result (λ found. found
            ≡ value_of self.now (ancestor (map.entries self.now) (nibbles key.now))) }
    {
        Ok(self.trie.get_ancestor_value(&key)?.copied())
    }

    /// Takes the number at this key away. After a failure all is as before.
    pub fn remove(&mut self, key: &str) -> Result<Option<u64>, Memory>
        ensures old_number { IfOk result (λ old. old ≡ value_at self.old (nibbles key.now)) }
        ensures removed { OnOk result (self.new ≡ map.remove self.old (nibbles key.now)) }
        ensures unchanged { OnErr result (self.new ≡ self.old) }
    {
        self.trie.remove(&key)
    }

    /// The texts that begin with the key, and their numbers, in order; None where no text does.
    pub fn below(&self, key: &str) -> Result<Option<Rows<'_>>, Memory>
        ensures rows { IfOk result (λ o. IfSome o
            (λ rows. each text rows.walk ≡ pairs_below self.now (nibbles key.now))) }
        ensures none { IfOk result
            (λ o. IfNone o (pairs_below self.now (nibbles key.now) ≡ [])) }
    {
        match self.trie.get_raw_descendant(&key)? {
            Some(view) => {
                let count = TrieCommon::len(&view);
                let walk = TrieCommon::cursor(&view);
                Ok(Some(Rows { count, walk }))
            }
            None => Ok(None),
        }
    }

    /// Takes all texts that begin with the key away, with their numbers, in order. After a failure
    /// all is as before.
    pub fn prune(&mut self, key: &str) -> Result<Vec<(String, u64)>, Memory>
        ensures gone { IfOk result
            (λ gone. each text gone.items ≡ pairs_below self.old (nibbles key.now)) }
        ensures removed { OnOk result (self.new ≡ without_below self.old (nibbles key.now)) }
        ensures unchanged { OnErr result (self.new ≡ self.old) }
    {
        self.trie.remove_prefix(&key)
    }

    /// The count of points, and the count of distinct non-empty prefixes of the keys' nibbles.
    pub fn footprint(&self) -> (u128, u128)
        ensures { result ≡ footprint (map.entries self.now) }
    {
        self.trie.footprint()
    }

    /// The count of numbers.
    pub fn len(&self) -> usize
        ensures { result ≡ map.len self.now }
    {
        self.trie.len()
    }

    /// A walk over all texts and their numbers, in order.
    pub fn all(&self) -> Result<Iter<'_, String, u64>, Memory>
        ensures { IfOk result (λ walk. each text walk ≡ map.values self.now) }
    {
        TrieCommon::iter(&self.trie)
    }
}

//! The pairs at and below a key's place as a trie of their own.
ghost use Rattle.std.specs.Prelude.{[], ◌≡◌, ◌<◌, length, None, IsOk, IfOk, OnOk, OnErr};
ghost use Rattle.std.specs.FinMap as map;
ghost use Rattle.nibble_map.specs.Maps.{below, without_below};

use crate::locus::Locus;
use crate::trie::Trie;
use radix_keys::{Memory, Nibblet, TrieKey};
use radix_nodes::insertion::attach::make_upper;
use radix_nodes::removal::cut_branch::cut_branch;
use radix_nodes::removal::rooted::rooted;
use radix_nodes::whole::size::measure;
use std::mem;

impl<K: TrieKey + Drop, V: Drop> Trie<K, V> {
    /// Removes all pairs at and below the key, and returns the trie that holds them.
    ///
    /// The key needn't be stored, nor be a point. No pair is moved: the node is cut off with all
    /// that is below it. So the time grows with the depth and with how many nodes are cut off,
    /// which are counted.
    ///
    /// # Errors
    ///
    /// `Memory`: an allocation fails, for the encoding, for joining two fragments where it was cut,
    /// or for the new trie's node above it. On failure the trie is as before.
    ///
    /// # Examples
    ///
    /// ```
    /// # use nifazombi::{radix_trie::Trie, rattle_std::alloc::Global};
    /// let mut trie = Trie::from_iter(Global, [("tea", 1), ("team", 2), ("inn", 3)].into_iter())?;
    /// let part = trie.split_off_prefix(&"te")?;
    /// assert!(part.len() == 2 && trie.len() == 1);
    /// # Ok::<(), Box<dyn std::error::Error>>(())
    /// ```
    ///
    /// `put_back` in `crates/trie_examples/src/cited.rt` proves that grafting the part undoes it.
    pub fn split_off_prefix<Q: TrieKey>(&mut self, key: &Q) -> Result<Trie<K, V>, Memory>
        ensures split { IfOk result (λ part. part ≡ below self.old (Q.encoding key.now)) }
        ensures removed { OnOk result (self.new ≡ without_below self.old (Q.encoding key.now)) }
        ensures unchanged { OnErr result (self.new ≡ self.old) }
        ensures inline_whole { Q.is_inline key.now → Q.encoding key.now ≡ [] → IsOk result }
        ensures inline_none { Q.is_inline key.now
            → map.len (below self.old (Q.encoding key.now)) ≡ 0
            → IsOk result }
    {
        let list = key.encode(self.alloc)?;
        if list.len() == 0 {
            return Ok(mem::replace(self, Trie::new(self.alloc)));
        }
        self.split_at(&list)
    }

    // The same, with the key's encoding in hand, which isn't empty.
    fn split_at(&mut self, list: &Nibblet) -> Result<Trie<K, V>, Memory>
        requires some { 0 < length list.now }
        ensures split { IfOk result (λ part. part ≡ below self.old list.now) }
        ensures removed { OnOk result (self.new ≡ without_below self.old list.now) }
        ensures unchanged { OnErr result (self.new ≡ self.old) }
        ensures none { map.len (below self.old list.now) ≡ 0 → IsOk result }
    {
        let Some((_, path)) = Locus::find(&*self, list).nearest(list)? else {
            return Ok(Trie::new(self.alloc));
        };
        let upper = make_upper(self.alloc, Nibblet::new(self.alloc), &path)?;
        match cut_branch(&mut self.root, list) {
            Ok(Some(branch)) => {
                let (length, held) = measure(&branch.top);
                let nibbles = held.nibbles - branch.top.fragment.len() as u128 + path.len() as u128;
                self.length -= length;
                self.nodes -= held.nodes + branch.nodes as u128;
                self.nibbles -= held.nibbles;
                Ok(Trie {
                    root: rooted(branch, upper, path),
                    length,
                    nodes: held.nodes + 2,
                    nibbles,
                    alloc: self.alloc,
                })
            }
            Ok(None) => Ok(Trie::new(self.alloc)),
            Err(refusal) => Err(refusal),
        }
    }
}

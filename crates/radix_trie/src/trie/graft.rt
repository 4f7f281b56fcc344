//! A trie is grafted onto another, as `split_off_prefix` cut it off.
ghost use Rattle.std.specs.Prelude.{◌≡◌, ◌⊎◌, ℕ, ◌+◌, ◌<◌, ◌^◌, List, [], IsOk, OnOk, IfErr, OnErr, MatchBool, IsSome, None, vec_len};
ghost use Rattle.std.specs.FinMap as map;
ghost use Rattle.masked_tree.specs.Edits.{IsOne};
ghost use Rattle.nibble_map.specs.Maps.{IsStored};
ghost use Rattle.radix_nodes.specs.Nodes.{out_of, tree_of};
ghost use Rattle.radix_trie.specs.Building.{with_pairs};
ghost use Rattle.radix_trie.specs.Keys.{IsKeyed};
ghost use Rattle.radix_trie.specs.Refusals.{IsFreeFor, RefusesGraft};
ghost use Rattle.radix_trie.specs.Roots.{IsKept, map_of};
ghost use Rattle.radix_trie.specs.Views.{pairs_below};

use crate::error::GraftWhy;
use crate::trie::Trie;
use radix_keys::{Refused, TrieKey};
use radix_nodes::insertion::graft_root::{Ungraftable, graft_root};
use radix_nodes::trie_node::{TrieNode, has_pair};

// Whether the root has no pair and one child, below which all pairs are.
fn is_one_branch<K, V>(root: &TrieNode<K, V>) -> bool
    ensures { MatchBool result
        (((tree_of root.now).pair ≡ None) × (vec_len (out_of root.now).children ≡ 1))
        (IsSome (tree_of root.now).pair ⊎ (IsOne (tree_of root.now).children → ⊥)) }
{
    if has_pair(root) {
        return false;
    }
    root.children.len() == 1
}

impl<K: TrieKey + Drop, V: Drop> Trie<K, V> {
    /// Moves all pairs of another trie here, where nothing stands at or below the longest list that
    /// all their encodings begin with. What `split_off_prefix` cut off goes back so.
    ///
    /// All pairs come, or none does. No pair is moved: the node is grafted with all that is below
    /// it, in the time of one lookup. Where the tries overlap, `merge` moves pair by pair.
    ///
    /// # Errors
    ///
    /// Decided in this order. `Full`: the pairs of both are more than `usize::MAX`. `Overlapping`:
    /// a point stands at or below that list. `Memory`: an allocation for the change fails. On
    /// failure the trie is as before, and the error holds the trie that was passed. Where either
    /// has no pair, the call never fails.
    ///
    /// # Examples
    ///
    /// ```
    /// # use nifazombi::{radix_trie::Trie, rattle_std::alloc::Global};
    /// let mut trie = Trie::from_iter(Global, [("tea", 1), ("team", 2), ("inn", 3)].into_iter())?;
    /// let part = trie.split_off_prefix(&"te")?;
    /// trie.graft(part)?;
    /// assert_eq!(trie.len(), 3);
    /// # Ok::<(), Box<dyn std::error::Error>>(())
    /// ```
    ///
    /// `put_back` in `crates/trie_examples/src/cited.rt` proves that the trie is as it was.
    pub fn graft(&mut self, part: Trie<K, V>) -> Result<(), Refused<GraftWhy, Trie<K, V>>>
        ensures grafted { OnOk result
            (self.new ≡ with_pairs K.encoding self.old (pairs_below part [])) }
        ensures apart { OnOk result
            ((e : List ℕ) → IsStored self.old e → IsStored part e → ⊥) }
        ensures vacant { OnOk result ((map.len part ≡ 0) ⊎ IsFreeFor self.old part) }

        ensures keyed { OnOk result (IsKeyed K.encoding K.is_value self.old
            → IsKeyed K.encoding K.is_value part → IsKeyed K.encoding K.is_value self.new) }

        ensures handed_back { IfErr result (λ e. e.back ≡ part) }
        ensures unchanged { OnErr result (self.new ≡ self.old) }

        ensures none { map.len part ≡ 0 → IsOk result }
        ensures into_none { map.len self.old ≡ 0 → IsOk result }
        ensures why { IfErr result (λ e. RefusesGraft self.old part e.why) }
    {
        if part.is_empty() {
            return Ok(());
        }
        if self.is_empty() {
            *self = part;
            return Ok(());
        }
        if part.len() > usize::MAX - self.len() {
            let why = GraftWhy::Full;
            return Err(Refused { why, back: part });
        }
        self.graft_some(part)
    }

    // The same, where neither is empty and the pairs of both can be counted.
    fn graft_some(&mut self, part: Trie<K, V>) -> Result<(), Refused<GraftWhy, Trie<K, V>>>
        requires some { 0 < map.len part }
        requires room { map.len self.old + map.len part < 2 ^ 64 }
        ensures grafted { OnOk result
            (self.new ≡ with_pairs K.encoding self.old (pairs_below part [])) }
        ensures apart { OnOk result
            ((e : List ℕ) → IsStored self.old e → IsStored part e → ⊥) }
        ensures vacant { OnOk result (IsFreeFor self.old part) }
        ensures keyed { OnOk result (IsKeyed K.encoding K.is_value self.old
            → IsKeyed K.encoding K.is_value part → IsKeyed K.encoding K.is_value self.new) }
        ensures handed_back { IfErr result (λ e. e.back ≡ part) }
        ensures unchanged { OnErr result (self.new ≡ self.old) }
        ensures why { IfErr result (λ e. RefusesGraft self.old part e.why) }
    {
        let Trie {
            mut root,
            length,
            nodes,
            nibbles,
            alloc,
        } = part;
        match self.graft_root(&mut root, length, nodes, nibbles) {
            Ok(()) => Ok(()),
            Err(why) => Err(Refused {
                why,
                back: Trie {
                    root,
                    length,
                    nodes,
                    nibbles,
                    alloc,
                },
            }),
        }
    }

    // The same of the other trie's root and counts.
    fn graft_root(
        &mut self,
        root: &mut TrieNode<K, V>,
        length: usize,
        nodes: u128,
        nibbles: u128,
    ) -> Result<(), GraftWhy>
        requires kept { IsKept K.encoding (tree_of root.old) length nodes nibbles }
        requires some { 0 < length }
        requires room { map.len self.old + length < 2 ^ 64 }
        ensures grafted { OnOk result (self.new
            ≡ with_pairs K.encoding self.old (pairs_below (map_of (tree_of root.old)) [])) }
        ensures apart { OnOk result ((e : List ℕ)
            → IsStored self.old e → IsStored (map_of (tree_of root.old)) e → ⊥) }
        ensures vacant { OnOk result (IsFreeFor self.old (map_of (tree_of root.old))) }
        ensures keyed { OnOk result (IsKeyed K.encoding K.is_value self.old
            → IsKeyed K.encoding K.is_value (map_of (tree_of root.old))
            → IsKeyed K.encoding K.is_value self.new) }
        ensures unchanged { OnErr result (self.new ≡ self.old) }
        ensures whole { OnErr result (tree_of root.new ≡ tree_of root.old) }
        ensures why { IfErr result
            (λ why. RefusesGraft self.old (map_of (tree_of root.old)) why) }
    {
        if !is_one_branch(root) {
            return Err(GraftWhy::Overlapping);
        }
        let top = root.children[0].fragment.len() as u128;
        match graft_root(&mut self.root, self.alloc, root) {
            Ok(grafted) => {
                self.length += length;
                self.nodes += nodes - 2 + grafted.nodes as u128;
                self.nibbles += nibbles - top + grafted.nibbles as u128;
                Ok(())
            }
            Err(Ungraftable::Occupied) => Err(GraftWhy::Overlapping),
            Err(Ungraftable::Memory) => Err(GraftWhy::Memory),
        }
    }
}

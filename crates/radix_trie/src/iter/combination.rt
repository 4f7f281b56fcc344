//! The walk over what two tries hold, side by side.
ghost use Rattle.std.specs.FinMap as map;
ghost use Rattle.std.specs.Prelude.{◌≡◌, ◌+◌, ◌<◌, ◌≤◌, [], ◌∷◌, ◌++◌, None, false, IsOk, IfOk, OnOk, OnErr, drop, option_map, slice_get};
ghost use Rattle.masked_tree.specs.Tree.{IsTreePlaced};
ghost use Rattle.nibble_map.specs.Swaps.{entry};
ghost use Rattle.radix_nodes.specs.Nodes.{tree_of};
ghost use Rattle.radix_nodes.specs.Pairs.{pair_of, pairs_of};
ghost use Rattle.radix_trie.specs.Combinations.{AreAllPlaced, ArePlaced, all_left, combined_entries, entries_of_node, keeps, own_of, pairs_left, turns};
ghost use Rattle.radix_trie.specs.Sets.{combined};
ghost use Rattle.radix_trie.specs.Views.{pairs_below};
ghost use Rattle.radix_trie.specs.Walks.{deref_pair, first_pair};

use crate::iter::rows::parts;
use crate::trie::Trie;
use branches::{Branch, Branches};
use radix_keys::{Memory, TrieKey};
use radix_nodes::trie_node::{KeyValue, TrieNode};
use std::alloc::Global;
use std::marker::Model;

mod branches;

/// Which encodings a walk over two tries gives.
#[derive(Clone, Copy)]
pub enum Operation {
    /// Those of the first trie, and those of the second.
    Union,
    /// Those that both have.
    Intersection,
    /// Those that the first has, and the second hasn't.
    Difference,
    /// Those that one of the two alone has.
    SymmetricDifference,
}

impl Operation {
    /// Whether an encoding is given that the first trie has, or hasn't, and the second trie.
    fn keeps(self, in_first: bool, in_second: bool) -> bool
        ensures { result ≡ keeps self in_first in_second }
    {
        match self {
            Operation::Union => in_first || in_second,
            Operation::Intersection => in_first && in_second,
            Operation::Difference => in_first && !in_second,
            Operation::SymmetricDifference => in_first != in_second,
        }
    }

    /// The pair that is given where these two stand at one encoding.
    fn choice<'a, K, V>(
        self,
        first: Option<&'a KeyValue<K, V>>,
        second: Option<&'a KeyValue<K, V>>,
    ) -> Option<&'a KeyValue<K, V>>
        ensures { first_pair result
            ≡ pairs_of (combined_entries self (entry [] (own_of first.entry))
            (entry [] (own_of second.entry))) }
    {
        if !self.keeps(first.is_some(), second.is_some()) {
            return None;
        }
        if first.is_some() { first } else { second }
    }

    /// Whether a pair may be given of what two tries have left.
    fn may_give<K, V>(self, left: &Branches<K, V>) -> bool
        ensures { result ≡ false → pairs_left self left.now ≡ [] }
    {
        let in_first = !left.first.is_empty();
        let in_second = !left.second.is_empty();
        (in_first && in_second) || self.keeps(in_first, in_second)
    }
}

/// What is left of two tries that are walked side by side.
#[derive(Drop)]
struct Search<'a, K, V> {
    operation: Operation,
    /// What comes next.
    at: Branches<'a, K, V>,
    /// What comes after it, the last one first.
    stack: Vec<Branches<'a, K, V>>,
}

impl<'a, K, V> Model for Search<'a, K, V> {
    ghost use Rattle.std.specs.Prelude.{List, [], ◌∷◌, ◌++◌};

    ghost Value = { List (K × V) };

    ghost use Rattle.radix_trie.specs.Combinations.{AreAllPlaced, all_left};

    ghost view = { λ a. all_left a.operation (a.stack.items ++ a.at ∷ []) };

    ghost invariant = { λ a. AreAllPlaced (a.stack.items ++ a.at ∷ []) };
}

impl<'a, K, V> Search<'a, K, V> {
    fn new(
        alloc: Global,
        first: &'a TrieNode<K, V>,
        second: &'a TrieNode<K, V>,
        operation: Operation,
    ) -> Search<'a, K, V>
        requires first { IsTreePlaced (tree_of first.now) }
        requires second { IsTreePlaced (tree_of second.now) }
        ensures { result ≡ pairs_of (combined_entries operation
            (entries_of_node (tree_of first.now)) (entries_of_node (tree_of second.now))) }
    {
        Search {
            operation,
            at: Branches {
                first: Branch::over(first),
                second: Branch::over(second),
            },
            stack: Vec::new(alloc),
        }
    }

    /// Looks for the next pair. After a failure the next call goes on where this one stopped.
    fn step(&mut self) -> Result<Option<&'a KeyValue<K, V>>, Memory>
        ensures pair { IfOk result
            (λ pair. option_map (λ p. pair_of p.now) pair ≡ slice_get self.old 0) }
        ensures rest { OnOk result (self.new ≡ drop 1 self.old) }
        ensures unchanged { OnErr result (self.new ≡ self.old) }
    {
        loop {
            let first = self.at.first.own.take();
            let second = self.at.second.own.take();
            if let Some(pair) = self.operation.choice(first, second) {
                return Ok(Some(pair));
            }
            if let Some((below, beside)) = self.at.part() {
                self.at = descend(self.operation, &mut self.stack, below, beside)?;
            } else {
                let Some(next) = self.stack.pop() else {
                    return Ok(None);
                };
                self.at = next;
            }
        }
    }
}

/// What comes next of what lies below a path and of what lies beside it: the first, where a pair
/// may be given of it, and then the other one. That one is put aside where nodes lie below the
/// path; else the pairs at the path come right before it.
fn descend<'a, K, V>(
    operation: Operation,
    stack: &mut Vec<Branches<'a, K, V>>,
    below: Branches<'a, K, V>,
    beside: Branches<'a, K, V>,
) -> Result<Branches<'a, K, V>, Memory>
    requires placed { AreAllPlaced stack.old.items }
    requires below { ArePlaced below }
    requires beside { ArePlaced beside }
    requires first_bare { beside.first.own ≡ None }
    requires second_bare { beside.second.own ≡ None }
    ensures pairs { IfOk result (λ at. all_left operation (stack.new.items ++ at ∷ [])
        ≡ (pairs_left operation below.entry ++ pairs_left operation beside.entry)
        ++ all_left operation stack.old.items) }
    ensures placed { IfOk result (λ at. AreAllPlaced (stack.new.items ++ at ∷ [])) }
    ensures turns { IfOk result (λ at. turns (stack.new.items ++ at ∷ [])
        ≤ turns stack.old.items + turns (below.entry ∷ beside.entry ∷ [])) }
    ensures unchanged { OnErr result (stack.new.items ≡ stack.old.items) }
{
    if !operation.may_give(&below) {
        return Ok(beside);
    }
    if below.first.is_leaf() && below.second.is_leaf() {
        return Ok(Branches {
            first: Branch {
                own: below.first.own,
                row: beside.first.row,
                offset: beside.first.offset,
            },
            second: Branch {
                own: below.second.own,
                row: beside.second.row,
                offset: beside.second.offset,
            },
        });
    }
    if operation.may_give(&beside) {
        stack.push(beside)?;
    }
    Ok(below)
}

/// A walk over the pairs of two tries that an operation gives: each encoding once, in their order.
/// Of two pairs with one encoding the first trie's is given.
///
/// The nodes of both tries are walked side by side. No key is encoded, and what the operation
/// leaves out is skipped branch by branch.
///
/// A step may fail, since it may allocate: rows of the nodes beside the ways down. The same pairs
/// are left then. A contract sees the walk as the list of the pairs that are left.
#[derive(Drop)]
pub struct Combination<'a, K, V> {
    /// The pair that the next step returns.
    found: Option<&'a KeyValue<K, V>>,
    search: Search<'a, K, V>,
}

impl<'a, K, V> Model for Combination<'a, K, V> {
    ghost use Rattle.std.specs.Prelude.{List};

    ghost Value = { List (K × V) };

    ghost use Rattle.radix_trie.specs.Combinations.{found_first};

    ghost view = { λ w. found_first w.found w.search };
}

impl<'a, K, V> Combination<'a, K, V> {
    /// The walk over two tries. The first pair is found here.
    ///
    /// A whole walk takes at most the time of a walk over each of the two; by `Intersection`, at
    /// most that of a lookup of each key of the smaller one.
    ///
    /// # Errors
    ///
    /// `Memory`: an allocation fails, as in a step. Two tries without pairs need none.
    pub fn new(
        first: &'a Trie<K, V>,
        second: &'a Trie<K, V>,
        operation: Operation,
    ) -> Result<Combination<'a, K, V>, Memory>
    where
        K: TrieKey,
        ensures pairs { IfOk result
            (λ walk. walk ≡ pairs_below (combined operation first.now second.now) []) }
        ensures none { map.len first.now ≡ 0 → map.len second.now ≡ 0 → IsOk result }
    {
        let mut search = Search::new(first.allocator(), first.root(), second.root(), operation);
        if first.is_empty() && second.is_empty() {
            return Ok(Combination {
                found: None,
                search,
            });
        }
        let found = search.step()?;
        Ok(Combination { found, search })
    }

    /// The next pair, in the order of the encodings, or None where none is left, and then at each
    /// further call. It finds the pair after that too.
    ///
    /// # Errors
    ///
    /// `Memory`: an allocation fails, for rows of nodes that are put aside. The same pairs are left
    /// then, and the next call goes on where this one stopped. At the end nothing is allocated.
    pub fn next(&mut self) -> Result<Option<(&'a K, &'a V)>, Memory>
        ensures pair { IfOk result (λ pair. option_map deref_pair pair ≡ slice_get self.old 0) }
        ensures rest { OnOk result (self.new ≡ drop 1 self.old) }
        ensures unchanged { OnErr result (self.new ≡ self.old) }
        ensures end { self.old ≡ [] → IsOk result }
    {
        let Some(pair) = self.found else {
            return Ok(None);
        };
        self.found = self.search.step()?;
        Ok(Some(parts(pair)))
    }
}

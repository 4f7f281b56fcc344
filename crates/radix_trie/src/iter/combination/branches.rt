//! What two tries have left at and below one path.
ghost use Rattle.std.specs.Prelude.{◌≡◌, ◌+◌, ◌<◌, ◌≤◌, [], None, IfSome, length, take, drop, slice_index, true};
ghost use Rattle.masked_tree.specs.Tree.{IsPlaced, IsTreePlaced, none};
ghost use Rattle.radix_nodes.specs.Nodes.{tree_of};
ghost use Rattle.radix_trie.specs.Combinations.{ArePlaced, AreParted, IsCutOff, LeadOn, entries_left, lead, nibbles_of_first, nibbles_of_second, own_of, pairs_left, row_of_branch};
ghost use Rattle.radix_trie.specs.declared.iter.combination.Operation.{Operation as Op};

use radix_keys::Nibblet;
use radix_nodes::trie_node::{KeyValue, TrieNode};

/// What a trie has left at and below a path.
#[derive(Drop)]
pub(super) struct Branch<'a, K, V> {
    /// The pair at the path, if it is left.
    pub(super) own: Option<&'a KeyValue<K, V>>,
    /// The nodes below the path that are left, side by side.
    pub(super) row: &'a [Box<TrieNode<K, V>>],
    /// How many nibbles of the first one's fragment lie above the path's end.
    pub(super) offset: usize,
}

/// What two tries have left at and below a path.
#[derive(Drop)]
pub(super) struct Branches<'a, K, V> {
    pub(super) first: Branch<'a, K, V>,
    pub(super) second: Branch<'a, K, V>,
}

impl<'a, K, V> Branch<'a, K, V> {
    /// No pair.
    fn empty() -> Branch<'a, K, V>
        ensures own { result.own ≡ None }
        ensures row { row_of_branch result ≡ none }
    {
        Branch {
            own: None,
            row: &[],
            offset: 0,
        }
    }

    /// The pairs at and below a node.
    pub(super) fn over(node: &'a TrieNode<K, V>) -> Branch<'a, K, V>
        ensures own { own_of result.own ≡ (tree_of node.now).pair }
        ensures row { row_of_branch result ≡ (tree_of node.now).children }
    {
        Branch {
            own: node.pair(),
            row: &node.children,
            offset: 0,
        }
    }

    /// Whether nothing is left.
    pub(super) fn is_empty(&self) -> bool
        ensures { result ≡ true → entries_left self.now ≡ [] }
    {
        self.own.is_none() && self.row.is_empty()
    }

    /// Whether no node is left.
    pub(super) fn is_leaf(&self) -> bool
        ensures { result ≡ true → row_of_branch self.now ≡ none }
    {
        self.row.is_empty()
    }

    /// The first node's fragment, if there is a node.
    fn fragment(&self) -> Option<&'a Nibblet>
        requires { IsPlaced 0 (row_of_branch self.now) }
        ensures some { IfSome result (λ f. (self.now.offset < length f.now)
            × (lead (row_of_branch self.now) ≡ drop self.now.offset f.now)) }
        ensures none { result ≡ None → row_of_branch self.now ≡ none }
    {
        let row = self.row;
        let (node, _) = row.split_first()?;
        Some(&node.fragment)
    }

    /// The nodes that are left, without an own pair.
    fn rest(&self) -> Branch<'a, K, V>
        ensures own { result.own ≡ None }
        ensures row { row_of_branch result ≡ row_of_branch self.now }
    {
        Branch {
            own: None,
            row: self.row,
            offset: self.offset,
        }
    }

    /// What is left at and below the first node, and what is left beside it: no pair where there is
    /// no node.
    fn enter(&self) -> (Branch<'a, K, V>, Branch<'a, K, V>)
        requires { IsPlaced 0 (row_of_branch self.now) }
        ensures cut { IsCutOff (length (lead (row_of_branch self.now))) (row_of_branch self.now)
            (own_of result.0.own) (row_of_branch result.0) (row_of_branch result.1) }
        ensures beside { result.1.own ≡ None }
    {
        let row = self.row;
        let Some((node, others)) = row.split_first() else {
            return (Branch::empty(), Branch::empty());
        };
        let beside = Branch {
            own: None,
            row: others,
            offset: 0,
        };
        (Branch::over(node), beside)
    }

    /// What is left of the first node's branch so many nibbles below the path, at least one, and
    /// what is left beside that node.
    fn cut(&self, nibbles: usize) -> (Branch<'a, K, V>, Branch<'a, K, V>)
        requires placed { IsPlaced 0 (row_of_branch self.now) }
        requires some { 0 < nibbles }
        requires within { nibbles ≤ length (lead (row_of_branch self.now)) }
        ensures cut { IsCutOff nibbles (row_of_branch self.now) (own_of result.0.own)
            (row_of_branch result.0) (row_of_branch result.1) }
        ensures beside { result.1.own ≡ None }
    {
        let row = self.row;
        if let Some((node, others)) = row.split_first() {
            if node.fragment.len() - self.offset > nibbles {
                let beside = Branch {
                    own: None,
                    row: others,
                    offset: 0,
                };
                let below = Branch {
                    own: None,
                    row: &row[..1],
                    offset: self.offset + nibbles,
                };
                return (below, beside);
            }
        }
        self.enter()
    }
}

impl<'a, K, V> Branches<'a, K, V> {
    /// Parts what lies below the lowest next nibble from what lies beside it: None where no node is
    /// left. The branches have no pairs of their own.
    pub(super) fn part(&self) -> Option<(Branches<'a, K, V>, Branches<'a, K, V>)>
        requires first { self.now.first.own ≡ None }
        requires second { self.now.second.own ≡ None }
        requires placed { ArePlaced self.now }
        ensures parted { IfSome result (λ r. AreParted self.now r.0 r.1) }
        ensures none { result ≡ None → ((o : Op) → pairs_left o self.now ≡ []) }
    {
        let parts = match next_turn(&self.first, &self.second) {
            Turn::End => return None,
            Turn::First => (self.first.enter(), (Branch::empty(), self.second.rest())),
            Turn::Second => ((Branch::empty(), self.first.rest()), self.second.enter()),
            Turn::Both(nibbles) => (self.first.cut(nibbles), self.second.cut(nibbles)),
        };
        let ((first, first_beside), (second, second_beside)) = parts;
        let below = Branches { first, second };
        let beside = Branches {
            first: first_beside,
            second: second_beside,
        };
        Some((below, beside))
    }
}

/// What comes first of what two branches have below one path.
enum Turn {
    /// Nothing, since no node is left.
    End,
    /// The first branch's first node, whose first nibble is lower than that of the second's.
    First,
    /// The same of the second branch.
    Second,
    /// So many nibbles that both begin with.
    Both(usize),
}

/// What comes first of two branches.
fn next_turn<K, V>(first: &Branch<K, V>, second: &Branch<K, V>) -> Turn
    requires first { IsPlaced 0 (row_of_branch first.now) }
    requires second { IsPlaced 0 (row_of_branch second.now) }
    ensures on { LeadOn (row_of_branch first.now) (row_of_branch second.now)
        (nibbles_of_first result (row_of_branch first.now))
        (nibbles_of_second result (row_of_branch second.now)) }
    ensures some { (result ≡ Turn.End → ⊥) → 0 < nibbles_of_first result (row_of_branch first.now)
        + nibbles_of_second result (row_of_branch second.now) }
{
    match (first.fragment(), second.fragment()) {
        (None, None) => Turn::End,
        (Some(_), None) => Turn::First,
        (None, Some(_)) => Turn::Second,
        (Some(fragment), Some(other)) => {
            let nibble = fragment.get(first.offset);
            let other_nibble = other.get(second.offset);
            if nibble < other_nibble {
                Turn::First
            } else if other_nibble < nibble {
                Turn::Second
            } else {
                Turn::Both(shared(fragment, first.offset, other, second.offset))
            }
        }
    }
}

/// How many nibbles two fragments share from one place of each on, where the next nibble is the
/// same, or fewer: where both places lie within the fragments the next one alone, since two
/// branches that were parted there have no more in common.
fn shared(fragment: &Nibblet, from: usize, other: &Nibblet, at: usize) -> usize
    requires from { from < length fragment.now }
    requires at { at < length other.now }
    requires next { slice_index fragment.now from ≡ slice_index other.now at }
    ensures some { 0 < result }
    ensures within { result ≤ length (drop from fragment.now) }
    ensures inside { result ≤ length (drop at other.now) }
    ensures same { take result (drop from fragment.now) ≡ take result (drop at other.now) }
{
    if from == 0 {
        return fragment.agreement(other, at);
    }
    if at == 0 {
        return other.agreement(fragment, from);
    }
    1
}

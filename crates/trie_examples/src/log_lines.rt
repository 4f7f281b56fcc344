//! The lines of a log between two times.
ghost use Rattle.std.specs.Ordering.{nat_cmp};
ghost use Rattle.std.specs.Prelude.{◌≡◌, ◌≤◌, ◌<◌, [], All, AllPairs, IfOk, map as each, take};
ghost use Rattle.std.specs.declared.cmp.Ordering.TheVariants.{Less};
ghost use Rattle.std.specs.declared.ops.Bound.TheVariants.{Included, Excluded};
ghost use Rattle.radix_trie.specs.Keys.{IsKeyed};
ghost use Rattle.radix_trie.specs.Walks.{deref_pairs};
ghost use Rattle.radix_trie.specs.Views.{pairs_within};

use radix_trie::iter::Cursor;
use radix_trie::{
    Memory, Trie, TrieCommon, TrieKey, keys_of_ranges_rise, numbers_keep_their_order,
};
use std::alloc::Global;

/// The first pairs that a walk has left, so many at most.
fn first_pairs<'a, K: TrieKey, V>(
    alloc: Global,
    walk: Cursor<'a, K, V>,
    most: usize,
) -> Result<Vec<(&'a K, &'a V)>, Memory>
    ensures { IfOk result (λ page. deref_pairs page.items ≡ take most walk.entry) }
{
    let mut left = walk;
    let mut page = Vec::new(alloc);
    while page.len() < most {
        let Some(pair) = left.next()? else {
            return Ok(page);
        };
        page.push(pair)?;
    }
    Ok(page)
}

/// The first lines of a log from one time on and before another, so many at most, in the order of
/// their times. Each time came in by insertion.
fn lines_between<'a, V>(
    alloc: Global,
    log: &'a Trie<u64, V>,
    from: u64,
    to: u64,
    most: usize,
) -> Result<Vec<(&'a u64, &'a V)>, Memory>
    requires { IsKeyed ⟦<u64 as TrieKey>⟧.encoding ⟦<u64 as TrieKey>⟧.is_value log.now }
    ensures page { IfOk result (λ page. deref_pairs page.items ≡ take most (pairs_within log.now []
        (Included (⟦<u64 as TrieKey>⟧.encoding from))
        (Excluded (⟦<u64 as TrieKey>⟧.encoding to)))) }
    ensures times { IfOk result (λ page. All (λ p. (from ≤ p.0) × (p.0 < to))
        (deref_pairs page.items)) }
    ensures rising { IfOk result (λ page. AllPairs (λ x y. nat_cmp x y ≡ Less)
        (each (λ p. p.0) (deref_pairs page.items))) }
{
    keys_of_ranges_rise::<u64, V>();
    numbers_keep_their_order();
    first_pairs(alloc, log.range(from..to)?, most)
}

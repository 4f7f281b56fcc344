//! Two sets of words side by side.
ghost use Rattle.std.specs.Prelude.{◌≡◌, IfOk, option_copied, slice_get};
ghost use Rattle.radix_trie.specs.Sets.{lacking};
ghost use Rattle.trie_set.specs.Sets.{keys_in};

use radix_trie::{Memory, TrieKey};
use trie_set::TrieSet;

/// The first key that one set has and the other lacks.
fn first_missing<'a, K: TrieKey>(
    wanted: &'a TrieSet<K>,
    stored: &'a TrieSet<K>,
) -> Result<Option<&'a K>, Memory>
    ensures { IfOk result (λ missing. option_copied missing
        ≡ slice_get (keys_in (lacking wanted.now stored.now)) 0) }
{
    wanted.difference(stored)?.next()
}

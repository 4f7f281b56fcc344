//! The keys of a walk rise: as numbers, as signed numbers, and as texts.
ghost use Rattle.std.specs.Cmp.Lexicographic.{slice_cmp};
ghost use Rattle.std.specs.Ordering.{int_cmp, nat_cmp};
ghost use Rattle.std.specs.Prelude.{◌≡◌, AllPairs, IfOk};
ghost use Rattle.std.specs.declared.cmp.Ordering.TheVariants.{Less};
ghost use Rattle.radix_trie.specs.Keys.{IsKeyed};

use radix_trie::iter::Keys;
use radix_trie::{
    Ascending, Memory, Trie, TrieCommon, TrieKey, keys_of_walks_rise,
    keys_stand_at_their_encodings, numbers_keep_their_order, signed_numbers_keep_their_order,
    texts_keep_their_order,
};

/// The keys of a trie of numbers, each of which came in by insertion, rise.
fn numbers<V>(trie: &Trie<u32, V>) -> Result<Keys<'_, u32, V>, Memory>
    requires { IsKeyed ⟦<u32 as TrieKey>⟧.encoding ⟦<u32 as TrieKey>⟧.is_value trie.now }
    ensures { IfOk result (AllPairs (λ x y. nat_cmp x y ≡ Less)) }
{
    keys_of_walks_rise::<u32, V>();
    numbers_keep_their_order();
    TrieCommon::keys(trie)
}

/// The same of signed numbers, from the least on.
fn signed<V>(trie: &Trie<Ascending<i32>, V>) -> Result<Keys<'_, Ascending<i32>, V>, Memory>
    requires { IsKeyed ⟦<Ascending<i32> as TrieKey>⟧.encoding
        ⟦<Ascending<i32> as TrieKey>⟧.is_value trie.now }
    ensures { IfOk result (AllPairs (λ x y. int_cmp x y ≡ Less)) }
{
    keys_of_walks_rise::<Ascending<i32>, V>();
    signed_numbers_keep_their_order::<i32>();
    TrieCommon::keys(trie)
}

/// The texts of any trie of texts rise.
fn words<'a, V>(trie: &'a Trie<&'static str, V>) -> Result<Keys<'a, &'static str, V>, Memory>
    ensures { IfOk result (AllPairs (λ x y. slice_cmp nat_cmp x.now y.now ≡ Less)) }
{
    keys_stand_at_their_encodings(trie);
    keys_of_walks_rise::<&'static str, V>();
    texts_keep_their_order::<&'static str>();
    TrieCommon::keys(trie)
}

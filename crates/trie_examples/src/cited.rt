//! What callers show by naming one law: what a lookup finds after a change, what a change leaves,
//! and what a walk gives.
ghost use Rattle.std.specs.FinMap as finite;
ghost use Rattle.std.specs.Prelude.{◌≡◌, ◌≢◌, ℕ, List, None, Some, IfOk, OnOk, map as each};
ghost use Rattle.radix_trie.specs.Lists.{IsPrefix, IsRising};
ghost use Rattle.radix_trie.specs.Maps.{value_at};
ghost use Rattle.radix_trie.specs.WriteViews.{map_behind, path_of};

use radix_trie::iter::Iter;
use radix_trie::{
    InsertError, Memory, SubTrieMut, Trie, TrieCommon, TrieError, TrieKey, edits_change_one_answer,
    keys_stand_at_their_encodings, rest_answers_elsewhere, split_part_goes_back,
};

/// Stores a pair, and looks the key up again: the value is there.
fn stored<K: TrieKey + Copy + Drop, V: Copy + Drop>(
    trie: &mut Trie<K, V>,
    key: K,
    value: V,
) -> Result<Option<V>, TrieError>
    ensures { IfOk result (λ found. found ≡ Some value) }
{
    edits_change_one_answer::<(K, V)>();
    let _ = trie.insert(key, value)?;
    Ok(trie.get(&key)?.copied())
}

/// Takes the pair at a key away, and looks the key up again: there is none.
fn taken_away<K: TrieKey + Drop, V: Copy + Drop, Q: TrieKey>(
    trie: &mut Trie<K, V>,
    key: &Q,
) -> Result<Option<V>, Memory>
    ensures { IfOk result (λ found. found ≡ None) }
{
    edits_change_one_answer::<(K, V)>();
    let _ = trie.remove(key)?;
    Ok(trie.get(key)?.copied())
}

/// Stores a pair, and looks another key up: it has the value that it had.
fn beside<K: TrieKey + Drop, V: Copy + Drop, Q: TrieKey>(
    trie: &mut Trie<K, V>,
    key: K,
    value: V,
    other: &Q,
) -> Result<Option<V>, TrieError>
    requires { Q.encoding other.now ≢ K.encoding key }
    ensures { IfOk result (λ found. found ≡ value_at trie.old (Q.encoding other.now)) }
{
    edits_change_one_answer::<(K, V)>();
    let _ = trie.insert(key, value)?;
    Ok(trie.get(other)?.copied())
}

/// Splits all below a key off, and grafts it again: the trie is as it was.
fn put_back<K: TrieKey + Drop, V: Drop, Q: TrieKey>(
    trie: &mut Trie<K, V>,
    key: &Q,
) -> Result<(), TrieError>
    ensures { OnOk result (trie.new ≡ trie.old) }
{
    split_part_goes_back(&*trie);
    let part = trie.split_off_prefix(key)?;
    Ok(trie.graft(part)?)
}

/// Takes all below a key away, and looks a key up that isn't below it: it has the value that it
/// had.
fn kept<K: TrieKey + Drop, V: Copy + Drop, P: TrieKey, Q: TrieKey>(
    trie: &mut Trie<K, V>,
    above: &P,
    other: &Q,
) -> Result<Option<V>, Memory>
    requires { IsPrefix (P.encoding above.now) (Q.encoding other.now) → ⊥ }
    ensures { IfOk result (λ found. found ≡ value_at trie.old (Q.encoding other.now)) }
{
    rest_answers_elsewhere::<(K, V)>();
    let _ = trie.remove_prefix(above)?;
    Ok(trie.get(other)?.copied())
}

/// Stores a pair through a view. Where the view's path isn't a prefix nothing changes.
fn within<K: TrieKey + Drop, V: Drop>(
    view: &mut SubTrieMut<'_, K, V>,
    key: K,
    value: V,
) -> Result<Option<V>, InsertError<K, V>>
    ensures { (q : List ℕ) → (IsPrefix (path_of view.old) q → ⊥)
        → finite.get (map_behind view.new) q ≡ finite.get (map_behind view.old) q }
{
    edits_change_one_answer::<(K, V)>();
    view.insert(key, value)
}

/// The pairs of a walk, whose keys' encodings rise.
fn in_order<'a, K: TrieKey, V>(trie: &'a Trie<K, V>) -> Result<Iter<'a, K, V>, Memory>
    ensures { IfOk result (λ pairs. IsRising (each (λ p. K.encoding p.0) pairs)) }
{
    keys_stand_at_their_encodings(trie);
    TrieCommon::iter(trie)
}

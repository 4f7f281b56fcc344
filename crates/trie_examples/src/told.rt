//! What callers are told by words of contracts: a nearest value, why a change fails, all
//! values changed at once, and the order of pairs of numbers.
ghost use Rattle.std.specs.FinMap as map;
ghost use Rattle.std.specs.Prelude.{◌≡◌, ◌+◌, ◌<◌, ◌^◌, ◌-◌, ◌∷◌, ℕ, [], All, List, None, Some, Ok, IfErr, IfOk, IsOk, OnErr, option_map};
ghost use Rattle.radix_trie.specs.Lists.{IsBefore, IsPrefix};
ghost use Rattle.radix_trie.specs.Maps.{below};
ghost use Rattle.radix_trie.specs.Views.{pairs_below};
ghost use Rattle.radix_trie.specs.WriteViews.{map_behind, path_of};
ghost use Rattle.keyed_maps.specs.KeyedMaps.{keyed_map, stored_key};

use keyed_maps::keyed_maps_follow_changes;
use radix_trie::{
    Command, InsertError, InsertWhy, Memory, Nibblet, Reply, SubTrieError, SubTrieMut, Trie,
    TrieKey, run,
};
use std::alloc::Global;
use std::iter::once;

/// The nearest value above a key that has a value: its own.
fn nearest_at<K: TrieKey, V: Copy>(trie: &Trie<K, V>, key: &K) -> Result<Option<V>, Memory>
    ensures { IfOk result (λ found. (v : V)
        → keyed_map K.encoding trie.now key.now ≡ Some v → found ≡ Some v) }
{
    Ok(trie.get_ancestor_value(key)?.copied())
}

/// Replaces the value of an inline key through a view, at whose path or below it stands. It isn't
/// refused.
fn replaced<K: TrieKey + Drop, V: Drop>(
    view: &mut SubTrieMut<'_, K, V>,
    key: K,
    value: V,
) -> Result<Option<V>, InsertError<K, V>>
    requires inline { K.is_inline key }
    requires inside { IsPrefix (path_of view.old) (K.encoding key) }
    ensures { (v : V) → keyed_map K.encoding (map_behind view.old) key ≡ Some v
        → result ≡ Ok (Some v) }
{
    view.insert(key, value)
}

/// Stores an inline key through a view that it lies outside: this, and nothing else, is why it is
/// refused.
fn outside<K: TrieKey + Drop, V: Drop>(
    view: &mut SubTrieMut<'_, K, V>,
    key: K,
    value: V,
) -> Result<Option<V>, InsertError<K, V>>
    requires inline { K.is_inline key }
    requires apart { IsPrefix (path_of view.old) (K.encoding key) → ⊥ }
    ensures { IfErr result (λ e. e.why ≡ InsertWhy.Outside) }
{
    view.insert(key, value)
}

/// Stores one pair by `extend`. Where it fails, that pair comes back, and no other pair was
/// stored.
fn extended_by_one<K: TrieKey + Drop, V: Drop>(
    trie: &mut Trie<K, V>,
    key: K,
    value: V,
) -> Result<(), InsertError<K, V>>
    ensures same { OnErr result (trie.new ≡ trie.old) }
    ensures back { IfErr result (λ e. (e.key ≡ key) × (e.value ≡ value)) }
{
    trie.extend(once((key, value)))
}

/// Runs one command, which puts a value in place of that of an inline key. It isn't refused.
fn replaced_by_run<K: TrieKey + Drop, V: Copy>(
    trie: &mut Trie<K, V>,
    commands: Vec<Command<K, V>>,
    key: &K,
    value: V,
) -> Result<Vec<Reply<V>>, Memory>
    requires one { commands.items ≡ Command.Insert key.now value ∷ [] }
    requires inline { K.is_inline key.now }
    ensures { IfOk result (λ replies. (v : V)
        → keyed_map K.encoding trie.old key.now ≡ Some v
        → replies.items ≡ Reply.Old (Some v) ∷ []) }
{
    run(trie, commands)
}

/// Takes all pairs below an inline key away through a view, where there is none. It isn't refused.
fn pruned<K: TrieKey + Drop, V: Drop, Q: TrieKey>(
    view: &mut SubTrieMut<'_, K, V>,
    key: &Q,
) -> Result<Vec<(K, V)>, SubTrieError>
    requires inline { Q.is_inline key.now }
    requires inside { IsPrefix (path_of view.old) (Q.encoding key.now) }
    requires none { map.len (below (map_behind view.old) (Q.encoding key.now)) ≡ 0 }
    ensures { IsOk result }
{
    view.remove_prefix(key)
}

/// Takes the value of an inline key away through a view, where it has none. It isn't refused.
fn removed<K: TrieKey + Drop, V: Drop>(
    view: &mut SubTrieMut<'_, K, V>,
    key: &K,
) -> Result<Option<V>, SubTrieError>
    requires inline { K.is_inline key.now }
    requires inside { IsPrefix (path_of view.old) (K.encoding key.now) }
    requires none { keyed_map K.encoding (map_behind view.old) key.now ≡ None }
    ensures { result ≡ Ok None }
{
    view.remove(key)
}

/// Adds one to each count. The keys stay.
fn one_more_each<K: TrieKey>(counts: &mut Trie<K, u64>)
    requires room { All (λ p. p.1 + 1 < 2 ^ 64) (pairs_below counts.old []) }
    ensures counted { (k : K) → keyed_map K.encoding counts.new k
        ≡ option_map (λ n. n + 1) (keyed_map K.encoding counts.old k) }
    ensures keys { (k : K)
        → stored_key K.encoding counts.new k ≡ stored_key K.encoding counts.old k }
{
    let more = |_: &K, n: &mut u64|
        requires { n.old + 1 < 2 ^ 64 }
        ensures { n.new ≡ n.old + 1 }
    { *n += 1 };
    keyed_maps_follow_changes::<K, u64, _>(&more);
    counts.for_each_mut(more);
}

/// Adds one to each count, and looks a key up: it has one more than before, or none as before.
fn one_more<K: TrieKey>(counts: &mut Trie<K, u64>, key: &K) -> Result<Option<u64>, Memory>
    requires room { All (λ p. p.1 + 1 < 2 ^ 64) (pairs_below counts.old []) }
    ensures { IfOk result (λ found.
        found ≡ option_map (λ n. n + 1) (keyed_map K.encoding counts.old key.now)) }
{
    one_more_each(counts);
    Ok(counts.get(key)?.copied())
}

/// Sets each value to its key.
fn key_for_each(numbers: &mut Trie<u64, u64>)
    ensures { (e : List ℕ)
        → map.get numbers.new e ≡ option_map (λ p. (p.0, p.0)) (map.get numbers.old e) }
{
    numbers.for_each_mut(
        |key: &u64, value: &mut u64|
            ensures { value.new ≡ key.now }
        { *value = *key },
    );
}

/// The encodings of two pairs of numbers: that of the pair with the smaller first number comes
/// first, and where the first numbers are equal, that of the pair with the smaller second number.
fn encoded(alloc: Global, x: (u8, u16), y: (u8, u16)) -> Result<(Nibblet, Nibblet), Memory>
    ensures first { IfOk result (λ lists. x.0 < y.0 → IsBefore lists.0 lists.1) }
    ensures second { IfOk result (λ lists.
        x.0 ≡ y.0 → x.1 < y.1 → IsBefore lists.0 lists.1) }
{
    Ok((x.encode(alloc)?, y.encode(alloc)?))
}

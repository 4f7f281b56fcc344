//! Callers that split a trie, and merge two.
ghost use Rattle.std.specs.Option.{option_or};
ghost use Rattle.std.specs.Prelude.{◌≡◌, IfOk, OnOk, None, Some};
ghost use Rattle.radix_trie.specs.Lists.{IsPrefix};
ghost use Rattle.keyed_maps.specs.KeyedMaps.{keyed_map};

use keyed_maps::{keyed_maps_follow_parts, keyed_maps_follow_tries, merges_by_key_compose};
use radix_trie::{Memory, Trie, TrieError, TrieKey};

/// Moves all values of another trie here. Where both have one, that of the other stays.
///
/// # Errors
///
/// Those of `Trie::merge`.
fn absorb<K: TrieKey + Drop, V: Drop>(
    trie: &mut Trie<K, V>,
    part: Trie<K, V>,
) -> Result<(), TrieError>
    ensures { OnOk result ((k : K) → keyed_map K.encoding trie.new k
        ≡ option_or (keyed_map K.encoding part k) (keyed_map K.encoding trie.old k)) }
{
    keyed_maps_follow_tries(&part);
    trie.merge(part)?;
    Ok(())
}

/// Takes the values of all keys out whose encodings begin with that of a key, as a trie of their
/// own.
///
/// # Errors
///
/// Those of `Trie::split_off_prefix`.
fn take_below<K: TrieKey + Drop, V: Drop, Q: TrieKey>(
    trie: &mut Trie<K, V>,
    key: &Q,
) -> Result<Trie<K, V>, Memory>
    ensures taken { IfOk result (λ part. (k : K) → IsPrefix (Q.encoding key.now) (K.encoding k)
        → keyed_map K.encoding part k ≡ keyed_map K.encoding trie.old k) }
    ensures gone { OnOk result ((k : K) → IsPrefix (Q.encoding key.now) (K.encoding k)
        → keyed_map K.encoding trie.new k ≡ None) }
    ensures others { OnOk result ((k : K) → (IsPrefix (Q.encoding key.now) (K.encoding k) → ⊥)
        → keyed_map K.encoding trie.new k ≡ keyed_map K.encoding trie.old k) }
{
    keyed_maps_follow_parts::<K, V>();
    trie.split_off_prefix(key)
}

/// Merges two tries none of whose keys has a value in both, the smaller one into the larger, since
/// a merge takes an insertion for each pair. The order makes no difference.
///
/// # Errors
///
/// Those of `Trie::merge`.
fn merge_smaller<K: TrieKey + Drop, V: Drop>(
    one: Trie<K, V>,
    other: Trie<K, V>,
) -> Result<Trie<K, V>, TrieError>
    requires apart { (k : K) (v w : V) → keyed_map K.encoding one k ≡ Some v
        → keyed_map K.encoding other k ≡ Some w → ⊥ }
    ensures { IfOk result (λ both. (k : K) → keyed_map K.encoding both k
        ≡ option_or (keyed_map K.encoding other k) (keyed_map K.encoding one k)) }
{
    keyed_maps_follow_tries(&other);
    merges_by_key_compose(&one, &other);
    let (mut large, small) = if one.len() < other.len() {
        (other, one)
    } else {
        (one, other)
    };
    large.merge(small)?;
    Ok(large)
}

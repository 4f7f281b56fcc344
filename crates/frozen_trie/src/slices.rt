//! Pairs of a list, by their parts.
ghost use Rattle.std.specs.Prelude.{◌≡◌, ◌<◌, length, option_map, slice_get, slice_index_or};
ghost use Rattle.radix_trie.specs.Walks.{deref_pair};

/// The pair at an index, by its parts.
pub(crate) fn entry_at<K, V>(pairs: &[(K, V)], at: usize) -> (&K, &V)
    requires { at < length pairs.now }
    ensures { deref_pair result ≡ slice_index_or pairs.now at (deref_pair result) }
{
    let pair = &pairs[at];
    (&pair.0, &pair.1)
}

/// The pair at an index, by its parts, if there is one.
pub(crate) fn entry_in<K, V>(pairs: &[(K, V)], at: usize) -> Option<(&K, &V)>
    ensures { option_map deref_pair result ≡ slice_get pairs.now at }
{
    match pairs.get(at) {
        Some(pair) => Some((&pair.0, &pair.1)),
        None => None,
    }
}

//! The keys that a view reaches: those whose encodings its path is a prefix of.
ghost use Rattle.std.specs.Prelude.{◌≡◌, ◌≢◌, ◌↔◌, Err, IfOk, IsTrue, OnOk};
ghost use Rattle.nibble_map.specs.Lists.{IsPrefix};

use crate::error::SubTrieError;
use radix_keys::{Nibblet, TrieKey};
use radix_nodes::search::compare::compare;
use std::alloc::Global;

/// The key's encoding, where the path is a prefix of it.
pub(super) fn inside<Q: TrieKey>(
    path: &Nibblet,
    key: &Q,
    alloc: Global,
) -> Result<Nibblet, SubTrieError>
    ensures list { IfOk result (λ list. list ≡ Q.encoding key.now) }
    ensures inside { OnOk result (IsPrefix path.now (Q.encoding key.now)) }
    ensures outside { result ≡ Err SubTrieError.Outside
        → IsPrefix path.now (Q.encoding key.now) → ⊥ }
    ensures inline { Q.is_inline key.now → result ≢ Err SubTrieError.Memory }
{
    let list = key.encode(alloc)?;
    if begins(path, &list) {
        Ok(list)
    } else {
        Err(SubTrieError::Outside)
    }
}

/// Whether a path begins a list.
pub(crate) fn begins(path: &Nibblet, list: &Nibblet) -> bool
    ensures { IsTrue result ↔ IsPrefix path.now list.now }
{
    compare(path, list, 0).same == path.len()
}

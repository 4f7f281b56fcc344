//! Copies of tries in tables, and of tables in tries.
ghost use Rattle.std.specs.Prelude.{◌≡◌, ◌≤◌, ◌^◌, [], IfOk, IsOk, length};
ghost use Rattle.std.specs.FinMap as map;
ghost use Rattle.nibble_map.specs.Lists.{Each};
ghost use Rattle.radix_trie.specs.Views.{pairs_below};
ghost use Rattle.frozen_networks.specs.Networks.{IsNetwork, network_map};

use frozen_routes::{FrozenRoutes, SortedWhy};
use radix_keys::{Address, Memory, Network};
use radix_trie::{BuildError, Trie, TrieCommon, keys_stand_at_their_encodings};
use std::alloc::Global;

/// The table of a trie's networks, each with a clone of its value, in linear time but for the
/// climbs of `FrozenRoutes::from_sorted`. The trie stays as it is.
///
/// Clones of values have to be equal to them as a contract sees them: those of numbers are, and
/// those of values that hold a pointer aren't.
///
/// # Errors
///
/// The trie holds 2^32 networks or more. An allocation fails, for the walk over the trie, for the
/// rows or a clone of a value, or for what the table has beside them. The rows of a trie are always
/// in order. Of no network the call never fails.
pub fn frozen_copy<A: Address, V: Clone>(
    trie: &Trie<Network<A>, V>,
) -> Result<FrozenRoutes<A, V>, BuildError>
    requires same_value { (value copy : V) → V.is_clone value copy → copy ≡ value }
    ensures rows { IfOk result (λ routes. routes ≡ pairs_below trie.now []) }
    ensures full { result ≡ Err BuildError.Full → 2 ^ 32 ≤ map.len trie.now }
    ensures none { map.len trie.now ≡ 0 → IsOk result }
{
    keys_stand_at_their_encodings(trie);
    let Ok(rows) = cloned_rows(trie) else {
        return Err(BuildError::Memory);
    };
    match FrozenRoutes::from_sorted(rows) {
        Ok(routes) => Ok(routes),
        Err(refused) => match refused.why {
            SortedWhy::Memory => Err(BuildError::Memory),
            SortedWhy::Full => Err(BuildError::Full),
            SortedWhy::OutOfOrder(_) => unreachable!(),
        },
    }
}

/// A trie's networks in order, each with a clone of its value.
fn cloned_rows<A: Address, V: Clone>(
    trie: &Trie<Network<A>, V>,
) -> Result<Vec<(Network<A>, V)>, Memory>
    requires same_value { (value copy : V) → V.is_clone value copy → copy ≡ value }
    ensures rows { IfOk result (λ rows. rows.items ≡ pairs_below trie.now []) }
    ensures networks { IfOk result
        (λ rows. Each (λ r. IsNetwork A.BITS A.number r.0) rows.items) }
    ensures none { map.len trie.now ≡ 0 → IsOk result }
{
    if trie.is_empty() {
        return Ok(Vec::new(trie.allocator()));
    }
    let mut rows = Vec::with_capacity(trie.allocator(), trie.len())?;
    let mut walk = trie.cursor();
    while let Some((network, value)) = walk.next()? {
        // For its clause that the base has 0 behind the bits.
        network.base();
        let copy = value.clone()?;
        rows.push((*network, copy))?;
    }
    Ok(rows)
}

/// The trie of a table's networks, each with a clone of its value. The table stays as it is. Each
/// row takes an insertion.
///
/// Clones of values have to be equal to them as a contract sees them: those of numbers are, and
/// those of values that hold a pointer aren't.
///
/// # Errors
///
/// An allocation fails, for a node of the trie, a network's bits or a clone of a value. Of no row
/// the call never fails.
pub fn thawed_copy<A: Address, V: Clone>(
    alloc: Global,
    routes: &FrozenRoutes<A, V>,
) -> Result<Trie<Network<A>, V>, Memory>
    requires same_value { (value copy : V) → V.is_clone value copy → copy ≡ value }
    ensures map { IfOk result (λ trie. trie ≡ network_map A.BITS A.number routes.now) }
    ensures none { length routes.now ≡ 0 → IsOk result }
{
    let mut trie = Trie::new(alloc);
    for (network, value) in routes.rows() {
        let copy = value.clone()?;
        if trie.insert(*network, copy).is_err() {
            return Err(Memory);
        }
    }
    Ok(trie)
}

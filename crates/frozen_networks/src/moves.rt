//! Tries made tables, and tables made tries: the values are moved.
ghost use Rattle.std.specs.Prelude.{◌≡◌, ◌≤◌, ◌^◌, ◌++◌, [], IfOk, IfErr, IsOk, length};
ghost use Rattle.std.specs.FinMap as map;
ghost use Rattle.nibble_map.specs.Lists.{Each, IsRising};
ghost use Rattle.radix_trie.specs.Views.{pairs_below};
ghost use Rattle.frozen_trie.specs.Frozen.{codes_of};
ghost use Rattle.frozen_networks.specs.Networks.{IsNetwork, network_code, network_map};

use crate::laws::networks_rise_as_their_bits;
use frozen_routes::{FrozenRoutes, Room};
use radix_keys::{Address, Memory, Network, Refused};
use radix_trie::{BuildError, Trie, keys_stand_at_their_encodings};
use std::alloc::Global;

/// The table of a trie's networks, in linear time but for the climbs of
/// `FrozenRoutes::from_sorted`: the values are moved, and the nodes are freed.
///
/// # Errors
///
/// The trie holds 2^32 networks or more. An allocation fails, for the rows or for what the table
/// has beside them. The trie comes back as it was: the values are moved last. Of no network the
/// call never fails.
///
/// # Examples
///
/// ```
/// # use nifazombi::{radix_keys::Ipv4Network, radix_trie::Trie, rattle_std::alloc::Global};
/// # use std::net::Ipv4Addr;
/// use nifazombi::frozen_networks::freeze;
///
/// let mut hops: Trie<Ipv4Network, u32> = Trie::new(Global);
/// hops.insert("10.0.0.0/8".parse()?, 1)?;
/// let routes = freeze(hops)?;
/// let found = routes.longest_match(&Ipv4Addr::new(10, 1, 2, 3));
/// assert!(found.is_some_and(|(_, hop)| *hop == 1));
/// # Ok::<(), Box<dyn std::error::Error>>(())
/// ```
pub fn freeze<A: Address, V: Drop>(
    trie: Trie<Network<A>, V>,
) -> Result<FrozenRoutes<A, V>, Refused<BuildError, Trie<Network<A>, V>>>
    ensures rows { IfOk result (λ routes. routes ≡ pairs_below trie []) }
    ensures handed_back { IfErr result (λ e. e.back ≡ trie) }
    ensures full { IfErr result (λ e. e.why ≡ BuildError.Full → 2 ^ 32 ≤ map.len trie) }
    ensures none { map.len trie ≡ 0 → IsOk result }
{
    keys_stand_at_their_encodings(&trie);
    if trie.len() > u32::MAX as usize {
        let why = BuildError::Full;
        return Err(Refused { why, back: trie });
    }
    let why = BuildError::Memory;
    let Ok(room) = Room::new(trie.allocator(), trie.len()) else {
        return Err(Refused { why, back: trie });
    };
    match trie.into_pairs() {
        Ok(rows) => Ok(in_room(room, rows)),
        Err(back) => Err(Refused { why, back }),
    }
}

/// The table of the rows of a trie, of which there is room for each.
fn in_room<A: Address, V>(room: Room<A>, rows: Vec<(Network<A>, V)>) -> FrozenRoutes<A, V>
    requires room { length rows.items ≤ room }
    requires rising { IsRising (codes_of (network_code A.BITS A.number) rows.items) }
    ensures { result ≡ rows.items }
{
    each_is_network(&rows);
    networks_rise_as_their_bits::<A, V>();
    match FrozenRoutes::from_sorted_in(room, rows) {
        Ok(routes) => routes,
        // There is room, and a trie's networks are in order.
        Err(_) => unreachable!(),
    }
}

/// Each row is of a network.
fn each_is_network<A: Address, V>(rows: &[(Network<A>, V)])
    ensures { Each (λ r. IsNetwork A.BITS A.number r.0) rows.now }
{
    for row in rows {
        // For its clause that the base has 0 behind the bits.
        row.0.base();
    }
}

/// The trie of a table's networks. The values are moved into it, from the last row to the first,
/// each by an insertion.
///
/// # Errors
///
/// An allocation fails, for a node of the trie or a network's bits; of no row it never does. No row
/// is lost, and none is dropped: those that are stored in the trie come back with it, and the
/// others beside it, so that a caller can go on where the call stopped.
///
/// # Examples
///
/// ```
/// # use nifazombi::{radix_keys::Ipv4Network, radix_trie::Trie, rattle_std::alloc::Global};
/// use nifazombi::frozen_networks::{freeze, thaw};
///
/// let mut hops: Trie<Ipv4Network, u32> = Trie::new(Global);
/// hops.insert("10.0.0.0/8".parse()?, 1)?;
/// let routes = freeze(hops)?;
/// assert_eq!(thaw(Global, routes)?.len(), 1);
/// # Ok::<(), Box<dyn std::error::Error>>(())
/// ```
pub fn thaw<A: Address, V: Drop>(
    alloc: Global,
    routes: FrozenRoutes<A, V>,
) -> Result<Trie<Network<A>, V>, Refused<Memory, (Vec<(Network<A>, V)>, Trie<Network<A>, V>)>>
    ensures map { IfOk result (λ trie. trie ≡ network_map A.BITS A.number routes) }
    ensures handed_back { IfErr result (λ e. e.back.0.items ++ pairs_below e.back.1 [] ≡ routes) }
    ensures none { length routes ≡ 0 → IsOk result }
{
    let mut rest = routes.into_rows();
    let mut trie = Trie::new(alloc);
    while let Some((network, value)) = rest.pop() {
        if let Err(refused) = trie.insert(network, value) {
            // There is room for the row that was taken.
            rest.push_reserved((refused.key, refused.value));
            return Err(Refused {
                why: Memory,
                back: (rest, trie),
            });
        }
    }
    Ok(trie)
}

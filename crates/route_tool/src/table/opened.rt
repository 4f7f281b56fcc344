//! Routes that were opened: they stand in order, and no trie holds them until one of them changes.
ghost use Rattle.std.specs.Prelude.{◌≡◌, [], OnOk, OnErr};
ghost use Rattle.frozen_networks.specs.Networks.{network_map};
ghost use Rattle.route_tool.specs.Routes.{held_routes};

use crate::hop::Hop;
use crate::table::Routes;
use crate::table::looks::Frozen;
use frozen_networks::thawed_copy;
use frozen_routes::FrozenRoutes;
use radix_trie::{Address, Memory, Network, Trie, stored_keys_are_equal};
use std::alloc::Global;

/// Grows a trie of the rows where these stand alone, and drops the rows, before a route changes. It
/// takes time for each row then. After a failure all is as before.
pub(super) fn grow<A: Address>(
    alloc: Global,
    trie: &mut Trie<Network<A>, Hop>,
    frozen: &mut Frozen<A>,
) -> Result<(), Memory>
    ensures grown { OnOk result (trie.new ≡ held_routes A.BITS A.number trie.old frozen.old.rows) }
    ensures dropped { OnOk result (frozen.new.rows ≡ []) }
    ensures trie { OnErr result (trie.new ≡ trie.old) }
    ensures rows { OnErr result (frozen.new.rows ≡ frozen.old.rows) }
{
    if trie.is_empty() {
        *trie = thawed_copy(alloc, frozen.rows())?;
    }
    frozen.thaw(alloc);
    Ok(())
}

impl<A: Address> Routes<A> {
    /// The routes of rows in order.
    pub fn of_rows(alloc: Global, rows: FrozenRoutes<A, Hop>) -> Routes<A>
        ensures { result ≡ network_map A.BITS A.number rows }
    {
        stored_keys_are_equal::<Network<A>, Hop>();
        // For its clause that the rows are in order.
        rows.rows();
        Routes {
            alloc,
            trie: Trie::new(alloc),
            frozen: Frozen::of_rows(rows),
        }
    }
}

//! Lookups, in the trie or among the same routes in order.
ghost use Rattle.std.specs.Prelude.{◌≡◌, ◌≤◌, [], IfOk, IsOk, option_copied, option_map};
ghost use Rattle.radix_trie.specs.Walks.{deref_pair};
ghost use Rattle.route_tool.specs.Routes.{AreNetworks, IsLongestRoute, hop_of};

use crate::hop::Hop;
use crate::table::Routes;
use frozen_networks::frozen_copy;
use frozen_routes::{FrozenRoutes, addresses_ask_as_networks};
use radix_trie::{Address, Memory, Network, Trie, TrieKey};
use std::alloc::Global;

// The routes are frozen once more than so many lookups have come since the last change, and one
// more for each so many routes. To freeze these takes about as long as one lookup among frozen
// routes saves, so the worst session takes three times what it would take with foresight.
const LEAST_LOOKS: usize = 64;

const ROUTES_A_LOOK: usize = 16;

/// The routes in order, where lookups are answered from these, or none of them.
#[derive(Drop)]
pub struct Frozen<A: Address> {
    rows: FrozenRoutes<A, Hop>,
    /// How many lookups have come since the last change, while there are no rows.
    looks: usize,
}

impl<A: Address> Frozen<A> {
    /// No rows.
    pub fn new(alloc: Global) -> Frozen<A>
        ensures { result.rows ≡ [] }
    {
        Frozen {
            rows: FrozenRoutes::new(alloc),
            looks: 0,
        }
    }

    /// These rows.
    pub fn of_rows(rows: FrozenRoutes<A, Hop>) -> Frozen<A>
        ensures { result.rows ≡ rows }
    {
        Frozen { rows, looks: 0 }
    }

    /// The rows.
    pub fn rows(&self) -> &FrozenRoutes<A, Hop>
        ensures { result.now ≡ self.now.rows }
    {
        &self.rows
    }

    /// Drops the rows, before a route changes.
    pub fn thaw(&mut self, alloc: Global)
        ensures { self.new.rows ≡ [] }
    {
        self.rows = FrozenRoutes::new(alloc);
        self.looks = 0;
    }

    /// Counts a lookup among so many routes. Gives whether they are to be frozen now; the count
    /// begins anew then.
    fn is_due(&mut self, routes: usize) -> bool
        ensures { self.new.rows ≡ self.old.rows }
    {
        if !self.rows.is_empty() {
            return false;
        }
        self.looks = self.looks.saturating_add(1);
        let is_due = self.looks > LEAST_LOOKS + routes / ROUTES_A_LOOK;
        if is_due {
            self.looks = 0;
        }
        is_due
    }
}

/// The longest network that holds the address, and its hop, by the trie.
fn find_in_trie<A: Address>(
    alloc: Global,
    trie: &Trie<Network<A>, Hop>,
    address: A,
) -> Result<Option<(&Network<A>, &Hop)>, Memory>
    requires { AreNetworks A.BITS A.number trie.now }
    ensures longest { IfOk result (λ found.
        IsLongestRoute A.BITS A.number trie.now (A.number address)
        (option_map deref_pair found)) }
    ensures inline { A.BITS ≤ 32 → IsOk result }
{
    let bits = Network::host(address).encode(alloc)?;
    Ok(trie.nearest(&bits))
}

impl<A: Address> Routes<A> {
    /// Freezes the routes: the lookups until the next change are answered from a table in order.
    /// It takes time for each route.
    pub(super) fn freeze(&mut self) -> Result<(), Memory>
        ensures same { self.new ≡ self.old }
    {
        if !self.trie.is_empty() {
            match frozen_copy(&self.trie) {
                Ok(rows) => self.frozen.rows = rows,
                Err(_) => return Err(Memory),
            }
        }
        Ok(())
    }

    /// Counts a lookup that is to come, and freezes the routes where enough have come since the
    /// last change. Where an allocation for it fails, lookups go on in the trie.
    pub fn expect_look(&mut self)
        ensures same { self.new ≡ self.old }
    {
        let routes = self.len();
        if self.frozen.is_due(routes) {
            let _refused = self.freeze();
        }
    }

    /// The longest network that holds the address, and its hop.
    ///
    /// Never fails for an IPv4 address, nor where the routes are frozen.
    pub fn find(&self, address: A) -> Result<Option<(&Network<A>, &Hop)>, Memory>
        ensures longest { IfOk result (λ found.
            IsLongestRoute A.BITS A.number self.now (A.number address)
            (option_map deref_pair found)) }
        ensures inline { A.BITS ≤ 32 → IsOk result }
    {
        if self.frozen.rows.is_empty() {
            return find_in_trie(self.alloc, &self.trie, address);
        }
        addresses_ask_as_networks::<A, Hop>();
        self.frozen.rows.rows();
        Ok(self.frozen.rows.longest_match(&address))
    }

    /// The hop of the longest network that holds the address.
    ///
    /// Never fails for an IPv4 address, nor where the routes are frozen.
    pub fn look(&self, address: A) -> Result<Option<&Hop>, Memory>
        ensures longest { IfOk result (λ hop. (found : _)
            × IsLongestRoute A.BITS A.number self.now (A.number address) found
            × (option_copied hop ≡ hop_of found)) }
        ensures inline { A.BITS ≤ 32 → IsOk result }
    {
        match self.find(address)? {
            Some((_, hop)) => Ok(Some(hop)),
            None => Ok(None),
        }
    }
}

//! The routing table: networks of both families, each with its hop.
ghost use Rattle.std.specs.Prelude.{◌≡◌, [], length, IfOk, IfSome, IfNone, OnOk, OnErr};
ghost use Rattle.std.specs.FinMap as map;
ghost use Rattle.route_tool.specs.Answers.{count_of};
ghost use Rattle.route_tool.specs.Routes.{AreNetworks, hop_at, in_order, routes_within, with_route, without_route};

use crate::hop::Hop;
use crate::table::looks::Frozen;
use crate::table::opened::grow;
pub use crate::table::rest::Rest;
use radix_trie::{Address, Memory, Network, Trie, TrieCommon, stored_keys_are_equal};
use std::alloc::Global;
use std::marker::Model;
use std::net::{Ipv4Addr, Ipv6Addr};

mod looks;
mod opened;
mod rest;

/// Routes that are still to come, and how many they are.
#[derive(Drop)]
pub struct Rows<'a, A: Address> {
    pub count: usize,
    pub walk: Rest<'a, A>,
    ghost counted: { count ≡ length walk },
}

/// The routes of one family: networks, each with its hop. A contract sees the finite map from the
/// first bits of each network, those that its addresses share, to the network and its hop.
///
/// The trie is what changes. Where many lookups come between two changes, they are answered from
/// the same routes in order; no answer depends on it. Routes that were opened stand in order alone,
/// and the trie is grown at the first change.
#[derive(Drop)]
pub struct Routes<A: Address> {
    alloc: Global,
    trie: Trie<Network<A>, Hop>,
    frozen: Frozen<A>,
}

impl<A: Address> Model for Routes<A> {
    ghost use Rattle.std.specs.Prelude.{ℕ, List};
    ghost use Rattle.nibble_map.specs.Maps.{PairMap};
    ghost use Rattle.radix_keys.specs.Networks.{Net};
    ghost use Rattle.route_tool.specs.Routes.{routes_code};

    ghost Value = { PairMap (Net A) (List ℕ) };

    ghost coded = { routes_code A.code };

    ghost use Rattle.route_tool.specs.Routes.{AreHeldRoutes, held_routes};

    ghost view = { λ r. held_routes A.BITS A.number r.trie r.frozen.rows };

    ghost invariant = { λ r. AreHeldRoutes A.BITS A.number r.trie r.frozen.rows };
}

impl<A: Address> Routes<A> {
    /// No route.
    pub fn new(alloc: Global) -> Routes<A>
        ensures { result ≡ map.empty }
    {
        stored_keys_are_equal::<Network<A>, Hop>();
        Routes {
            alloc,
            trie: Trie::new(alloc),
            frozen: Frozen::new(alloc),
        }
    }

    /// Stores a route, and gives the hop that the network had. After a failure all is as before.
    pub fn add(&mut self, network: Network<A>, hop: &str) -> Result<Option<Hop>, Memory>
        ensures old_hop { IfOk result (λ old. old ≡ hop_at A.BITS A.number self.old network) }
        ensures added { OnOk result
            (self.new ≡ with_route A.BITS A.number self.old network hop.now) }
        ensures unchanged { OnErr result (self.new ≡ self.old) }
    {
        stored_keys_are_equal::<Network<A>, Hop>();
        let hop = Hop::new(self.alloc, hop.as_bytes())?;
        grow(self.alloc, &mut self.trie, &mut self.frozen)?;
        self.trie.insert(network, hop).map_err(|_| Memory)
    }

    /// Takes the network's route away, and gives its hop. After a failure all is as before.
    pub fn del(&mut self, network: &Network<A>) -> Result<Option<Hop>, Memory>
        ensures old_hop { IfOk result (λ old. old ≡ hop_at A.BITS A.number self.old network.now) }
        ensures removed { OnOk result
            (self.new ≡ without_route A.BITS A.number self.old network.now) }
        ensures unchanged { OnErr result (self.new ≡ self.old) }
    {
        stored_keys_are_equal::<Network<A>, Hop>();
        grow(self.alloc, &mut self.trie, &mut self.frozen)?;
        self.trie.remove(network)
    }

    /// Lays the nodes of the tree anew, in the order of the routes, and freezes these. Where it is
    /// refused, the tree may be laid anew. Routes that were opened are frozen already.
    pub fn compact(&mut self) -> Result<(), Memory>
        ensures same { self.new ≡ self.old }
    {
        if self.trie.is_empty() {
            return Ok(());
        }
        self.trie.compact()?;
        self.freeze()
    }

    /// The routes of the networks within this one, in the order of their bits; None, or a walk over
    /// none, where there is none.
    pub fn below(&self, network: &Network<A>) -> Result<Option<Rows<'_, A>>, Memory>
        ensures rows { IfOk result (λ o. IfSome o
            (λ rows. rows.walk ≡ routes_within A.BITS A.number self.now network.now)) }
        ensures none { IfOk result (λ o. IfNone o
            (routes_within A.BITS A.number self.now network.now ≡ [])) }
    {
        if self.trie.is_empty() {
            // For its clause that the base has 0 behind the bits.
            network.base();
            let rows = self.frozen.rows().below(network);
            return Ok(Some(Rows {
                count: rows.len(),
                walk: Rest::new(rows, TrieCommon::cursor(&self.trie)),
            }));
        }
        match self.trie.get_raw_descendant(network)? {
            Some(view) => {
                let count = TrieCommon::len(&view);
                let walk = TrieCommon::cursor(&view);
                Ok(Some(Rows {
                    count,
                    walk: Rest::new(&[], walk),
                }))
            }
            None => Ok(None),
        }
    }

    /// How many routes there are.
    pub fn len(&self) -> usize
        ensures { result ≡ length (in_order self.now) }
    {
        if self.trie.is_empty() {
            return self.frozen.rows().len();
        }
        self.trie.len()
    }

    /// All routes, in the order of their networks' bits, by a walk that begins at once.
    pub fn rest(&self) -> Rest<'_, A>
        ensures walk { result ≡ in_order self.now }
        ensures networks { AreNetworks A.BITS A.number self.now }
    {
        if self.trie.is_empty() {
            let rows = self.frozen.rows().rows();
            return Rest::new(rows, TrieCommon::cursor(&self.trie));
        }
        Rest::new(&[], TrieCommon::cursor(&self.trie))
    }
}

/// The routes of both families.
#[derive(Drop)]
pub struct Table {
    pub v4: Routes<Ipv4Addr>,
    pub v6: Routes<Ipv6Addr>,
}

impl Table {
    /// No route.
    pub fn new(alloc: Global) -> Table
        ensures v4 { result.v4 ≡ map.empty }
        ensures v6 { result.v6 ≡ map.empty }
    {
        Table {
            v4: Routes::new(alloc),
            v6: Routes::new(alloc),
        }
    }

    /// Lays the nodes of both trees anew, so that lookups in a table that is filled take less
    /// time. Where it fails, the first tree may be laid anew.
    pub fn compact(&mut self) -> Result<(), Memory>
        ensures v4 { self.new.v4 ≡ self.old.v4 }
        ensures v6 { self.new.v6 ≡ self.old.v6 }
    {
        self.v4.compact()?;
        self.v6.compact()
    }

    /// How many routes there are, of both families together.
    pub fn len(&self) -> u128
        ensures { result ≡ count_of self.now }
    {
        self.v4.len() as u128 + self.v6.len() as u128
    }
}

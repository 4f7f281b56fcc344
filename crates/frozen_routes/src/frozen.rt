//! A routing table for reading alone: its networks in order.
ghost use Rattle.std.specs.Prelude.{◌≡◌, ◌↔◌, ◌+◌, ◌-◌, ◌<◌, ◌≤◌, ◌∷◌, IsTrue, length, option_copied, option_map, slice_get};
ghost use Rattle.std.specs.List.{filter};
ghost use Rattle.radix_keys.specs.Networks.{Net};
ghost use Rattle.frozen_routes.specs.Routes.{IsLongestAround, IsOwnRow, IsFoundRow, IsValueOf, AreRowsInOrder, row_of_refs, rows_up, is_around, is_inside};

use crate::directory::Directory;
use crate::prefixes::CommonPrefixes;
use crate::queries::RouteQuery;
use crate::rows::{entry_at, entry_in, is_of};
use crate::search::{cut, last_around};
use radix_keys::{Address, Network};
use std::alloc::Global;
use std::marker::Model;

/// Networks of one family, each with a value, which are put in once and then read: all rows in the
/// order of the first addresses, and of one first address the wider network first.
///
/// A contract sees it as the list of its rows. A lookup allocates nothing, and none fails.
///
/// # Examples
///
/// ```
/// # use nifazombi::rattle_std::alloc::Global;
/// # use std::net::Ipv4Addr;
/// use nifazombi::frozen_routes::FrozenRoutes;
///
/// let mut routes: FrozenRoutes<Ipv4Addr, u32> = FrozenRoutes::new(Global);
/// routes.push("10.0.0.0/8".parse()?, 1)?;
/// routes.push("10.1.0.0/16".parse()?, 2)?;
/// routes.finish()?;
/// let found = routes.longest_match(&Ipv4Addr::new(10, 1, 2, 3));
/// assert!(found.is_some_and(|(_, hop)| *hop == 2));
/// # Ok::<(), Box<dyn std::error::Error>>(())
/// ```
#[derive(Drop)]
pub struct FrozenRoutes<A: Address, V> {
    pub(crate) rows: Vec<(Network<A>, V)>,
    /// For each row, the index and one more of the last earlier one whose network holds its first
    /// address, or 0.
    pub(crate) parents: Vec<u32>,
    /// What is known of the rows at each value of an address's first bits.
    pub(crate) directory: Directory,
    pub(crate) alloc: Global,
}

impl<A: Address, V> Model for FrozenRoutes<A, V> {
    ghost use Rattle.std.specs.Prelude.{List};
    ghost use Rattle.radix_keys.specs.Networks.{Net};
    ghost use Rattle.frozen_routes.specs.Routes.{AreLinked, base_numbers, rows_code, bit_counts};

    ghost Value = { List (Net A × V) };

    ghost coded = { rows_code A.code V.code };

    ghost view = { λ f. f.rows.items };

    ghost invariant = { λ f. AreLinked A.BITS (base_numbers A.number f.rows.items)
        (bit_counts f.rows.items) f.parents.items f.directory.rest f.directory.cells.items f.directory.uppers.items };
}

impl<A: Address, V> FrozenRoutes<A, V> {
    /// The count of rows.
    pub fn len(&self) -> usize
        ensures { result ≡ length self.now }
    {
        self.rows.len()
    }

    /// Whether there is no row.
    pub fn is_empty(&self) -> bool
        ensures { IsTrue result ↔ (length self.now ≡ 0) }
    {
        self.len() == 0
    }

    /// The value of this very network, or None where no row is of it. It allocates nothing.
    ///
    /// It takes as many comparisons as the count of rows has binary digits.
    pub fn get(&self, network: &Network<A>) -> Option<&V>
        ensures value { IsValueOf A.number self.now network.now (option_copied result) }
    {
        let (_, value) = self.get_key_value(network)?;
        Some(value)
    }

    /// The row of this very network, or None where there is none. It allocates nothing.
    ///
    /// It takes the time of `get`.
    pub fn get_key_value(&self, network: &Network<A>) -> Option<(&Network<A>, &V)>
        ensures row { IsFoundRow A.number self.now network.now (option_map row_of_refs result) }
    {
        let at = cut(&self.rows, network, false);
        if at >= self.rows.len() || !is_of(&self.rows, at, network) {
            return None;
        }
        Some(entry_at(&self.rows, at))
    }

    /// Whether a row is of this very network. It allocates nothing.
    ///
    /// It takes the time of `get`.
    pub fn contains_key(&self, network: &Network<A>) -> bool
        ensures stored { IsTrue result
            ↔ ((r : Net A × V) × IsOwnRow A.number self.now network.now r) }
    {
        self.get_key_value(network).is_some()
    }

    /// The first row, or None where there is none. It takes constant time.
    pub fn first_key_value(&self) -> Option<(&Network<A>, &V)>
        ensures row { option_map row_of_refs result ≡ slice_get self.now 0 }
    {
        entry_in(&self.rows, 0)
    }

    /// The last row, or None where there is none. It takes constant time.
    pub fn last_key_value(&self) -> Option<(&Network<A>, &V)>
        ensures row { option_map row_of_refs result
            ≡ slice_get self.now (length self.now - 1) }
    {
        entry_in(&self.rows, self.rows.len().saturating_sub(1))
    }

    /// The row of the longest network that holds an address, or all of a network, or None where
    /// none does. It allocates nothing.
    ///
    /// It takes as many comparisons as the count of rows has binary digits, and then a step for
    /// each network around the last one that begins at or before the address, until one holds it.
    /// With the table of first bits, which `from_sorted` and `finish` make from 256 rows on, both
    /// go over those rows alone whose first address agrees with this one in these bits, of which
    /// there are as many as the count of all rows has binary digits, but at most 21: where none of
    /// them holds the address, the table says which row does. A network takes the time of its first
    /// address, and a step for each longer network that holds this.
    pub fn longest_match<Q: RouteQuery<A>>(&self, query: &Q) -> Option<(&Network<A>, &V)>
        ensures row { IsLongestAround A.BITS A.number self.now (Q.net query.now)
            (option_map row_of_refs result) }
    {
        let found = last_around(&self.rows, &self.parents, &self.directory, &query.network());
        if found == 0 {
            return None;
        }
        Some(entry_at(&self.rows, found - 1))
    }

    /// The walk over the rows whose networks hold an address, or all of a network, in order, so the
    /// widest first; from its other end the longest first. It allocates nothing.
    ///
    /// It takes the time of `longest_match` and a step for each of these rows, and ends with the
    /// row that `longest_match` returns.
    pub fn common_prefixes<Q: RouteQuery<A>>(&self, query: &Q) -> CommonPrefixes<'_, A, V>
        ensures walk { result ≡ filter (is_around A.BITS A.number (Q.net query.now)) self.now }
    {
        let last = last_around(&self.rows, &self.parents, &self.directory, &query.network());
        CommonPrefixes::new(self, last)
    }

    /// The rows whose networks lie within a network, itself among them, in order. It allocates
    /// nothing.
    ///
    /// It takes twice as many comparisons as the count of rows has binary digits.
    pub fn below(&self, network: &Network<A>) -> &[(Network<A>, V)]
        ensures rows { result.now ≡ filter (is_inside A.BITS A.number network.now) self.now }
    {
        let from = cut(&self.rows, network, false);
        let to = cut(&self.rows, network, true);
        &self.rows[from..to]
    }

    /// How many rows' networks lie within a network, itself among them. It allocates nothing.
    ///
    /// It takes the time of `below`.
    pub fn count_below(&self, network: &Network<A>) -> usize
        ensures count { result
            ≡ length (filter (is_inside A.BITS A.number network.now) self.now) }
    {
        self.below(network).len()
    }

    /// All rows, in order.
    pub fn rows(&self) -> &[(Network<A>, V)]
        ensures rows { result.now ≡ self.now }
        ensures rising { AreRowsInOrder A.BITS A.number self.now }
    {
        self.rows.as_slice()
    }

    /// All rows, in order. It allocates nothing.
    pub fn into_rows(self) -> Vec<(Network<A>, V)>
        ensures rows { result.items ≡ self }
        ensures rising { AreRowsInOrder A.BITS A.number self }
    {
        self.rows
    }

    /// The row at an index, by its parts, and the link there: the index and one more of the row of
    /// the network around its own, or 0.
    pub(crate) fn step_up(&self, at: usize) -> ((&Network<A>, &V), usize)
        requires { at < length self.now }
        ensures walk { rows_up A.BITS A.number self.now (at + 1)
            ≡ row_of_refs result.0 ∷ rows_up A.BITS A.number self.now result.1 }
        ensures within { result.1 ≤ at }
    {
        (entry_at(&self.rows, at), self.parents[at] as usize)
    }
}

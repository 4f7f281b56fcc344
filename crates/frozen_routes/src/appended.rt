//! A routing table for reading, made row by row in order.
ghost use Rattle.std.specs.Prelude.{◌≡◌, ◌≢◌, ◌-◌, ◌^◌, ◌<◌, ◌≤◌, ◌++◌, [], ◌∷◌, IfErr, IsOk, OnOk, length};
ghost use Rattle.frozen_routes.specs.Routes.{AreRowsInOrder};

use crate::directory::Directory;
use crate::frozen::FrozenRoutes;
use crate::linked::link_after;
use radix_keys::{Address, Memory, Network, Refused};
use sorted_tables::PushWhy;
use std::alloc::Global;

impl<A: Address, V> FrozenRoutes<A, V> {
    /// The table of no row. It allocates nothing.
    pub fn new(alloc: Global) -> FrozenRoutes<A, V>
        ensures { result ≡ [] }
    {
        FrozenRoutes {
            rows: Vec::new(alloc),
            parents: Vec::new(alloc),
            directory: Directory::none(alloc),
            alloc,
        }
    }

    /// Appends a row whose network comes after all others: by its first address, or, where another
    /// has the same, by more bits. It takes constant time but for the climb to the network around
    /// it, and drops what `finish` made to shorten lookups.
    ///
    /// # Errors
    ///
    /// In this order: the table holds 2^32 - 1 rows; the network doesn't come after all others;
    /// an allocation fails. The row comes back, and the table is as before.
    pub fn push(
        &mut self,
        network: Network<A>,
        value: V,
    ) -> Result<(), Refused<PushWhy, (Network<A>, V)>>
        ensures ok { OnOk result (self.new ≡ self.old ++ (network, value) ∷ []) }
        ensures rising { OnOk result (AreRowsInOrder A.BITS A.number self.new) }
        ensures unsorted { IfErr result (λ e. e.why ≡ PushWhy.OutOfOrder
            → AreRowsInOrder A.BITS A.number (self.old ++ (network, value) ∷ []) → ⊥) }
        ensures full { IfErr result (λ e. e.why ≡ PushWhy.Full
            → 2 ^ 32 - 1 ≤ length self.old) }
        ensures room { IfErr result (λ e. e.why ≢ PushWhy.Full → length self.old < 2 ^ 32 - 1) }
        ensures memory { IfErr result (λ e. e.why ≡ PushWhy.Memory
            → AreRowsInOrder A.BITS A.number (self.old ++ (network, value) ∷ [])) }
        ensures handed_back { IfErr result (λ e. e.back ≡ (network, value)) }
        ensures unchanged { IfErr result (λ _. self.new ≡ self.old) }
    {
        let row = (network, value);
        if self.rows.len() >= u32::MAX as usize {
            let why = PushWhy::Full;
            return Err(Refused { why, back: row });
        }
        let Some(link) = link_after(&self.rows, &self.parents, &row.0) else {
            let why = PushWhy::OutOfOrder;
            return Err(Refused { why, back: row });
        };
        if self.rows.reserve(1).is_err() || self.parents.reserve(1).is_err() {
            let why = PushWhy::Memory;
            return Err(Refused { why, back: row });
        }
        self.parents.push_reserved(link);
        self.rows.push_reserved(row);
        self.directory = Directory::none(self.alloc);
        Ok(())
    }

    /// Takes no more room than the rows need, and makes what shortens lookups where there are 256
    /// rows or more: a table by the first bits of an address, of at most 16 bytes a row and 8 more,
    /// and of IPv6 the upper halves of the first addresses, of 8 bytes a row. A row that is
    /// appended later drops both. It takes linear time but for the climb to the network around each
    /// value of the first bits.
    ///
    /// # Errors
    ///
    /// An allocation for these fails, which fewer than 256 rows never meet. Each call returns the
    /// same without them.
    pub fn finish(&mut self) -> Result<(), Memory>
        ensures same { self.new ≡ self.old }
        ensures few { length self.old < 256 → IsOk result }
    {
        self.rows.shrink_to_fit();
        self.parents.shrink_to_fit();
        let (directory, room) = Directory::with_room::<A>(self.alloc, self.rows.len())?;
        self.directory = directory.filled(&self.rows, &self.parents, room);
        Ok(())
    }
}

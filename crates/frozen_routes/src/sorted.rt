//! A routing table for reading, made of all its rows in order.
ghost use Rattle.std.specs.Prelude.{◌≡◌, ◌≢◌, ◌^◌, ◌<◌, ◌≤◌, ℕ, IfErr, IfOk, IsOk, OnOk, length};
ghost use Rattle.frozen_routes.specs.Routes.{AreLinked, AreRowsInOrder, IsFirstOutOfOrder, base_numbers, bit_counts};

use crate::directory::Directory;
use crate::frozen::FrozenRoutes;
use crate::linked::link_after;
use crate::room::Room;
use radix_keys::{Address, Network, Refused};
use sorted_tables::SortedWhy;

impl<A: Address, V> FrozenRoutes<A, V> {
    /// The table of rows whose networks rise: by their first addresses, and of one first address by
    /// their bits. The vector is kept as it is, and what `finish` makes to shorten lookups is made
    /// too. It takes linear time but for the climbs to the network around each network, and around
    /// each value of the first bits.
    ///
    /// # Errors
    ///
    /// A network doesn't come after that of the row before it, and the error says of the first such
    /// row where it stands. There are 2^32 rows or more. Memory for the links, or for what shortens
    /// lookups, fails, before any row is read. The rows come back. Of no row the call never
    /// fails.
    pub fn from_sorted(
        rows: Vec<(Network<A>, V)>,
    ) -> Result<FrozenRoutes<A, V>, Refused<SortedWhy, Vec<(Network<A>, V)>>>
        ensures ok { IfOk result (λ routes. routes ≡ rows.items) }
        ensures rising { OnOk result (AreRowsInOrder A.BITS A.number rows.items) }
        ensures handed_back { IfErr result (λ e. e.back ≡ rows) }
        ensures unsorted { IfErr result (λ e. (i : ℕ) → e.why ≡ SortedWhy.OutOfOrder i
            → IsFirstOutOfOrder A.BITS A.number rows.items i) }
        ensures full { IfErr result (λ e. e.why ≡ SortedWhy.Full → 2 ^ 32 ≤ length rows.items) }
        ensures none { length rows.items ≡ 0 → IsOk result }
    {
        if rows.len() > u32::MAX as usize {
            let why = SortedWhy::Full;
            return Err(Refused { why, back: rows });
        }
        match Room::new(*rows.allocator(), rows.len()) {
            Ok(room) => FrozenRoutes::from_sorted_in(room, rows),
            Err(_) => {
                let why = SortedWhy::Memory;
                Err(Refused { why, back: rows })
            }
        }
    }

    /// The table that `from_sorted` makes, in room that was taken before. It takes no more memory,
    /// and none fails.
    ///
    /// # Errors
    ///
    /// There are more rows than there is room for, which is `Full`; or a network doesn't come after
    /// that of the row before it. The rows come back.
    pub fn from_sorted_in(
        room: Room<A>,
        rows: Vec<(Network<A>, V)>,
    ) -> Result<FrozenRoutes<A, V>, Refused<SortedWhy, Vec<(Network<A>, V)>>>
        ensures ok { IfOk result (λ routes. routes ≡ rows.items) }
        ensures rising { OnOk result (AreRowsInOrder A.BITS A.number rows.items) }
        ensures handed_back { IfErr result (λ e. e.back ≡ rows) }
        ensures unsorted { IfErr result (λ e. (i : ℕ) → e.why ≡ SortedWhy.OutOfOrder i
            → IsFirstOutOfOrder A.BITS A.number rows.items i) }
        ensures full { IfErr result (λ e. e.why ≡ SortedWhy.Full → room < length rows.items) }
        ensures memory { IfErr result (λ e. e.why ≢ SortedWhy.Memory) }
        ensures none { length rows.items ≡ 0 → IsOk result }
    {
        if rows.len() > room.rows {
            let why = SortedWhy::Full;
            return Err(Refused { why, back: rows });
        }
        let alloc = *rows.allocator();
        match links_and_directory(room, &rows) {
            Ok((parents, directory)) => Ok(FrozenRoutes {
                rows,
                parents,
                directory,
                alloc,
            }),
            Err(at) => {
                let why = SortedWhy::OutOfOrder(at);
                Err(Refused { why, back: rows })
            }
        }
    }
}

/// The links of rows, and the table of their first bits with what it has beside it; or the index of
/// the first row that isn't in order.
fn links_and_directory<A: Address, V>(
    room: Room<A>,
    rows: &[(Network<A>, V)],
) -> Result<(Vec<u32>, Directory), usize>
    requires { length rows.now ≤ room }
    ensures ok { IfOk result (λ made. AreLinked A.BITS (base_numbers A.number rows.now)
        (bit_counts rows.now) made.0.items made.1.rest made.1.cells.items made.1.uppers.items) }
    ensures unsorted { IfErr result (IsFirstOutOfOrder A.BITS A.number rows.now) }
{
    let mut parents = room.parents;
    for i in 0..rows.len() {
        let Some(link) = link_after(&rows[..i], &parents, &rows[i].0) else {
            return Err(i);
        };
        parents.push_reserved(link);
    }
    let directory = room.directory.filled(rows, &parents, room.cells);
    Ok((parents, directory))
}

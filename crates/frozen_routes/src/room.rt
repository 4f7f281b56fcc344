//! Memory that is taken for a table before its rows are there.
ghost use Rattle.std.specs.Prelude.{◌≡◌, ◌-◌, ◌^◌, IfOk, IsOk, min};

use crate::directory::Directory;
use radix_keys::{Address, Memory};
use std::alloc::Global;
use std::marker::{Model, PhantomData};

/// All memory that a table of so many rows takes beside them, so that making it of these allocates
/// nothing.
///
/// A contract sees it as this number.
#[derive(Drop)]
pub struct Room<A: Address> {
    pub(crate) rows: usize,
    /// For the links.
    pub(crate) parents: Vec<u32>,
    pub(crate) directory: Directory,
    /// How many cells the table of first bits has room for.
    pub(crate) cells: usize,
    /// What it is for: other addresses have more bits, or fewer.
    family: PhantomData<A>,
}

impl<A: Address> Model for Room<A> {
    ghost use Rattle.std.specs.Prelude.{◌≡◌, ℕ, ◌^◌, ◌<◌, ◌≤◌, []};
    ghost use Rattle.std.specs.Vec.{vec_capacity};

    ghost Value = { ℕ };

    ghost view = { λ room. room.rows };

    ghost invariant = { λ room. (room.rows < 2 ^ 32)
        × (room.parents.items ≡ []) × (room.rows ≤ vec_capacity room.parents)
        × (room.directory.rest < 128) × (room.directory.cells.items ≡ [])
        × (room.directory.uppers.items ≡ []) × (room.cells ≤ vec_capacity room.directory.cells) };
}

impl<A: Address> Room<A> {
    /// Room for so many rows, or for 2^32 - 1, which are the most that a table has.
    ///
    /// # Errors
    ///
    /// An allocation for the links, or for what shortens lookups, fails. For no row the call never
    /// fails.
    pub fn new(alloc: Global, rows: usize) -> Result<Room<A>, Memory>
        ensures rows { IfOk result (λ room. room ≡ min rows (2 ^ 32 - 1)) }
        ensures none { rows ≡ 0 → IsOk result }
    {
        let rows = rows.min(u32::MAX as usize);
        let parents = Vec::with_capacity(alloc, rows)?;
        let (directory, cells) = Directory::with_room::<A>(alloc, rows)?;
        Ok(Room {
            rows,
            parents,
            directory,
            cells,
            family: PhantomData,
        })
    }
}

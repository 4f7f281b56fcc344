//! A table of what is known of the networks at each value of an address's first bits, which
//! shortens searches.
ghost use Rattle.std.specs.Prelude.{◌≡◌, ◌+◌, ◌*◌, ◌-◌, ◌^◌, ◌<◌, ◌≤◌, ℕ, [], IfOk, IsOk, length, slice_index};
ghost use Rattle.std.specs.Vec.{vec_capacity};
ghost use Rattle.frozen_routes.specs.Routes.{AreRowsInOrder, AreTopCells, AreUplinks, AreUppers, IsFirstTop, IsLastHolder, IsTopCell, base_numbers, bit_counts};

use crate::rows::first_at;
use crate::search::follow_parents;
use radix_keys::{Address, Memory, Network};
use std::alloc::Global;

/// What is known at a value of the first bits.
#[derive(Clone, Copy)]
pub(crate) struct Cell {
    /// How many networks begin before the addresses that have it.
    pub(crate) count: u32,
    /// The last of these that holds such an address, so all of them: its index and one more, or 0
    /// where none does.
    pub(crate) around: u32,
}

impl Cell {
    /// The cell that counts no network.
    pub(crate) const NONE: Cell = Cell {
        count: 0,
        around: 0,
    };
}

/// The table. It has no cell where there are too few networks for one.
#[derive(Drop)]
pub(crate) struct Directory {
    /// How many bits of an address come behind the first ones.
    pub(crate) rest: u8,
    /// A cell for each value of the first bits, and for one more.
    pub(crate) cells: Vec<Cell>,
    /// The upper 64 bits of the first address of each network, where addresses have more bits; else
    /// empty.
    pub(crate) uppers: Vec<u64>,
}

/// What bounds the search of a number: the cell of its block, and how many networks begin before
/// the next block. Where there is no table it's all of them, and a cell that counts none.
pub(crate) fn top_span<A: Address, V>(
    rows: &[(Network<A>, V)],
    directory: &Directory,
    number: u128,
) -> (Cell, usize)
    requires { AreTopCells directory.now.rest A.BITS (base_numbers A.number rows.now)
        (bit_counts rows.now) directory.now.cells.items }
    ensures order { result.0.count ≤ result.1 }
    ensures within { result.1 ≤ length rows.now }
    ensures below { (k : ℕ) → k < result.0.count
        → slice_index (base_numbers A.number rows.now) k ≤ number }
    ensures above { (k : ℕ) → result.1 ≤ k → k < length rows.now
        → number < slice_index (base_numbers A.number rows.now) k }
    ensures around { IsLastHolder A.BITS (base_numbers A.number rows.now) (bit_counts rows.now)
        result.0.count number result.0.around }
{
    let last = directory.cells.len().saturating_sub(1);
    let first = number >> directory.rest;
    if first < last as u128 {
        let first = first as usize;
        (
            directory.cells[first],
            directory.cells[first + 1].count as usize,
        )
    } else {
        (Cell::NONE, rows.len())
    }
}

/// How many of the networks have less than this for their first bits, which `rest` others follow.
/// The first `from` have.
fn count_below<A: Address, V>(rows: &[(Network<A>, V)], from: usize, first: u128, rest: u8) -> usize
    requires rising { AreRowsInOrder A.BITS A.number rows.now }
    requires shift { rest < 128 }
    requires within { from ≤ length rows.now }
    requires below { (k : ℕ) → k < from
        → slice_index (base_numbers A.number rows.now) k < first * 2 ^ rest }
    ensures { IsFirstTop rest (base_numbers A.number rows.now) first result }
{
    let mut count = from;
    while count < rows.len() && first_at(rows, count) >> rest < first {
        count += 1;
    }
    count
}

/// The cell at this value of the first bits, which `rest` others follow. The first `from` networks
/// have less.
fn cell_at<A: Address, V>(
    rows: &[(Network<A>, V)],
    parents: &[u32],
    from: usize,
    first: u128,
    rest: u8,
) -> Cell
    requires few { length rows.now < 2 ^ 32 }
    requires linked { length parents.now ≡ length rows.now }
    requires rising { AreRowsInOrder A.BITS A.number rows.now }
    requires links { AreUplinks A.BITS (base_numbers A.number rows.now) (bit_counts rows.now)
        parents.now }
    requires shift { rest < 128 }
    requires within { from ≤ length rows.now }
    requires below { (k : ℕ) → k < from
        → slice_index (base_numbers A.number rows.now) k < first * 2 ^ rest }
    ensures { IsTopCell rest A.BITS (base_numbers A.number rows.now) (bit_counts rows.now) first
        result }
{
    let count = count_below(rows, from, first, rest);
    let around = match first.checked_mul(1 << rest) {
        Some(start) => follow_parents(rows, parents, count, Cell::NONE, start),
        // No address is behind the last one.
        None => 0,
    };
    Cell {
        count: count as u32,
        around: around as u32,
    }
}

/// The upper 64 bits of the first addresses, of as many as there is room for.
fn with_uppers<A: Address, V>(rows: &[(Network<A>, V)], mut uppers: Vec<u64>) -> Vec<u64>
    requires { uppers.items ≡ [] }
    ensures { AreUppers (base_numbers A.number rows.now) result.items }
{
    let count = uppers.capacity().min(rows.len());
    for at in 0..count {
        uppers.push_reserved((first_at(rows, at) >> 64) as u64);
    }
    uppers
}

/// By how many first bits a table of so many networks is: as many as the count has binary digits,
/// but at least 9 and at most 21.
fn bits_for(networks: usize) -> u8
    ensures some { 9 ≤ result }
    ensures few { result ≤ 21 }
{
    let mut bits = 9u8;
    while bits < 21 && networks >> bits > 0 {
        bits += 1;
    }
    bits
}

impl Directory {
    /// No table. It allocates nothing.
    pub(crate) fn none(alloc: Global) -> Directory
        ensures rest { result.rest < 128 }
        ensures cells { result.cells.items ≡ [] }
        ensures uppers { result.uppers.items ≡ [] }
    {
        Directory {
            rest: 0,
            cells: Vec::new(alloc),
            uppers: Vec::new(alloc),
        }
    }

    /// A table without cells yet, and how many it has room for: for as many as fit so many
    /// networks, or for none below 256 networks, whose search is short without. It has room for the
    /// upper halves of addresses of more than 64 bits too.
    ///
    /// # Errors
    ///
    /// An allocation fails.
    pub(crate) fn with_room<A: Address>(
        alloc: Global,
        networks: usize,
    ) -> Result<(Directory, usize), Memory>
        ensures rest { IfOk result (λ made. made.0.rest < 128) }
        ensures cells { IfOk result (λ made. made.0.cells.items ≡ []) }
        ensures uppers { IfOk result (λ made. made.0.uppers.items ≡ []) }
        ensures room { IfOk result (λ made. made.1 ≤ vec_capacity made.0.cells) }
        ensures few { networks < 256 → IsOk result }
    {
        if networks < 256 {
            return Ok((Directory::none(alloc), 0));
        }
        let bits = bits_for(networks);
        let room = (1usize << bits) + 1;
        let halves = if A::BITS > 64 { networks } else { 0 };
        let directory = Directory {
            rest: A::BITS.saturating_sub(bits),
            cells: Vec::with_capacity(alloc, room)?,
            uppers: Vec::with_capacity(alloc, halves)?,
        };
        Ok((directory, room))
    }

    /// The table with so many cells, which it has room for, and the upper halves that it has room
    /// for. It goes over the networks once or twice, and climbs to each cell's network.
    pub(crate) fn filled<A: Address, V>(
        self,
        rows: &[(Network<A>, V)],
        parents: &[u32],
        room: usize,
    ) -> Directory
        requires few { length rows.now < 2 ^ 32 }
        requires linked { length parents.now ≡ length rows.now }
        requires rising { AreRowsInOrder A.BITS A.number rows.now }
        requires links { AreUplinks A.BITS (base_numbers A.number rows.now)
            (bit_counts rows.now) parents.now }
        requires rest { self.rest < 128 }
        requires cells { self.cells.items ≡ [] }
        requires uppers { self.uppers.items ≡ [] }
        requires room { room ≤ vec_capacity self.cells }
        ensures cells { AreTopCells result.rest A.BITS (base_numbers A.number rows.now)
            (bit_counts rows.now) result.cells.items }
        ensures uppers { AreUppers (base_numbers A.number rows.now) result.uppers.items }
    {
        let Directory {
            rest,
            mut cells,
            uppers,
        } = self;
        let mut count = 0;
        for first in 0..room {
            let cell = cell_at(rows, parents, count, first as u128, rest);
            count = cell.count as usize;
            cells.push_reserved(cell);
        }
        let uppers = with_uppers(rows, uppers);
        Directory {
            rest,
            cells,
            uppers,
        }
    }
}

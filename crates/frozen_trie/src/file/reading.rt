//! A file, read row by row.
ghost use Rattle.std.specs.Prelude.{◌≡◌, ◌<◌, ◌^◌, ◌++◌, [], ◌∷◌, ℕ, List, length, IfOk, IfErr, IfSome, OnOk};
ghost use Rattle.std.specs.Io.KnownBytes.{Consumes, IsAtEnd};
ghost use Rattle.nibble_map.specs.Lists.{Each};
ghost use Rattle.frozen_trie.specs.FileRows.{FitsRow, IsCountedFault, IsFault, IsHeadFault, IsUnreadRow, counted_bytes, file_of_rows, head_of, row_of};

use crate::file::parts::{expect_end, fill, read_bytes, read_u32, read_u64};
use crate::file::rows::Rows;
use crate::file::{FileError, FileWhy, MAGIC, VERSION};
use std::io::Read;

/// The fault of the head's part at this place.
fn in_head(why: FileWhy, place: u64) -> FileError
    ensures why { result.why ≡ why }
    ensures fault { (result.pair ≡ 0) × (result.place ≡ place) }
{
    FileError {
        why,
        pair: 0,
        place,
    }
}

/// Reads what stands before the rows, and gives their count.
fn read_head<R: Read>(input: &mut R) -> Result<u64, FileError>
    ensures bytes { IfOk result (λ count.
        Consumes (R.remaining input.old) (R.remaining input.new) (head_of count)) }
    ensures fits { IfOk result (λ count. count < 2 ^ 64) }
    ensures fault { IfErr result (λ e. IfSome (R.remaining input.old)
        (λ bytes. IsHeadFault e.why bytes e.pair e.place)) }
{
    let mut magic = [0; 8];
    if let Err(why) = fill(input, &mut magic) {
        return Err(in_head(why, 0));
    }
    if magic != MAGIC {
        return Err(in_head(FileWhy::Magic, 0));
    }
    match read_u32(input) {
        Ok(version) => {
            if version != VERSION {
                return Err(in_head(FileWhy::Version, 8));
            }
        }
        Err(why) => return Err(in_head(why, 8)),
    }
    match read_u64(input) {
        Ok(count) => Ok(count),
        Err(why) => Err(in_head(why, 12)),
    }
}

/// Reads bytes behind their count in the place of those that `into` holds.
fn read_counted<R: Read>(input: &mut R, into: &mut Vec<u8>) -> Result<(), FileWhy>
    ensures bytes { OnOk result
        (Consumes (R.remaining input.old) (R.remaining input.new) (counted_bytes into.new.items)) }
    ensures fits { OnOk result (length into.new.items < 2 ^ 32) }
    ensures fault { IfErr result (λ why. IsCountedFault why (R.remaining input.old)) }
{
    let count = read_u32(input)?;
    read_bytes(input, count, into)
}

/// Reads a row, appends its pair to the map, and gives the count of the row's bytes. `key` and
/// `value` are room for the row's.
fn read_row<R: Read, M: Rows>(
    input: &mut R,
    key: &mut Vec<u8>,
    value: &mut Vec<u8>,
    map: &mut M,
) -> Result<u64, FileWhy>
    ensures row { IfOk result (λ count. (p : List ℕ × List ℕ) × FitsRow p
        × Consumes (R.remaining input.old) (R.remaining input.new) (row_of p)
        × (M.rows map.new ≡ M.rows map.old ++ p ∷ []) × (count ≡ length (row_of p))) }
    ensures items { OnOk result (M.are_items map.old (length (M.rows map.old))
        → M.are_items map.new (length (M.rows map.new))) }
    ensures kept { OnOk result (M.is_kept map.old → M.is_kept map.new) }
    ensures fault { IfErr result (λ why. IfSome (R.remaining input.old)
        (λ bytes. IsUnreadRow M.refuses why map.old bytes)) }
{
    read_counted(input, key)?;
    read_counted(input, value)?;
    map.push_row(key, value)?;
    Ok(8 + key.len() as u64 + value.len() as u64)
}

/// Reads a whole file into a map of no pair.
pub(super) fn read_all<R: Read, M: Rows>(input: &mut R, mut map: M) -> Result<M, FileError>
    requires empty { M.rows map ≡ [] }
    requires kept { M.is_kept map }
    ensures file { IfOk result
        (λ map. IfSome (R.remaining input.old) (λ bytes. bytes ≡ file_of_rows (M.rows map))) }
    ensures fits { IfOk result (λ map. Each FitsRow (M.rows map)) }
    ensures few { IfOk result (λ map. length (M.rows map) < 2 ^ 64) }
    ensures items { IfOk result (λ map. M.are_items map (length (M.rows map))) }
    ensures kept { IfOk result M.is_kept }
    ensures fault { IfErr result (λ e. IfSome (R.remaining input.old)
        (λ bytes. IsFault M.rows (λ m. M.are_items m (length (M.rows m))) M.refuses
        e.why bytes e.pair e.place)) }
    ensures end { OnOk result (IsAtEnd (R.remaining input.new)) }
{
    let pair = read_head(input)?;
    let mut key = Vec::new(map.alloc());
    let mut value = Vec::new(map.alloc());
    let mut place = 20u64;
    for row in 0..pair {
        match read_row(input, &mut key, &mut value, &mut map) {
            Ok(count) => place = place.saturating_add(count),
            Err(why) => {
                return Err(FileError {
                    why,
                    pair: row,
                    place,
                });
            }
        }
    }
    if let Err(why) = expect_end(input) {
        return Err(FileError { why, pair, place });
    }
    match map.close() {
        Ok(()) => Ok(map),
        Err(why) => Err(FileError { why, pair, place }),
    }
}

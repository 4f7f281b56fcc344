//! Maps whose pairs stand in a file as rows.
ghost use Rattle.std.specs.Prelude.{◌≡◌, ◌≢◌, ◌⊎◌, ℕ, ◌+◌, ◌<◌, ◌++◌, List, [], ◌∷◌, length, slice_get, Some, IfErr, IfOk, OnOk};
ghost use Rattle.frozen_trie.specs.FileRows.{IsRefusedRow};

use crate::PushWhy;
use crate::file::{FileItem, FileWhy};
use radix_keys::Memory;
use std::alloc::Global;

/// A map whose pairs stand in a file as rows of bytes, in the order of the keys.
pub(super) trait Rows: Drop {
    ghost use Rattle.frozen_trie.specs.declared.file.FileWhy.{FileWhy};

    // The bytes of each key and of its value.
    ghost rows: { Self → List (List ℕ × List ℕ) };

    // Whether the first so many pairs are of keys and values of their types.
    ghost are_items: { Self → ℕ → Type 0 };

    // What holds of the map of no pair, and stays so with each pair more.
    ghost is_kept: { Self → Type 0 };

    // Why the map doesn't take the row of these bytes behind its own.
    ghost refuses: { Self → FileWhy → List ℕ × List ℕ → Type 0 };

    /// The count of pairs.
    fn count(&self) -> usize
        ensures { result ≡ length (rows self.now) };

    fn alloc(&self) -> Global;

    /// Puts the bytes of the pair at an index in the place of those that `key` and `value` hold.
    fn put_row(&self, at: usize, key: &mut Vec<u8>, value: &mut Vec<u8>) -> Result<(), Memory>
        requires { at < length (rows self.now) }
        ensures row { OnOk result
            (slice_get (rows self.now) at ≡ Some (key.new.items, value.new.items)) }
        ensures items { OnOk result (are_items self.now at → are_items self.now (at + 1)) };

    /// Appends the pair of which these are the bytes.
    fn push_row(&mut self, key: &[u8], value: &[u8]) -> Result<(), FileWhy>
        ensures row { OnOk result (rows self.new ≡ rows self.old ++ (key.now, value.now) ∷ []) }
        ensures items { OnOk result (are_items self.old (length (rows self.old))
            → are_items self.new (length (rows self.new))) }
        ensures kept { OnOk result (is_kept self.old → is_kept self.new) }
        ensures refused { IfErr result
            (λ why. IsRefusedRow refuses why self.old (key.now, value.now)) };

    /// Makes the map ready to be read, where all pairs are in it.
    fn close(&mut self) -> Result<(), FileWhy>
        ensures same { OnOk result (self.new ≡ self.old) }
        ensures memory { IfErr result (λ why. why ≡ FileWhy.Memory) };

    ghost none_before: { (map : Self) → are_items map 0 };
}

/// The key or the value whose bytes a row has, or the reason for which there is none: `malformed`,
/// or memory.
pub(super) fn made<T: FileItem>(
    bytes: &[u8],
    alloc: Global,
    malformed: FileWhy,
) -> Result<T, FileWhy>
    ensures bytes { IfOk result (λ item. T.file_bytes item ≡ bytes.now) }
    ensures item { IfOk result T.is_item }
    ensures none { IfErr result (λ why. (why ≡ FileWhy.Memory) ⊎ ((why ≡ malformed)
        × ((item : T) → T.is_item item → T.file_bytes item ≢ bytes.now))) }
{
    match T::of_file(bytes, alloc) {
        Ok(Some(item)) => Ok(item),
        Ok(None) => Err(malformed),
        Err(_) => Err(FileWhy::Memory),
    }
}

/// Why a row whose pair isn't appended isn't read.
pub(super) fn refused(why: PushWhy) -> FileWhy
    ensures memory { why ≡ PushWhy.Memory → result ≡ FileWhy.Memory }
    ensures full { why ≡ PushWhy.Full → result ≡ FileWhy.Full }
    ensures unsorted { why ≡ PushWhy.OutOfOrder → result ≡ FileWhy.OutOfOrder }
{
    match why {
        PushWhy::Memory => FileWhy::Memory,
        PushWhy::Full => FileWhy::Full,
        PushWhy::OutOfOrder => FileWhy::OutOfOrder,
    }
}

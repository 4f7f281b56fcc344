//! Keys and values that stand in a file as bytes.
ghost use Rattle.std.specs.Prelude.{◌≡◌, ◌≢◌, ◌++◌, ℕ, List, IfNone, IfOk, IfSome, OnOk};

use radix_keys::Memory;
use std::alloc::Global;

mod networks;
mod numbers;
mod texts;

/// A key or a value that stands in a file as bytes.
///
/// An implementation names what a contract sees: the bytes, whether a value is one of its type, as
/// a number within its bounds is, and when two are the same. It proves that equal bytes are of the
/// same.
pub trait FileItem {
    // The bytes of the item.
    ghost file_bytes: { Self → List ℕ };

    // Whether the item is one of its type.
    ghost is_item: { Self → Type 0 };

    // Whether two items are the same.
    ghost is_same: { Self → Self → Type 0 };

    /// Appends the item's bytes to those that `out` holds.
    ///
    /// # Errors
    ///
    /// An allocation fails. `out` may hold some of the bytes then.
    fn append_to(&self, out: &mut Vec<u8>) -> Result<(), Memory>
        ensures bytes { OnOk result (out.new.items ≡ out.old.items ++ file_bytes self.now) }
        ensures item { OnOk result (is_item self.now) };

    /// The item whose bytes these are, or None only where no item has them.
    ///
    /// # Errors
    ///
    /// An allocation fails.
    fn of_file(bytes: &[u8], alloc: Global) -> Result<Option<Self>, Memory>
        ensures bytes { IfOk result
            (λ found. IfSome found (λ item. file_bytes item ≡ bytes.now)) }
        ensures item { IfOk result (λ found. IfSome found is_item) }
        ensures malformed { IfOk result (λ found. IfNone found
            ((item : Self) → is_item item → file_bytes item ≢ bytes.now)) };

    ghost told: { (x y : Self) → is_item x → is_item y → file_bytes x ≡ file_bytes y
        → is_same x y };
}

/// Appends some bytes to those that `out` holds.
pub(super) fn append(bytes: &[u8], out: &mut Vec<u8>) -> Result<(), Memory>
    ensures { OnOk result (out.new.items ≡ out.old.items ++ bytes.now) }
{
    match out.extend_from_slice(bytes) {
        Ok(()) => Ok(()),
        Err(_) => Err(Memory),
    }
}

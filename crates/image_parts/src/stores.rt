//! Numbers are put into bytes, the low byte first, and bytes themselves.
ghost use Rattle.std.specs.Prelude.{◌≡◌, ◌+◌, ◌<◌, ◌≤◌, ℕ, drop, length, slice_index, take};
ghost use Rattle.image_parts.specs.Parts.{u32_in, u64_in};

/// Puts bytes in from a place on.
pub fn put_bytes(out: &mut [u8], at: usize, bytes: &[u8])
    requires { at + length bytes.now ≤ length out.old }
    ensures bytes { take (length bytes.now) (drop at out.new) ≡ bytes.now }
    ensures before { (k : ℕ) → k < at → slice_index out.new k ≡ slice_index out.old k }
    ensures behind { (k : ℕ) → at + length bytes.now ≤ k
        → slice_index out.new k ≡ slice_index out.old k }
    ensures length { length out.new ≡ length out.old }
{
    out[at..at + bytes.len()].copy_from_slice(bytes);
}

/// Puts a number into the 4 bytes from a place on.
///
/// # Examples
///
/// ```
/// # use nifazombi::image_parts::{put_u32, u32_at};
/// let mut image = [0u8; 96];
/// put_u32(&mut image, 88, 7);
/// assert_eq!(u32_at(&image, 88), 7);
/// ```
pub fn put_u32(out: &mut [u8], at: usize, number: u32)
    requires { at + 4 ≤ length out.old }
    ensures number { u32_in out.new at ≡ number }
    ensures before { (k : ℕ) → k < at → slice_index out.new k ≡ slice_index out.old k }
    ensures behind { (k : ℕ) → at + 4 ≤ k → slice_index out.new k ≡ slice_index out.old k }
    ensures length { length out.new ≡ length out.old }
{
    put_bytes(out, at, &number.to_le_bytes());
}

/// Puts a number into the 8 bytes from a place on.
pub fn put_u64(out: &mut [u8], at: usize, number: u64)
    requires { at + 8 ≤ length out.old }
    ensures number { u64_in out.new at ≡ number }
    ensures before { (k : ℕ) → k < at → slice_index out.new k ≡ slice_index out.old k }
    ensures behind { (k : ℕ) → at + 8 ≤ k → slice_index out.new k ≡ slice_index out.old k }
    ensures length { length out.new ≡ length out.old }
{
    put_bytes(out, at, &number.to_le_bytes());
}

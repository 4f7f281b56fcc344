//! Numbers in bytes, the low byte first.
ghost use Rattle.std.specs.Prelude.{◌≡◌, ◌+◌, ◌≤◌, length};
ghost use Rattle.image_parts.specs.Parts.{u32_in, u64_in, u128_in};

/// The number of the 4 bytes from a place on.
#[inline(always)]
pub fn u32_at(bytes: &[u8], at: usize) -> u32
    requires { at + 4 ≤ length bytes.now }
    ensures { result ≡ u32_in bytes.now at }
{
    let Some(four) = bytes[at..].first_chunk::<4>() else {
        unreachable!();
    };
    u32::from_le_bytes(*four)
}

/// The number of the 8 bytes from a place on.
#[inline(always)]
pub fn u64_at(bytes: &[u8], at: usize) -> u64
    requires { at + 8 ≤ length bytes.now }
    ensures { result ≡ u64_in bytes.now at }
{
    let Some(eight) = bytes[at..].first_chunk::<8>() else {
        unreachable!();
    };
    u64::from_le_bytes(*eight)
}

/// The number of the 16 bytes from a place on.
#[inline(always)]
pub fn u128_at(bytes: &[u8], at: usize) -> u128
    requires { at + 16 ≤ length bytes.now }
    ensures { result ≡ u128_in bytes.now at }
{
    u128::from(u64_at(bytes, at)) + (1u128 << 64) * u128::from(u64_at(bytes, at + 8))
}

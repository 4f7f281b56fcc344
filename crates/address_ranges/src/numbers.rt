//! Blocks of numbers that agree in all but their last bits.
ghost use Rattle.std.specs.Prelude.{◌≡◌, ℕ, ◌+◌, ◌%◌, ◌^◌, ◌≤◌};

/// How many last bits are free in the largest block of numbers that begins with the first of a
/// range and lies within it.
pub(super) fn free_bits(first: u128, last: u128) -> u8
    requires { first ≤ last }
    ensures begins { first % 2 ^ result ≡ 0 }
    ensures within { first + 2 ^ result ≤ last + 1 }
    ensures largest { (e : ℕ) → first % 2 ^ e ≡ 0 → first + 2 ^ e ≤ last + 1 → e ≤ result }
{
    let room = match (last - first).checked_add(1) {
        Some(count) => count.ilog2(),
        None => 128,
    };
    first.trailing_zeros().min(room) as u8
}

/// The last number of the block that begins with this one and has so many free bits.
pub(super) fn block_end(first: u128, free: u8) -> u128
    requires { first + 2 ^ free ≤ 2 ^ 128 }
    ensures { result + 1 ≡ first + 2 ^ free }
{
    if free == 128 {
        u128::MAX
    } else {
        first + ((1 << free) - 1)
    }
}

//! Masks of sixteen bits, one for each nibble.
ghost use Rattle.std.specs.Prelude.{◌≡◌, ◌≢◌, ◌<◌, ◌∷◌, [], List, ℕ, Err};
ghost use Rattle.masked_tree.specs.Mask.{IsMask, IsRisingFrom, IsPlaceOf, marked, cleared};

/// Where the child that begins with a nibble stands, or else would stand.
pub fn child_index(mask: u16, nibble: u8) -> Result<usize, usize>
    requires { nibble < 16 }
    ensures { (xs : List ℕ) → IsMask mask xs → IsRisingFrom 0 xs
        → IsPlaceOf nibble xs result }
{
    let bit = 1u16 << nibble;
    let index = (mask & (bit - 1)).count_ones() as usize;
    if mask & bit == 0 {
        Err(index)
    } else {
        Ok(index)
    }
}

/// The mask with the nibble's bit set.
pub fn mark(mask: u16, nibble: u8) -> u16
    requires { nibble < 16 }
    ensures { result ≡ marked mask nibble }
{
    mask | (1u16 << nibble)
}

/// The mask with the nibble's bit cleared.
pub fn unmark(mask: u16, nibble: u8) -> u16
    requires { nibble < 16 }
    ensures { result ≡ cleared mask nibble }
{
    mask & !(1u16 << nibble)
}

/// Where a child that begins with a nibble stands beside another.
pub fn beside(other: u8, nibble: u8) -> usize
    requires { other ≢ nibble }
    ensures { IsPlaceOf nibble (other ∷ []) (Err result) }
{
    if other < nibble { 1 } else { 0 }
}

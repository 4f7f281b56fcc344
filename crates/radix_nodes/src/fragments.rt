//! Two fragments joined.
ghost use Rattle.std.specs.Prelude.{◌≡◌, ◌≤◌, ◌++◌, length, drop, IfOk, IsOk};
ghost use Rattle.nibble_map.specs.Nibbles.{IsShort};

use radix_keys::{Memory, Nibblet};

/// The two lists joined. Up to 32 nibbles together need no allocation.
pub fn joined(first: &Nibblet, second: &Nibblet) -> Result<Nibblet, Memory>
    ensures made { IfOk result (λ r. r ≡ first.now ++ second.now) }
    ensures succeeds { IsShort (first.now ++ second.now) → IsOk result }
{
    match first.clone()?.join(second) {
        Ok(both) => Ok(both),
        Err(_) => Err(Memory),
    }
}

/// What the first list has from `depth` on, and the second list, joined.
pub fn joined_tail(first: &Nibblet, depth: usize, second: &Nibblet) -> Result<Nibblet, Memory>
    requires { depth ≤ length first.now }
    ensures { IfOk result (λ r. r ≡ drop depth first.now ++ second.now) }
{
    match first.tail(depth)?.join(second) {
        Ok(both) => Ok(both),
        Err(_) => Err(Memory),
    }
}

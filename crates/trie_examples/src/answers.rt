//! What callers learn from contracts and laws alone of a table of networks.
ghost use Rattle.std.specs.Prelude.{◌≡◌, ◌<◌, ◌≤◌, ◌/◌, ◌^◌, ◌-◌, ℕ, IfOk, IfSome, IsOk, MatchOption, length, ⊤};
ghost use Rattle.radix_trie.specs.Bits.{first_bits};
ghost use Rattle.radix_trie.specs.Maps.{IsStored};

use radix_trie::{Bits, Memory, SubTrie, Trie, first_bits_are_digits, first_bits_tell_networks};
use std::alloc::Global;

/// The longest network of a table that holds an address, as the view at its bits.
fn route<'a, V>(
    alloc: Global,
    table: &'a Trie<Bits, V>,
    address: u32,
) -> Result<Option<SubTrie<'a, Bits, V>>, Memory>
    ensures stored { IfOk result
        (λ o. IfSome o (λ view. IsStored table.now view.path)) }
    ensures holds { IfOk result (λ o. IfSome o (λ view. (a n : ℕ) → a < 2 ^ 32 → n ≤ 32
        → view.path ≡ first_bits 32 a n
        → a / 2 ^ (32 - n) ≡ address / 2 ^ (32 - n))) }
    ensures longest { IfOk result (λ o. IfSome o (λ view. (a n : ℕ) → a < 2 ^ 32 → n ≤ 32
        → IsStored table.now (first_bits 32 a n)
        → a / 2 ^ (32 - n) ≡ address / 2 ^ (32 - n)
        → n ≤ length view.path)) }
    ensures none { IfOk result (λ o. MatchOption o ((a n : ℕ) → a < 2 ^ 32 → n ≤ 32
        → IsStored table.now (first_bits 32 a n)
        → a / 2 ^ (32 - n) ≡ address / 2 ^ (32 - n)
        → ⊥) (λ _. ⊤)) }
    ensures succeeds { IsOk result }
{
    first_bits_are_digits();
    first_bits_tell_networks();
    let bits = Bits::first_of_u32(alloc, address, 32)?;
    match table.get_ancestor(&bits)? {
        Some(view) => Ok(Some(view)),
        None => Ok(None),
    }
}

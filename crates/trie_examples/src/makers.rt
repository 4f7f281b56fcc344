//! Who made a network card: the maker whose prefix of the card's address is the longest. The
//! prefixes have 24, 28 or 36 bits, so 6, 7 or 9 hexadecimal digits.
ghost use Rattle.std.specs.Prelude.{◌≡◌, ◌≤◌, ℕ, List, None, Some, IfSome, length};
ghost use Rattle.radix_trie.specs.Lists.{IsPrefix};
ghost use Rattle.radix_trie.specs.Maps.{IsStored, value_at};

use radix_trie::{Memory, Nibblet, Trie, TrieError};
use std::alloc::Global;

/// The value at the longest stored prefix of an address.
fn maker<V: Copy>(table: &Trie<Nibblet, V>, address: &Nibblet) -> Option<V>
    ensures some { IfSome result (λ v. (q : List ℕ) × IsPrefix q address.now
        × (value_at table.now q ≡ Some v)
        × ((r : List ℕ) → IsPrefix r address.now → IsStored table.now r → length r ≤ length q)) }
    ensures none { result ≡ None
        → (r : List ℕ) → IsPrefix r address.now → IsStored table.now r → ⊥ }
{
    table.nearest_value(address).copied()
}

/// The digits of an address, whose pairs of digits may have colons or dashes between them. None
/// where it has any other character.
fn digits(alloc: Global, address: &str) -> Result<Option<Nibblet>, Memory> {
    let plain = address.replace(alloc, [':', '-'], "")?;
    Nibblet::from_hex(alloc, plain.as_str())
}

/// Stores the maker of each line: the digits of a prefix, a space, and a name. A line of another
/// form is passed over.
fn makers(alloc: Global, lines: &'static str) -> Result<Trie<Nibblet, &'static str>, TrieError> {
    let mut table = Trie::new(alloc);
    for line in lines.lines() {
        let Some((prefix, name)) = line.split_once(' ') else {
            continue;
        };
        if let Some(prefix) = Nibblet::from_hex(alloc, prefix)? {
            let _ = table.insert(prefix, name)?;
        }
    }
    Ok(table)
}

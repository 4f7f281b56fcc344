//! Round trips: what is written is read back, and what is turned over or frozen answers as before.
ghost use Rattle.std.specs.Char.{digit_value};
ghost use Rattle.std.specs.Prelude.{◌≡◌, ◌<◌, All, IfOk, Some, map, string_bytes};
ghost use Rattle.keyed_maps.specs.KeyedMaps.{keyed_map};

use frozen_trie::freeze;
use radix_trie::{
    AsNibbles, Ascending, KeySigned, Memory, Nibblet, Trie, TrieKey, turned_copies_answer_alike,
};
use std::alloc::{AllocError, Global};

/// The character of a hexadecimal digit.
fn digit(nibble: u8) -> char
    requires { nibble < 16 }
    ensures value { digit_value result ≡ nibble }
    ensures ascii { result < 128 }
{
    char::from_digit(nibble as u32, 16).unwrap_or('0')
}

/// A list as a text: a hexadecimal digit for each nibble.
fn written(alloc: Global, list: &Nibblet) -> Result<String, AllocError>
    ensures digits { IfOk result (λ text. All (λ c. digit_value c < 16) (string_bytes text)) }
    ensures list { IfOk result (λ text. map digit_value (string_bytes text) ≡ list.now) }
{
    let mut text = String::new(alloc);
    for i in 0..list.len() {
        text.push(digit(list.get(i)))?;
    }
    Ok(text)
}

/// Writes a list, and reads what was written: it is the same list.
fn there_and_back(alloc: Global, list: &Nibblet) -> Result<Option<Nibblet>, Memory>
    ensures { IfOk result (λ found. found ≡ Some list.now) }
{
    let text = written(alloc, list)?;
    Nibblet::from_hex(alloc, text.as_str())
}

/// Looks a number up in the trie of ascending keys that a trie of plain ones becomes: its value is
/// that in the trie.
fn risen_value<T: KeySigned + Drop>(
    alloc: Global,
    trie: &Trie<T, u64>,
    number: T,
) -> Result<Option<u64>, Memory>
    ensures { IfOk result (λ found. found ≡ keyed_map T.TrieKey.encoding trie.now number) }
{
    turned_copies_answer_alike::<T, u64>();
    let risen = trie.to_ascending()?;
    let list = Ascending::from(number).encode(alloc)?;
    Ok(risen.at(&list).copied())
}

/// Freezes a trie, and thaws it: it is the same map.
fn frozen_and_thawed<K: AsNibbles + Drop, V: Drop>(trie: Trie<K, V>) -> Result<Trie<K, V>, Memory>
    ensures { IfOk result (λ thawed. thawed ≡ trie) }
{
    let frozen = freeze(trie).map_err(|_| Memory)?;
    frozen.thaw().map_err(|_| Memory)
}

//! A caller of keys and lists alone: the list of a key, and one nibble more.
ghost use Rattle.std.specs.Prelude.{◌≡◌, ◌<◌, [], ◌∷◌, ◌++◌, IfOk};
ghost use Rattle.radix_trie.specs.Nibbles.{nibbles};

use radix_trie::{Memory, Nibblet, TrieKey};
use std::alloc::Global;

/// The list of a text, and one nibble after it.
fn list_below(alloc: Global, text: &str, next: u8) -> Result<Nibblet, Memory>
    requires { next < 16 }
    ensures { IfOk result (λ list. list ≡ nibbles text.now ++ next ∷ []) }
{
    let mut list = text.encode(alloc)?;
    list.push(next)?;
    Ok(list)
}

//! The words that a beginning may become: each begins, as a text, with what was typed.
ghost use Rattle.std.specs.Prelude.{IfOk, IfSome};
ghost use Rattle.radix_trie.specs.Lists.{Each, IsPrefix};

use radix_trie::iter::Keys;
use radix_trie::{
    Memory, Trie, TrieCommon, descendants_hold_all_below, encodings_keep_prefixes,
    keys_stand_at_their_encodings,
};

/// The words that begin with what was typed, in their order, or None where there is none.
fn completed<'a, V>(
    words: &'a Trie<&'static str, V>,
    typed: &str,
) -> Result<Option<Keys<'a, &'static str, V>>, Memory>
    ensures { IfOk result (λ o. IfSome o (λ keys.
        Each (λ word. IsPrefix typed.now word.now) keys)) }
{
    keys_stand_at_their_encodings(words);
    encodings_keep_prefixes::<&'static str>();
    descendants_hold_all_below::<(&'static str, V)>();
    match words.get_raw_descendant(&typed)? {
        Some(view) => Ok(Some(TrieCommon::keys(&view)?)),
        None => Ok(None),
    }
}

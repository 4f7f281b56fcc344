//! A dictionary that is read once and then completed from: a word on each line of its file, in the
//! order of their bytes, as `sort` under `LC_ALL=C` leaves them.
ghost use Rattle.std.specs.Prelude.{◌≡◌, map as each};
ghost use Rattle.nibble_map.specs.Lists.{Each, IsPrefix};
ghost use Rattle.nibble_map.specs.Nibbles.{nibbles};
ghost use Rattle.radix_trie.specs.Views.{pairs_below};

use anyhow::{Result, bail};
use frozen_trie::{FrozenTrie, SortedWhy, frozen_stands_at_its_encodings};
use radix_trie::encodings_keep_prefixes;
use std::alloc::Global;

/// A word of a dictionary, and the number of its line, from 1 on.
type Word<'a> = (&'a str, u64);

/// The dictionary of a file. An error names the first line that isn't above the one before it.
fn dictionary<'a>(alloc: Global, file: &'a str) -> Result<FrozenTrie<&'a str, u64>> {
    let mut words: Vec<Word<'a>> = Vec::new(alloc);
    let mut line = 0u64;
    for word in file.lines() {
        line = line.wrapping_add(1);
        words.push((word, line))?;
    }
    match FrozenTrie::from_sorted(alloc, words) {
        Ok(words) => Ok(words),
        Err(error) => match error.why {
            SortedWhy::OutOfOrder(index) => bail!(
                "the word at {index} isn't above the one before it"
            ),
            SortedWhy::Full => bail!("more words than an index counts"),
            SortedWhy::Memory => bail!("memory"),
        },
    }
}

/// The words that begin with what was typed, in order: a slice of the dictionary, of which a caller
/// shows as many as it likes.
fn completions<'a, 'w>(words: &'a FrozenTrie<&'w str, u64>, typed: &str) -> &'a [Word<'w>]
    ensures pairs { result.now ≡ pairs_below words.now (nibbles typed.now) }
    ensures begins { Each (λ word. IsPrefix typed.now word.now) (each (λ p. p.0) result.now) }
{
    frozen_stands_at_its_encodings(words);
    encodings_keep_prefixes::<&'w str>();
    match words.below(&typed) {
        Ok(found) => found,
        // A text lends its encoding, so no memory is allocated for it.
        Err(_) => unreachable!(),
    }
}

//! A page of completions: its words begin with what was typed, and they rise; and the page after
//! it, between which no word is missed.
ghost use Rattle.std.specs.Cmp.Lexicographic.{slice_cmp};
ghost use Rattle.std.specs.Ordering.{nat_cmp};
ghost use Rattle.std.specs.Prelude.{◌≡◌, ◌+◌, ◌++◌, AllPairs, IfOk, map as each, take};
ghost use Rattle.std.specs.declared.cmp.Ordering.TheVariants.{Less};
ghost use Rattle.radix_trie.specs.Lists.{Each, IsPrefix};
ghost use Rattle.radix_trie.specs.Nibbles.{nibbles};
ghost use Rattle.radix_trie.specs.Views.{pairs_below};
ghost use Rattle.radix_trie.specs.Walks.{deref_pairs};

use radix_trie::{
    Memory, Trie, encodings_keep_prefixes, keys_of_walks_rise, keys_stand_at_their_encodings,
    pages_follow_one_another, texts_keep_their_order,
};
use std::alloc::Global;

/// Words, each with its value.
type Page<'a, V> = Vec<(&'a &'static str, &'a V)>;

/// The first words that begin with what was typed, so many at most, in their order.
fn page<'a, V>(
    words: &'a Trie<&'static str, V>,
    typed: &str,
    most: usize,
) -> Result<Page<'a, V>, Memory>
    ensures begins { IfOk result (λ page. Each (λ word. IsPrefix typed.now word.now)
        (each (λ p. p.0) (deref_pairs page.items))) }
    ensures rising { IfOk result (λ page. AllPairs (λ x y. slice_cmp nat_cmp x.now y.now ≡ Less)
        (each (λ p. p.0) (deref_pairs page.items))) }
{
    keys_stand_at_their_encodings(words);
    encodings_keep_prefixes::<&'static str>();
    keys_of_walks_rise::<&'static str, V>();
    texts_keep_their_order::<&'static str>();
    words.first_below(&typed, most)
}

/// The first words that begin with what was typed, and those after them, so many at most on each of
/// the two pages. No word is missed between them, and none comes twice.
fn two_pages<'a, V>(
    alloc: Global,
    words: &'a Trie<&'static str, V>,
    typed: &str,
    most: usize,
) -> Result<(Page<'a, V>, Page<'a, V>), Memory>
    ensures { IfOk result (λ pages. deref_pairs pages.0.items ++ deref_pairs pages.1.items
        ≡ take (most + most) (pairs_below words.now (nibbles typed.now))) }
{
    pages_follow_one_another(words);
    let first = words.first_below(&typed, most)?;
    let second = match first.last() {
        Some((last, _)) => words.first_after(&typed, *last, most)?,
        None => Vec::new(alloc),
    };
    Ok((first, second))
}

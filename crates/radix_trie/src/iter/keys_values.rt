//! The ordered walks over keys alone and over values alone.
ghost use Rattle.std.specs.Prelude.{◌≡◌, map};
ghost use Rattle.std.specs.Iterator.{YieldsFirstRef, item_count};

use crate::iter::walk::Iter;
use std::iter::FusedIterator;
use std::marker::Model;

/// A walk over keys, in the order of their encodings. A contract sees it as the list of the keys
/// that are left.
#[derive(Drop)]
pub struct Keys<'a, K, V> {
    pairs: Iter<'a, K, V>,
}

impl<'a, K, V> Model for Keys<'a, K, V> {
    ghost use Rattle.std.specs.Prelude.{List, map};

    ghost Value = { List K };

    ghost view = { λ a. map (λ (p : K × V). p.0) a.pairs };
}

impl<'a, K, V> Keys<'a, K, V> {
    /// The keys of the pairs that a walk has left.
    pub fn new(pairs: Iter<'a, K, V>) -> Keys<'a, K, V>
        ensures { result ≡ map (λ (p : K × V). p.0) pairs.entry }
    {
        Keys { pairs }
    }
}

impl<'a, K, V> Iterator for Keys<'a, K, V> {
    type Item = &'a K;

    ghost next_gives = { YieldsFirstRef (λ s. s) };

    ghost remaining = { item_count (λ s. s) };

    fn next(&mut self) -> Option<&'a K> {
        let (key, _) = self.pairs.next()?;
        Some(key)
    }
}

impl<'a, K, V> FusedIterator for Keys<'a, K, V> {}

/// A walk over values, in the order of their keys' encodings. A contract sees it as the list of the
/// values that are left.
#[derive(Drop)]
pub struct Values<'a, K, V> {
    pairs: Iter<'a, K, V>,
}

impl<'a, K, V> Model for Values<'a, K, V> {
    ghost use Rattle.std.specs.Prelude.{List, map};

    ghost Value = { List V };

    ghost view = { λ a. map (λ (p : K × V). p.1) a.pairs };
}

impl<'a, K, V> Values<'a, K, V> {
    /// The values of the pairs that a walk has left.
    pub fn new(pairs: Iter<'a, K, V>) -> Values<'a, K, V>
        ensures { result ≡ map (λ (p : K × V). p.1) pairs.entry }
    {
        Values { pairs }
    }
}

impl<'a, K, V> Iterator for Values<'a, K, V> {
    type Item = &'a V;

    ghost next_gives = { YieldsFirstRef (λ s. s) };

    ghost remaining = { item_count (λ s. s) };

    fn next(&mut self) -> Option<&'a V> {
        let (_, value) = self.pairs.next()?;
        Some(value)
    }
}

impl<'a, K, V> FusedIterator for Values<'a, K, V> {}

//! The nibbles of a list, one after another.
ghost use Rattle.std.specs.Prelude.{◌≡◌};
ghost use Rattle.std.specs.Iterator.{YieldsFirst, item_count};

use crate::nibbles::NibbleVec;
use std::iter::FusedIterator;
use std::marker::Model;

/// A walk over the nibbles of a list. A contract sees it as the list of the nibbles that are left.
#[derive(Drop)]
pub struct NibbleIter<'a> {
    list: &'a NibbleVec,
    place: usize,
}

impl<'a> Model for NibbleIter<'a> {
    ghost use Rattle.std.specs.Prelude.{ℕ, List, drop};

    ghost Value = { List ℕ };

    ghost view = { λ walk. drop walk.place walk.list.now };
}

impl NibbleVec {
    /// The nibbles, from the first to the last.
    pub fn iter(&self) -> NibbleIter<'_>
        ensures { result ≡ self.now }
    {
        NibbleIter {
            list: self,
            place: 0,
        }
    }
}

impl<'a> Iterator for NibbleIter<'a> {
    type Item = u8;

    ghost next_gives = { YieldsFirst (λ walk. walk) };

    ghost remaining = { item_count (λ walk. walk) };

    fn next(&mut self) -> Option<u8> {
        if self.place < self.list.len() {
            let nibble = self.list.get(self.place);
            self.place += 1;
            Some(nibble)
        } else {
            None
        }
    }
}

impl<'a> FusedIterator for NibbleIter<'a> {}

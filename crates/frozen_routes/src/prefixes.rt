//! The networks that hold an address, from the widest to the longest or from there up.
ghost use Rattle.std.specs.Prelude.{◌≡◌, ◌-◌, ◌≤◌, IfSome, Some, length, reverse};
ghost use Rattle.std.specs.Iterator.{UpTo, YieldsFirstBy, YieldsLastBy, at_most, item_count};
ghost use Rattle.std.specs.Iterator.SizeHint.{IsWithinCount};
ghost use Rattle.frozen_routes.specs.Routes.{row_of_refs, rows_up};

use crate::frozen::FrozenRoutes;
use radix_keys::{Address, Network};
use std::iter::FusedIterator;
use std::marker::Model;

/// A walk over rows of which each network is the next one around that of the row behind it, in
/// order: from the widest to the longest; from its other end, by `next_back` and `rev`, from the
/// longest up.
///
/// Neither end allocates, and both go on returning None after the end; `next_back` takes constant
/// time, `next` that of as many links as rows are left. `len` is how many these are. A contract
/// sees a walk as the list of the rows that are left.
#[derive(Drop)]
pub struct CommonPrefixes<'a, A: Address, V> {
    routes: &'a FrozenRoutes<A, V>,
    /// The index of the last row and one more, or 0 where there is none.
    last: usize,
    /// How many rows are left.
    left: usize,
}

impl<'a, A: Address, V> Model for CommonPrefixes<'a, A, V> {
    ghost use Rattle.std.specs.Prelude.{List, ◌≤◌, length, reverse, take};
    ghost use Rattle.radix_keys.specs.Networks.{Net};
    ghost use Rattle.frozen_routes.specs.Routes.{rows_up};

    ghost Value = { List (Net A × V) };

    ghost view = { λ walk. reverse
        (take walk.left (rows_up A.BITS A.number walk.routes.now walk.last)) };

    ghost invariant = { λ walk. (walk.last ≤ length walk.routes.now)
        × (walk.left ≤ length (rows_up A.BITS A.number walk.routes.now walk.last)) };
}

impl<'a, A: Address, V> CommonPrefixes<'a, A, V> {
    /// The walk up to the row on whose index and one more is `last`; over no row at 0.
    pub(crate) fn new(routes: &'a FrozenRoutes<A, V>, last: usize) -> CommonPrefixes<'a, A, V>
        requires { last ≤ length routes.now }
        ensures { result ≡ reverse (rows_up A.BITS A.number routes.now last) }
    {
        let (mut at, mut left) = (last, 0);
        while at > 0 {
            let (_, link) = routes.step_up(at - 1);
            at = link;
            left += 1;
        }
        CommonPrefixes { routes, last, left }
    }
}

impl<'a, A: Address, V> Iterator for CommonPrefixes<'a, A, V> {
    type Item = (&'a Network<A>, &'a V);

    ghost next_gives = { YieldsFirstBy row_of_refs (λ walk. walk) };

    ghost remaining = { item_count (λ walk. walk) };

    fn next(&mut self) -> Option<(&'a Network<A>, &'a V)> {
        if self.left == 0 {
            return None;
        }
        let others = self.left - 1;
        let mut at = self.last;
        for _up in 0..others {
            (_, at) = self.routes.step_up(at - 1);
        }
        self.left = others;
        let (row, _) = self.routes.step_up(at - 1);
        Some(row)
    }

    fn size_hint(&self) -> (usize, Option<usize>)
        ensures lower { IsWithinCount result.0 (at_most (length self.now)) }
        ensures upper { IfSome result.1 (UpTo (at_most (length self.now))) }
        ensures exact { result ≡ (length self.now, Some (length self.now)) }
    {
        let len = self.len();
        (len, Some(len))
    }
}

impl<'a, A: Address, V> DoubleEndedIterator for CommonPrefixes<'a, A, V> {
    ghost next_back_gives = { YieldsLastBy row_of_refs (λ walk. walk) };

    fn next_back(&mut self) -> Option<(&'a Network<A>, &'a V)> {
        if self.left == 0 {
            return None;
        }
        let (row, link) = self.routes.step_up(self.last - 1);
        self.last = link;
        self.left -= 1;
        Some(row)
    }
}

impl<'a, A: Address, V> ExactSizeIterator for CommonPrefixes<'a, A, V> {
    fn len(&self) -> usize {
        self.left
    }
}

impl<'a, A: Address, V> FusedIterator for CommonPrefixes<'a, A, V> {}

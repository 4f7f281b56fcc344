//! A walk over routes, in the trie or among the same routes in order.
ghost use Rattle.std.specs.Prelude.{◌≡◌, ◌++◌, IfOk, OnOk, OnErr, drop, option_map, slice_get};
ghost use Rattle.radix_trie.specs.Walks.{deref_pair};

use crate::hop::Hop;
use radix_trie::iter::Cursor;
use radix_trie::{Address, Memory, Network};
use std::marker::Model;

/// Routes that are still to come: rows, and then those that a cursor has left. A contract sees
/// their list.
#[derive(Drop)]
pub struct Rest<'a, A: Address> {
    rows: &'a [(Network<A>, Hop)],
    cursor: Cursor<'a, Network<A>, Hop>,
}

impl<'a, A: Address> Model for Rest<'a, A> {
    ghost use Rattle.std.specs.Prelude.{◌++◌, List};
    ghost use Rattle.route_tool.specs.Routes.{Route};

    ghost Value = { List (Route A) };

    ghost view = { λ rest. rest.rows.now ++ rest.cursor };
}

impl<'a, A: Address> Rest<'a, A> {
    /// The walk over rows, and then over those of a cursor.
    pub(super) fn new(
        rows: &'a [(Network<A>, Hop)],
        cursor: Cursor<'a, Network<A>, Hop>,
    ) -> Rest<'a, A>
        ensures { result ≡ rows.now ++ cursor.entry }
    {
        Rest { rows, cursor }
    }

    /// The next route, or None where none is left. After a failure the same routes are left.
    pub fn next(&mut self) -> Result<Option<(&'a Network<A>, &'a Hop)>, Memory>
        ensures pair { IfOk result (λ pair. option_map deref_pair pair ≡ slice_get self.old 0) }
        ensures rest { OnOk result (self.new ≡ drop 1 self.old) }
        ensures unchanged { OnErr result (self.new ≡ self.old) }
    {
        match self.rows.split_first() {
            Some((row, others)) => {
                self.rows = others;
                Ok(Some((&row.0, &row.1)))
            }
            None => self.cursor.next(),
        }
    }
}

//! Small tables, and the least lists with their answers.
ghost use Rattle.std.specs.Prelude.{◌≤◌};

use least_routes::{Route, is_table, least};
use std::alloc::{AllocError, Global};

/// What a row shows, a width, a table of it, and its least list, or `none` where the routes are no
/// table. A route is the number of its first address, its bits and its hop.
const ROWS: &'static str = "\
what many parts share goes to the whole | 2 | 0/0=1 0/2=2 2/2=2 3/2=3 | 0/0=2 1/2=1 3/2=3
two halves of one hop are one network | 32 | 167772160/25=7 167772288/25=7 | 167772160/24=7
a route below one of its hop is left out | 3 | 0/2=5 1/3=5 2/3=5 | 0/2=5 2/3=5
the widest last address | 128 | 0/0=1 340282366920938463463374607431768211455/128=2 | \
0/0=1 340282366920938463463374607431768211455/128=2
no route | 8 | |
one half of a hop of its own | 8 | 0/0=1 0/1=1 128/1=2 | 0/0=1 128/1=2
a network behind one within it | 8 | 0/1=1 0/0=1 | none
a network twice | 8 | 0/1=1 0/1=2 | none
an address that is not the first | 8 | 1/7=1 | none
an address that is too wide | 8 | 256/8=1 | none
more bits than the width | 8 | 0/9=1 | none
";

/// The route that a word writes.
fn route_of(word: &str) -> Option<Route> {
    let (network, hop) = word.split_once('=')?;
    let (base, bits) = network.split_once('/')?;
    Some(Route {
        base: base.parse().ok()?,
        bits: bits.parse().ok()?,
        hop: hop.parse().ok()?,
    })
}

/// The routes that a text writes.
fn routes_of(alloc: Global, text: &str) -> Option<Vec<Route>> {
    let mut routes = Vec::new(alloc);
    for word in text.split_whitespace() {
        routes.push(route_of(word)?).ok()?;
    }
    Some(routes)
}

/// The least list of a table; nothing where the routes are none.
fn least_of(alloc: Global, width: u8, routes: &[Route]) -> Result<Option<Vec<Route>>, AllocError>
    requires { width ≤ 128 }
{
    if is_table(width, routes) {
        Ok(Some(least(alloc, width, routes)?))
    } else {
        Ok(None)
    }
}

/// Whether a row says what its table is made of.
fn is_right(alloc: Global, row: &str) -> Option<bool> {
    let (head, wanted) = row.rsplit_once('|')?;
    let (head, table) = head.rsplit_once('|')?;
    let (_, width) = head.rsplit_once('|')?;
    let width: u8 = width.trim().parse().ok()?;
    if width > 128 {
        return None;
    }
    let table = routes_of(alloc, table)?;
    match least_of(alloc, width, &table).ok()? {
        Some(found) => Some(found.as_slice() == routes_of(alloc, wanted)?.as_slice()),
        None => Some(wanted.trim() == "none"),
    }
}

#[test]
fn least_lists_of_tables(rt: HostRuntime) {
    for row in ROWS.lines() {
        assert!(rt; is_right(rt.alloc(), row) == Some(true), "{row}");
    }
}

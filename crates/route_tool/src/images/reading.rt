//! The routes of an image.
ghost use Rattle.std.specs.Prelude.{IfErr, IfOk, MatchOption, OnOk, map as each};
ghost use Rattle.std.specs.List.{AllZip};
ghost use Rattle.flat_routes.specs.Images.{numbered_row};
ghost use Rattle.route_tool.specs.RouteImages.{AreHopsOf, AreOpened, AreOwnBytes, HasHopAt, IsHopAt, IsHopFault, IsOpenedOf, IsOpenFault};

use crate::command::is_hop;
use crate::edits::first_part;
use crate::hop::Hop;
use crate::images::{ImageFamily, OpenFault};
use flat_routes::TableError;
use frozen_routes::FrozenRoutes;
use image_parts::payload;
use radix_trie::{Address, Memory, Network, Trie};
use std::alloc::Global;

/// The hop that is the line at a place, where a line begins there and is a hop.
fn hop_at(own: &[u8], place: usize) -> Option<&[u8]>
    ensures { MatchOption result (HasHopAt own.now place → ⊥)
        (λ hop. IsHopAt own.now place hop.now) }
{
    if place >= own.len() || (place > 0 && own[place - 1] != b'\n') {
        return None;
    }
    let (line, _) = first_part(&own[place..]);
    match str::from_utf8(line) {
        Ok(text) => if is_hop(text) { Some(line) } else { None },
        Err(_) => None,
    }
}

/// The user's own bytes in an image, none where it lists no such part.
fn own_bytes(image: &[u8]) -> &[u8]
    ensures { AreOwnBytes image.now result.now }
{
    match payload(image) {
        Some((place, size)) => &image[place..place + size],
        None => &[],
    }
}

/// The hop that is the line at a place, or None: a clone of the one that stands there already, so
/// each line is read once, and a new one where none does.
fn hop_of(hops: &mut Trie<usize, Hop>, own: &[u8], place: usize) -> Result<Option<Hop>, Memory>
    requires { AreHopsOf own.now hops.old }
    ensures hop { IfOk result (λ found. MatchOption found (HasHopAt own.now place → ⊥)
        (λ hop. IsHopAt own.now place hop)) }
    ensures hops { OnOk result (AreHopsOf own.now hops.new) }
{
    if let Some(hop) = hops.get(&place)? {
        return Ok(Some(hop.clone()?));
    }
    let Some(line) = hop_at(own, place) else {
        return Ok(None);
    };
    let hop = Hop::new(hops.allocator(), line)?;
    match hops.insert(place, hop.clone()?) {
        Ok(_) => Ok(Some(hop)),
        Err(_) => Err(Memory),
    }
}

/// The routes of rows, each with the hop at its value. Hops of one place share their bytes, so this
/// takes time and memory for each row, and for each byte of the user's own.
fn with_hops<A: Address>(
    alloc: Global,
    rows: &[(Network<A>, usize)],
    own: &[u8],
) -> Result<Vec<(Network<A>, Hop)>, OpenFault>
    ensures routes { IfOk result (λ routes. AllZip (IsOpenedOf A.number own.now) routes.items
        (each (numbered_row A.number) rows.now)) }
    ensures fault { IfErr result
        (IsHopFault own.now (each (numbered_row A.number) rows.now)) }
{
    let Ok(mut routes) = Vec::with_capacity(alloc, rows.len()) else {
        return Err(OpenFault::Memory);
    };
    let mut hops = Trie::new(alloc);
    for (i, (network, place)) in rows.iter().enumerate() {
        match hop_of(&mut hops, own, *place) {
            Ok(Some(hop)) => routes.push_reserved((*network, hop)),
            Ok(None) => return Err(OpenFault::Hop(i)),
            Err(_) => return Err(OpenFault::Memory),
        }
    }
    Ok(routes)
}

/// The routes of an image of one family, with their hops. It takes the time of the family's
/// `from_image`, a lookup a route, and time for each byte of the user's own.
///
/// # Errors
///
/// The bytes are no image, and the error says what is wrong with them. A row of the image points to
/// no hop, and the error says which is the first. An allocation fails.
pub(crate) fn opened<A: ImageFamily>(
    alloc: Global,
    image: &[u8],
) -> Result<FrozenRoutes<A, Hop>, OpenFault>
    ensures routes { IfOk result (λ routes. AreOpened A.number A.WIDE image.now routes) }
    ensures fault { IfErr result (IsOpenFault A.WIDE image.now) }
{
    let rows = match A::placed_rows(alloc, image) {
        Ok(rows) => rows,
        Err(TableError::Image(why)) => return Err(OpenFault::Image(why)),
        Err(TableError::Memory) => return Err(OpenFault::Memory),
    };
    let routes = with_hops(alloc, &rows, own_bytes(image))?;
    match FrozenRoutes::from_sorted(routes) {
        Ok(routes) => Ok(routes),
        Err(_) => Err(OpenFault::Memory),
    }
}

//! The image of routes.
ghost use Rattle.std.specs.Prelude.{◌≡◌, ◌+◌, ◌≤◌, ◌∷◌, ◌++◌, [], IfErr, IfOk, OnOk, length, vec_len};
ghost use Rattle.std.specs.List.{All, AllZip};
ghost use Rattle.flat_routes.specs.Images.{IsImage};
ghost use Rattle.nibble_map.specs.Lists.{IsPrefix};
ghost use Rattle.route_tool.specs.RouteImages.{AreLaidAt, AreOpened, AreTooLong, IsLineHop, IsWrittenAt, IsWrittenRow, hops_size};

use crate::hop::Hop;
use crate::images::{ImageFamily, WriteFault};
use crate::table::Rest;
use radix_trie::{Address, Memory, Network, Trie};
use std::alloc::{AllocError, Global};

/// Adds a hop and a line feed, and returns its place.
fn add_line(own: &mut Vec<u8>, hop: &[u8]) -> Result<usize, AllocError>
    ensures place { IfOk result (λ place. place ≡ vec_len own.old) }
    ensures text { OnOk result (own.new.items ≡ own.old.items ++ hop.now ++ 10 ∷ []) }
    ensures kept { IsPrefix own.old.items own.new.items }
{
    let place = own.len();
    own.extend_from_slice(hop)?;
    own.extend_from_slice(b"\n")?;
    Ok(place)
}

/// The place of a hop: the one that it has already, or that of a line which is added.
fn place_of<'a>(
    places: &mut Trie<&'a [u8], usize>,
    own: &mut Vec<u8>,
    hop: &'a Hop,
) -> Result<usize, Memory>
    requires { AreLaidAt places.old own.old.items }
    ensures place { IfOk result (λ place. IsWrittenAt own.new.items place hop.now) }
    ensures laid { OnOk result (AreLaidAt places.new own.new.items) }
    ensures kept { IsPrefix own.old.items own.new.items }
    ensures size { OnOk result
        (length own.new.items ≤ length own.old.items + length hop.now + 1) }
{
    let bytes = hop.as_bytes();
    if let Some(place) = places.get(&bytes)? {
        return Ok(*place);
    }
    let place = add_line(own, bytes)?;
    match places.insert(bytes, place) {
        Ok(_) => Ok(place),
        Err(_) => Err(Memory),
    }
}

/// The networks of routes, each with the place of its hop, and the hops, each of them once, as
/// lines. It takes a lookup for each route.
fn placed<A: Address>(
    alloc: Global,
    rest: Rest<'_, A>,
) -> Result<(Vec<(Network<A>, usize)>, Vec<u8>), Memory>
    ensures rows { IfOk result (λ p. AllZip (IsWrittenRow p.1.items) rest.entry p.0.items) }
    ensures size { IfOk result (λ p. length p.1.items ≤ hops_size rest.entry) }
{
    let mut rest = rest;
    let mut places = Trie::new(alloc);
    let mut own = Vec::new(alloc);
    let mut rows = Vec::new(alloc);
    while let Some((network, hop)) = rest.next()? {
        let place = place_of(&mut places, &mut own, hop)?;
        rows.push((*network, place))?;
    }
    Ok((rows, own))
}

/// The image of routes in the order of their networks' bits. It takes a lookup for each route, and
/// the time of the family's `to_image`.
///
/// # Errors
///
/// An allocation fails. There are 2^32 routes or more, or of IPv4 the hops take so many bytes.
pub(crate) fn image_of_routes<A: ImageFamily>(
    alloc: Global,
    rest: Rest<'_, A>,
) -> Result<Vec<u8>, WriteFault>
    ensures image { IfOk result (λ image. IsImage A.WIDE image.items) }
    ensures opened { IfOk result (λ image. All (λ r. IsLineHop r.1) rest.entry
        → AreOpened A.number A.WIDE image.items rest.entry) }
    ensures full { IfErr result (λ e. e ≡ WriteFault.Full → AreTooLong A.WIDE rest.entry) }
{
    let (rows, own) = placed(alloc, rest)?;
    A::image_of(alloc, &rows, &own)
}

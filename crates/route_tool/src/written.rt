//! What is written of routes, straight behind the answers that wait.
ghost use Rattle.std.specs.Prelude.{◌≡◌, ◌++◌, ◌∷◌, [], IfSome, OnOk, flat_map, map};
ghost use Rattle.nibble_map.specs.Lists.{IsPrefix};
ghost use Rattle.radix_keys.specs.Networks.{net_text};
ghost use Rattle.route_tool.specs.Answers.{addition, count_answer, row};
ghost use Rattle.route_tool.specs.Aggregates.{route_of};

use crate::hop::Hop;
use crate::table::Rest;
use arrayvec::ArrayString;
use itoa::Buffer;
use radix_trie::{Address, Memory, Network};
use std::alloc::AllocError;
use std::fmt::Write;

// How many bytes the longest text of a network has: that of eight segments of four digits.
const LONGEST: usize = 43;

/// Adds a number and a line feed.
pub(crate) fn add_count(out: &mut Vec<u8>, count: u128) -> Result<(), AllocError>
    ensures text { OnOk result (out.new.items ≡ out.old.items ++ count_answer count) }
    ensures kept { IsPrefix out.old.items out.new.items }
{
    out.extend_from_slice(Buffer::new().format(count).as_bytes())?;
    out.extend_from_slice(b"\n")
}

/// Adds a hop and a line feed.
pub(crate) fn add_hop(out: &mut Vec<u8>, hop: &Hop) -> Result<(), AllocError>
    ensures text { OnOk result (out.new.items ≡ out.old.items ++ hop.now ++ 10 ∷ []) }
    ensures kept { IsPrefix out.old.items out.new.items }
{
    out.extend_from_slice(hop.as_bytes())?;
    out.extend_from_slice(b"\n")
}

/// What is written of a network, where it has room in the array, as each network's text has.
///
/// It isn't written into the answers at once: where such a write is refused, its contract says
/// nothing of what they then hold.
fn text_of<A: Address>(network: &Network<A>) -> Option<ArrayString<LONGEST>>
    ensures { IfSome result (λ text. text.bytes ≡ net_text A.text network.now) }
{
    let mut text = ArrayString::new();
    match text.write_fmt(*network) {
        Ok(()) => Some(text),
        Err(_) => None,
    }
}

/// Adds what is written of a network. That a text has room in the array no contract of the library
/// tells, so one that had none would be written into memory of its own first.
fn add_network<A: Address>(out: &mut Vec<u8>, network: &Network<A>) -> Result<(), AllocError>
    ensures text { OnOk result
        (out.new.items ≡ out.old.items ++ net_text A.text network.now) }
    ensures kept { IsPrefix out.old.items out.new.items }
{
    match text_of(network) {
        Some(text) => out.extend_from_slice(text.as_str().as_bytes()),
        None => {
            let text = format!(in *out.allocator(); "{network}")?;
            out.extend_from_slice(text.as_bytes())
        }
    }
}

/// Adds a network, a space and its hop.
pub(crate) fn add_row<A: Address>(
    out: &mut Vec<u8>,
    network: &Network<A>,
    hop: &Hop,
) -> Result<(), AllocError>
    ensures text { OnOk result
        (out.new.items ≡ out.old.items ++ row A.text (network.now, hop.now)) }
    ensures kept { IsPrefix out.old.items out.new.items }
{
    add_network(out, network)?;
    out.extend_from_slice(b" ")?;
    add_hop(out, hop)
}

/// Adds each route.
pub(crate) fn add_rest<A: Address>(out: &mut Vec<u8>, rest: Rest<'_, A>) -> Result<(), Memory>
    ensures text { OnOk result
        (out.new.items ≡ out.old.items ++ flat_map (row A.text) rest.entry) }
    ensures kept { IsPrefix out.old.items out.new.items }
{
    let mut rest = rest;
    while let Some((network, hop)) = rest.next()? {
        add_row(out, network, hop)?;
    }
    Ok(())
}

/// Adds the line that asks for the addition of a route.
fn add_addition<A: Address>(
    out: &mut Vec<u8>,
    network: &Network<A>,
    hop: &Hop,
) -> Result<(), AllocError>
    ensures text { OnOk result (out.new.items
        ≡ out.old.items ++ addition A.text (network.now, hop.now) ++ 10 ∷ []) }
    ensures kept { IsPrefix out.old.items out.new.items }
{
    out.extend_from_slice(b"add ")?;
    add_row(out, network, hop)
}

/// Adds such a line for each route.
pub(crate) fn add_additions<A: Address>(out: &mut Vec<u8>, rest: Rest<'_, A>) -> Result<(), Memory>
    ensures text { OnOk result (out.new.items
        ≡ out.old.items ++ flat_map (λ r. addition A.text r ++ 10 ∷ []) rest.entry) }
    ensures kept { IsPrefix out.old.items out.new.items }
{
    let mut rest = rest;
    while let Some((network, hop)) = rest.next()? {
        add_addition(out, network, hop)?;
    }
    Ok(())
}

/// Adds each row.
pub(crate) fn add_rows<A: Address>(
    out: &mut Vec<u8>,
    rows: &[(Network<A>, &Hop)],
) -> Result<(), AllocError>
    ensures text { OnOk result
        (out.new.items ≡ out.old.items ++ flat_map (row A.text) (map route_of rows.now)) }
    ensures kept { IsPrefix out.old.items out.new.items }
{
    for (network, hop) in rows {
        add_row(out, network, *hop)?;
    }
    Ok(())
}

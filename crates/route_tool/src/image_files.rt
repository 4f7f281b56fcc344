//! Files that are images of routes: they are opened, and written.
ghost use Rattle.std.specs.Prelude.{◌≡◌, ◌≢◌, ◌⊎◌, ◌++◌, ℕ, List, Err, IfErr, OnErr, OnOk, decimal};
ghost use Rattle.nibble_map.specs.Lists.{IsPrefix};
ghost use Rattle.frozen_networks.specs.Networks.{network_map};
ghost use Rattle.route_tool.specs.Answers.{IsFileOpen, IsFileWrite, IsOpen, image_error_text, no_image_answer, open_answer, open_fault_text};
ghost use Rattle.route_tool.specs.RouteImages.{AreOpened, IsOpenFault};
ghost use Rattle.route_tool.specs.Routes.{Route, in_order};

use crate::images::{ImageFamily, OpenFault, WriteFault, image_of_routes, opened};
use crate::load::add_fault;
use crate::table::{Routes, Table};
use crate::written::add_count;
use image_parts::ImageError;
use itoa::Buffer;
use radix_trie::Memory;
use std::alloc::{AllocError, Global};
use std::rt::Files;
use whole_files::{FileFault, read, replace};

/// How the name begins of a file that is written beside another one, in whose place it is put.
const BESIDE: &'static str = ".route_tool-";

/// Adds a text and an index.
fn add_indexed(out: &mut Vec<u8>, text: &str, index: usize) -> Result<(), AllocError>
    ensures text { OnOk result (out.new.items ≡ out.old.items ++ text.now ++ decimal index) }
    ensures kept { IsPrefix out.old.items out.new.items }
{
    out.extend_from_slice(text.as_bytes())?;
    out.extend_from_slice(Buffer::new().format(index).as_bytes())
}

/// Adds what is wrong with bytes that are no image.
fn add_image_error(out: &mut Vec<u8>, why: ImageError) -> Result<(), AllocError>
    ensures text { OnOk result (out.new.items ≡ out.old.items ++ image_error_text why) }
    ensures kept { IsPrefix out.old.items out.new.items }
{
    match why {
        ImageError::Short => out.extend_from_slice(b"short"),
        ImageError::Mark => out.extend_from_slice(b"mark"),
        ImageError::Version => out.extend_from_slice(b"version"),
        ImageError::Part(index) => add_indexed(out, "part ", index),
        ImageError::Row(index) => add_indexed(out, "row ", index),
        ImageError::Span(index) => add_indexed(out, "span ", index),
        ImageError::Cell(index) => add_indexed(out, "cell ", index),
    }
}

/// Adds why bytes aren't opened.
fn add_why(out: &mut Vec<u8>, fault: OpenFault) -> Result<(), AllocError>
    ensures text { OnOk result (out.new.items ≡ out.old.items ++ open_fault_text fault) }
    ensures kept { IsPrefix out.old.items out.new.items }
{
    match fault {
        OpenFault::Memory => out.extend_from_slice(b"out of memory"),
        OpenFault::Image(why) => add_image_error(out, why),
        OpenFault::Hop(index) => add_indexed(out, "hop of row ", index),
    }
}

/// Adds that bytes are no image of routes with hops, and why.
fn add_open_fault(out: &mut Vec<u8>, fault: OpenFault) -> Result<(), AllocError>
    ensures text { OnOk result
        (out.new.items ≡ out.old.items ++ no_image_answer (open_fault_text fault)) }
    ensures kept { IsPrefix out.old.items out.new.items }
{
    out.extend_from_slice(b"no image: ")?;
    add_why(out, fault)?;
    out.extend_from_slice(b"\n")
}

/// Opens bytes as routes of one family, in place of those that there are.
fn open_family<A: ImageFamily>(
    alloc: Global,
    routes: &mut Routes<A>,
    bytes: &[u8],
) -> Result<(), OpenFault>
    ensures opened { OnOk result ((rows : List (Route A)) × AreOpened A.number A.WIDE bytes.now rows
        × (routes.new ≡ network_map A.BITS A.number rows)) }
    ensures fault { IfErr result (IsOpenFault A.WIDE bytes.now) }
    ensures unchanged { OnErr result (routes.new ≡ routes.old) }
{
    let rows = opened(alloc, bytes)?;
    *routes = Routes::of_rows(alloc, rows);
    Ok(())
}

/// Adds how many routes there are once bytes were opened, or why they weren't.
fn add_opened(out: &mut Vec<u8>, count: u128, outcome: Result<(), OpenFault>) -> Result<(), Memory>
    ensures text { OnOk result (out.new.items ≡ out.old.items ++ open_answer count outcome) }
    ensures told { OnOk result (outcome ≢ Err OpenFault.Memory) }
    ensures kept { IsPrefix out.old.items out.new.items }
{
    match outcome {
        Ok(()) => Ok(add_count(out, count)?),
        Err(OpenFault::Memory) => Err(Memory),
        Err(fault) => Ok(add_open_fault(out, fault)?),
    }
}

/// Opens bytes as routes of the family that their mark tells, in place of those that there are, and
/// adds how many routes there are then.
fn open_bytes(out: &mut Vec<u8>, table: &mut Table, bytes: &[u8]) -> Result<(), Memory>
    ensures answer { OnOk result ((answer : List ℕ) × (out.new.items ≡ out.old.items ++ answer)
        × IsOpen bytes.now table.old table.new answer) }
    ensures left { OnErr result ((table.new ≡ table.old)
        ⊎ ((answer : List ℕ) × IsOpen bytes.now table.old table.new answer)) }
    ensures kept { IsPrefix out.old.items out.new.items }
{
    let alloc = *out.allocator();
    if bytes.starts_with(b"NZIPV6.") {
        let outcome = open_family(alloc, &mut table.v6, bytes);
        add_opened(out, table.len(), outcome)
    } else {
        let outcome = open_family(alloc, &mut table.v4, bytes);
        add_opened(out, table.len(), outcome)
    }
}

/// Opens the file of this name.
pub fn open<F: Files>(
    files: &F,
    out: &mut Vec<u8>,
    table: &mut Table,
    path: &str,
) -> Result<(), Memory>
    ensures answer { OnOk result ((answer : List ℕ) × (out.new.items ≡ out.old.items ++ answer)
        × IsFileOpen table.old table.new answer) }
    ensures left { OnErr result ((table.new ≡ table.old)
        ⊎ ((answer : List ℕ) × IsFileOpen table.old table.new answer)) }
    ensures kept { IsPrefix out.old.items out.new.items }
{
    match read(*out.allocator(), files, path) {
        Ok(bytes) => open_bytes(out, table, &bytes),
        Err(FileFault::Memory) => Err(Memory),
        Err(fault) => Ok(add_fault(out, fault)?),
    }
}

/// Puts an image of the routes of a family in place of the file of this name, and adds how many
/// they are.
pub fn write<F: Files, A: ImageFamily>(
    files: &F,
    out: &mut Vec<u8>,
    routes: &Routes<A>,
    path: &str,
) -> Result<(), Memory>
    ensures answer { OnOk result ((answer : List ℕ) × (out.new.items ≡ out.old.items ++ answer)
        × IsFileWrite A.WIDE (in_order routes.now) answer) }
    ensures kept { IsPrefix out.old.items out.new.items }
{
    let alloc = *out.allocator();
    let image = match image_of_routes(alloc, routes.rest()) {
        Ok(image) => image,
        Err(WriteFault::Memory) => return Err(Memory),
        Err(WriteFault::Full) => return Ok(out.extend_from_slice(b"no image: full\n")?),
    };
    match replace(alloc, files, path, &image, BESIDE) {
        Ok(()) => Ok(add_count(out, routes.len() as u128)?),
        Err(FileFault::Memory) => Err(Memory),
        Err(fault) => Ok(add_fault(out, fault)?),
    }
}

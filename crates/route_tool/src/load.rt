//! Loading a file: its lines are checked first, and then carried out.
ghost use Rattle.std.specs.Prelude.{◌≡◌, ◌⊎◌, ◌++◌, ℕ, List, OnOk, OnErr};
ghost use Rattle.std.specs.List.{All};
ghost use Rattle.nibble_map.specs.Lists.{IsPrefix};
ghost use Rattle.route_tool.specs.Answers.{IsFileLoad, IsLoad, bad_edit_answer, no_file_answer};
ghost use Rattle.route_tool.specs.Commands.{asked_of, request_of};
ghost use Rattle.route_tool.specs.Loads.{AreCarriedOut, IsChange, IsChanged, IsEdit, IsEdited, IsGood, IsLoadedInPart, lines_in};

use crate::command::{Command, Request};
use crate::edits::{edit_of, first_bad, first_part};
use crate::reason::Reason;
use crate::table::{Routes, Table};
use crate::written::add_count;
use itoa::Buffer;
use radix_trie::{Address, Memory};
use std::alloc::AllocError;
use std::rt::Files;
use whole_files::{FileFault, read};

/// Adds a route, or takes one away, where that is asked for.
fn change<A: Address>(routes: &mut Routes<A>, request: &Request<'_, A>) -> Result<(), Memory>
    ensures done { OnOk result (IsChange (request_of request.now)
        → IsChanged A.BITS A.number (request_of request.now) routes.old routes.new) }
    ensures unchanged { OnErr result (routes.new ≡ routes.old) }
{
    match request {
        Request::Add(network, hop) => {
            routes.add(*network, hop)?;
        }
        Request::Del(network) => {
            routes.del(network)?;
        }
        Request::Below(_) | Request::Look(_) | Request::Find(_) => {}
    }
    Ok(())
}

/// Carries out what changes a route.
fn edit(table: &mut Table, command: &Command<'_>) -> Result<(), Memory>
    ensures done { OnOk result (IsEdit (asked_of command.now)
        → IsEdited (asked_of command.now) table.old table.new) }
    ensures unchanged { OnErr result (table.new ≡ table.old) }
{
    match command {
        Command::V4(request) => change(&mut table.v4, request),
        Command::V6(request) => change(&mut table.v6, request),
        _ => Ok(()),
    }
}

/// Carries out the lines of a text, none of which is bad.
fn carry_out(table: &mut Table, text: &[u8]) -> Result<(), Memory>
    requires { All IsGood (lines_in text.now) }
    ensures done { OnOk result (AreCarriedOut (lines_in text.now) table.old table.new) }
    ensures begun { OnErr result (IsLoadedInPart text.now table.old table.new) }
{
    let mut rest = Some(text);
    while let Some(bytes) = rest {
        let (line, after) = first_part(bytes);
        if let Ok(command) = edit_of(line) {
            edit(table, &command)?;
        }
        rest = after;
    }
    Ok(())
}

/// Adds that a line of a file is bad, by its number, and why.
fn add_bad_edit(out: &mut Vec<u8>, number: u64, reason: Reason) -> Result<(), AllocError>
    ensures text { OnOk result
        (out.new.items ≡ out.old.items ++ bad_edit_answer number reason) }
    ensures kept { IsPrefix out.old.items out.new.items }
{
    out.extend_from_slice(b"bad line ")?;
    out.extend_from_slice(Buffer::new().format(number).as_bytes())?;
    out.extend_from_slice(b": ")?;
    out.extend_from_slice(reason.text().as_bytes())?;
    out.extend_from_slice(b"\n")
}

/// Adds that there is no file to read, and why.
pub(crate) fn add_fault(out: &mut Vec<u8>, fault: FileFault) -> Result<(), AllocError>
    ensures text { OnOk result (out.new.items ≡ out.old.items ++ no_file_answer fault) }
    ensures kept { IsPrefix out.old.items out.new.items }
{
    out.extend_from_slice(b"no file: ")?;
    out.extend_from_slice(fault.text().as_bytes())?;
    out.extend_from_slice(b"\n")
}

/// Carries out the lines of a text, where none is bad, and adds how many routes there are then.
fn load_text(out: &mut Vec<u8>, table: &mut Table, text: &[u8]) -> Result<(), Memory>
    ensures answer { OnOk result ((answer : List ℕ) × (out.new.items ≡ out.old.items ++ answer)
        × IsLoad text.now table.old table.new answer) }
    ensures left { OnErr result ((table.new ≡ table.old)
        ⊎ IsLoadedInPart text.now table.old table.new) }
    ensures kept { IsPrefix out.old.items out.new.items }
{
    if let Some((number, reason)) = first_bad(text) {
        return Ok(add_bad_edit(out, number, reason)?);
    }
    carry_out(table, text)?;
    Ok(add_count(out, table.len())?)
}

/// Loads the file of this name.
pub fn load<F: Files>(
    files: &F,
    out: &mut Vec<u8>,
    table: &mut Table,
    path: &str,
) -> Result<(), Memory>
    ensures answer { OnOk result ((answer : List ℕ) × (out.new.items ≡ out.old.items ++ answer)
        × IsFileLoad table.old table.new answer) }
    ensures left { OnErr result ((table.new ≡ table.old)
        ⊎ ((text : List ℕ) × IsLoadedInPart text table.old table.new)) }
    ensures kept { IsPrefix out.old.items out.new.items }
{
    match read(*out.allocator(), files, path) {
        Ok(text) => load_text(out, table, &text),
        Err(FileFault::Memory) => Err(Memory),
        Err(fault) => Ok(add_fault(out, fault)?),
    }
}

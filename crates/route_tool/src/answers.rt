//! Carrying out a command, and its answer, straight behind the answers that wait.
ghost use Rattle.std.specs.Prelude.{◌≡◌, ◌⊎◌, ◌++◌, ℕ, List, OnOk, OnErr, option_copied, option_map};
ghost use Rattle.nibble_map.specs.Lists.{IsPrefix};
ghost use Rattle.radix_trie.specs.Walks.{deref_pair};
ghost use Rattle.route_tool.specs.Answers.{IsAggregateAnswer, IsAnswer, IsBegun, IsFileAnswer, IsFileBegun, IsReply, added_answer, bad_answer, below_answer, dump_answer, find_answer, hop_answer, list_answer, row};
ghost use Rattle.route_tool.specs.Commands.{asked_of, request_of};
ghost use Rattle.route_tool.specs.Reasons.{reason_text};
ghost use Rattle.route_tool.specs.Routes.{routes_within};

use crate::aggregate::aggregate;
use crate::command::{Command, FileCall, Request};
use crate::help::HELP;
use crate::hop::Hop;
use crate::image_files::{open, write};
use crate::load::load;
use crate::reason::Reason;
use crate::table::{Routes, Table};
use crate::written::{add_additions, add_count, add_hop, add_rest, add_row, add_rows};
use radix_trie::{Address, Memory, Network};
use std::alloc::AllocError;
use std::rt::Files;

fn add_added_answer(out: &mut Vec<u8>, old: Option<Hop>) -> Result<(), AllocError>
    ensures text { OnOk result (out.new.items ≡ out.old.items ++ added_answer old) }
    ensures kept { IsPrefix out.old.items out.new.items }
{
    match old {
        None => out.extend_from_slice(b"new\n"),
        Some(hop) => {
            out.extend_from_slice(b"old ")?;
            add_hop(out, &hop)
        }
    }
}

fn add_hop_answer(out: &mut Vec<u8>, found: Option<&Hop>) -> Result<(), AllocError>
    ensures text { OnOk result
        (out.new.items ≡ out.old.items ++ hop_answer (option_copied found.entry)) }
    ensures kept { IsPrefix out.old.items out.new.items }
{
    match found {
        None => out.extend_from_slice(b"none\n"),
        Some(hop) => add_hop(out, hop),
    }
}

/// Adds how many routes lie within the network, and then each of them.
fn add_below<A: Address>(
    out: &mut Vec<u8>,
    routes: &Routes<A>,
    network: &Network<A>,
) -> Result<(), Memory>
    ensures text { OnOk result (out.new.items ≡ out.old.items
        ++ below_answer A.text (routes_within A.BITS A.number routes.now network.now)) }
    ensures kept { IsPrefix out.old.items out.new.items }
{
    match routes.below(network)? {
        Some(rows) => {
            add_count(out, rows.count as u128)?;
            add_rest(out, rows.walk)
        }
        None => Ok(add_count(out, 0)?),
    }
}

/// Adds a row, or that there is none.
fn add_found<A: Address>(
    out: &mut Vec<u8>,
    found: Option<(&Network<A>, &Hop)>,
) -> Result<(), AllocError>
    ensures text { OnOk result (out.new.items ≡ out.old.items
        ++ find_answer A.text (option_map deref_pair found.entry)) }
    ensures kept { IsPrefix out.old.items out.new.items }
{
    match found {
        Some((network, hop)) => add_row(out, network, hop),
        None => out.extend_from_slice(b"none\n"),
    }
}

/// Carries out a request of one family, and adds its answer, or after a failure maybe a part of it.
fn add_reply<A: Address>(
    out: &mut Vec<u8>,
    routes: &mut Routes<A>,
    request: &Request<'_, A>,
) -> Result<(), Memory>
    ensures reply { OnOk result ((answer : List ℕ) × (out.new.items ≡ out.old.items ++ answer)
        × IsReply A.text A.BITS A.number (request_of request.now) routes.old routes.new answer) }
    ensures left { OnErr result ((routes.new ≡ routes.old) ⊎ ((answer : List ℕ)
        × IsReply A.text A.BITS A.number (request_of request.now) routes.old routes.new answer)) }
    ensures kept { IsPrefix out.old.items out.new.items }
{
    match request {
        Request::Add(network, hop) => add_added_answer(out, routes.add(*network, hop)?)?,
        Request::Del(network) => {
            let old = routes.del(network)?;
            add_hop_answer(out, old.as_ref())?
        }
        Request::Below(network) => add_below(out, routes, network)?,
        Request::Look(address) => {
            routes.expect_look();
            add_hop_answer(out, routes.look(*address)?)?
        }
        Request::Find(address) => {
            routes.expect_look();
            add_found(out, routes.find(*address)?)?
        }
    }
    Ok(())
}

/// Adds how many routes there are, and then each of them, those of IPv4 first.
fn add_list(out: &mut Vec<u8>, table: &Table) -> Result<(), Memory>
    ensures text { OnOk result (out.new.items ≡ out.old.items ++ list_answer table.now) }
    ensures kept { IsPrefix out.old.items out.new.items }
{
    add_count(out, table.len())?;
    add_rest(out, table.v4.rest())?;
    add_rest(out, table.v6.rest())
}

/// Adds a line for each route, those of IPv4 first.
fn add_dump(out: &mut Vec<u8>, table: &Table) -> Result<(), Memory>
    ensures text { OnOk result (out.new.items ≡ out.old.items ++ dump_answer table.now) }
    ensures kept { IsPrefix out.old.items out.new.items }
{
    add_additions(out, table.v4.rest())?;
    add_additions(out, table.v6.rest())
}

/// Adds how many routes the least lists have, and then each, those of IPv4 first.
fn add_aggregate(out: &mut Vec<u8>, table: &Table) -> Result<(), Memory>
    ensures answer { OnOk result ((answer : List ℕ) × (out.new.items ≡ out.old.items ++ answer)
        × IsAggregateAnswer table.now answer) }
    ensures kept { IsPrefix out.old.items out.new.items }
{
    let alloc = *out.allocator();
    let v4 = aggregate(alloc, &table.v4)?;
    let v6 = aggregate(alloc, &table.v6)?;
    add_count(out, v4.len() as u128 + v6.len() as u128)?;
    add_rows(out, &v4)?;
    Ok(add_rows(out, &v6)?)
}

/// Adds that a line is bad, and what is wrong with it.
pub fn add_reason(out: &mut Vec<u8>, reason: Reason) -> Result<(), AllocError>
    ensures text { OnOk result
        (out.new.items ≡ out.old.items ++ bad_answer (reason_text reason)) }
    ensures kept { IsPrefix out.old.items out.new.items }
{
    out.extend_from_slice(b"bad line: ")?;
    out.extend_from_slice(reason.text().as_bytes())?;
    out.extend_from_slice(b"\n")
}

/// Does what is asked with a file, and adds the answer, or after a failure maybe a part of it.
fn on_file<F: Files>(
    files: &F,
    out: &mut Vec<u8>,
    table: &mut Table,
    call: FileCall,
    path: &str,
) -> Result<(), Memory>
    ensures answer { OnOk result ((answer : List ℕ) × (out.new.items ≡ out.old.items ++ answer)
        × IsFileAnswer call table.old table.new answer) }
    ensures left { OnErr result ((table.new ≡ table.old)
        ⊎ (((answer : List ℕ) × IsFileAnswer call table.old table.new answer)
        ⊎ IsFileBegun call table.old table.new)) }
    ensures kept { IsPrefix out.old.items out.new.items }
{
    match call {
        FileCall::Load => load(files, out, table, path),
        FileCall::Open => open(files, out, table, path),
        FileCall::WriteIpv4 => write(files, out, &table.v4, path),
        FileCall::WriteIpv6 => write(files, out, &table.v6, path),
    }
}

/// Carries out a command, and adds its answer, or after a failure maybe a part of it.
pub fn answer<F: Files>(
    files: &F,
    out: &mut Vec<u8>,
    table: &mut Table,
    command: &Command<'_>,
) -> Result<(), Memory>
    ensures answer { OnOk result ((answer : List ℕ) × (out.new.items ≡ out.old.items ++ answer)
        × IsAnswer (asked_of command.now) table.old table.new answer) }
    ensures left { OnErr result ((table.new ≡ table.old)
        ⊎ (((answer : List ℕ) × IsAnswer (asked_of command.now) table.old table.new answer)
        ⊎ IsBegun (asked_of command.now) table.old table.new)) }
    ensures kept { OnErr result (IsPrefix out.old.items out.new.items) }
{
    match command {
        Command::V4(request) => add_reply(out, &mut table.v4, request),
        Command::V6(request) => add_reply(out, &mut table.v6, request),
        Command::Len => Ok(add_count(out, table.len())?),
        Command::All => add_list(out, table),
        Command::Dump => add_dump(out, table),
        Command::Aggregate => add_aggregate(out, table),
        Command::Compact => {
            table.compact()?;
            Ok(add_count(out, table.len())?)
        }
        Command::OnFile(call, path) => on_file(files, out, table, *call, path),
        Command::Help => Ok(out.extend_from_slice(HELP.as_bytes())?),
        Command::Comment => Ok(()),
    }
}

//! Carrying out a command, and the whole answer to it.
ghost use Rattle.std.specs.Prelude.{◌≡◌, ◌⊎◌, ◌++◌, ◌∷◌, [], OnOk, OnErr, map as each, decimal};
ghost use Rattle.trie_tool.specs.Command.{request};
ghost use Rattle.trie_tool.specs.Request.{answer_to, numbers_after, insert_answer, get_answer, foot_answer, below_answer, json_answer, row};
ghost use Rattle.radix_trie.specs.Views.{pairs_below};
ghost use Rattle.std.specs.FinMap as map;
ghost use Rattle.nibble_map.specs.Lists.{IsPrefix};
ghost use Rattle.nibble_map.specs.Nibbles.{nibbles};
ghost use Rattle.trie_tool.specs.Numbers.{text};

use crate::command::Command;
use crate::numbers::{Numbers, Rows};
use crate::object::add_object;
use itoa::{Buffer, write_digits};
use radix_trie::Memory;
use std::alloc::AllocError;

// How many digits the largest `u64` has.
const DIGITS: usize = 20;

/// Adds a number and a line feed.
fn add_number(out: &mut Vec<u8>, number: u64) -> Result<(), AllocError>
    ensures text { OnOk result (out.new.items ≡ out.old.items ++ decimal number ++ 10 ∷ []) }
    ensures kept { IsPrefix out.old.items out.new.items }
{
    let mut line = [b'\n'; DIGITS + 1];
    let start = write_digits(number, &mut line, DIGITS);
    out.extend_from_slice(&line[start..])
}

fn add_insert_answer(out: &mut Vec<u8>, old: Option<u64>) -> Result<(), AllocError>
    ensures text { OnOk result (out.new.items ≡ out.old.items ++ insert_answer old) }
    ensures kept { IsPrefix out.old.items out.new.items }
{
    match old {
        None => out.extend_from_slice(b"new\n"),
        Some(number) => {
            out.extend_from_slice(b"old ")?;
            add_number(out, number)
        }
    }
}

fn add_get_answer(out: &mut Vec<u8>, found: Option<u64>) -> Result<(), AllocError>
    ensures text { OnOk result (out.new.items ≡ out.old.items ++ get_answer found) }
    ensures kept { IsPrefix out.old.items out.new.items }
{
    match found {
        None => out.extend_from_slice(b"none\n"),
        Some(number) => add_number(out, number),
    }
}

/// Adds a number that may be wider than a `u64`.
fn add_wide(out: &mut Vec<u8>, number: u128) -> Result<(), AllocError>
    ensures text { OnOk result (out.new.items ≡ out.old.items ++ decimal number) }
    ensures kept { IsPrefix out.old.items out.new.items }
{
    out.extend_from_slice(Buffer::new().format(number).as_bytes())
}

fn add_foot_answer(out: &mut Vec<u8>, points: u128, prefixes: u128) -> Result<(), AllocError>
    ensures text { OnOk result (out.new.items ≡ out.old.items ++ foot_answer (points, prefixes)) }
    ensures kept { IsPrefix out.old.items out.new.items }
{
    add_wide(out, points)?;
    out.extend_from_slice(b" ")?;
    add_wide(out, prefixes)?;
    out.extend_from_slice(b"\n")
}

/// Adds a text, a space and its number.
fn add_row(out: &mut Vec<u8>, key: &String, number: u64) -> Result<(), AllocError>
    ensures text { OnOk result
        (out.new.items ≡ out.old.items ++ row (text (key.now, number))) }
    ensures kept { IsPrefix out.old.items out.new.items }
{
    out.extend_from_slice(key.as_bytes())?;
    out.extend_from_slice(b" ")?;
    add_number(out, number)
}

/// Adds how many rows there are, and then each text with its number.
fn add_rows(out: &mut Vec<u8>, rows: Rows<'_>) -> Result<(), Memory>
    ensures text { OnOk result
        (out.new.items ≡ out.old.items ++ below_answer (each text rows.entry.walk)) }
    ensures kept { IsPrefix out.old.items out.new.items }
{
    let Rows { count, mut walk } = rows;
    add_number(out, count as u64)?;
    while let Some((key, number)) = walk.next()? {
        add_row(out, key, *number)?;
    }
    Ok(())
}

/// Adds how many texts went, and then each of them with its number.
fn add_gone(out: &mut Vec<u8>, gone: &[(String, u64)]) -> Result<(), AllocError>
    ensures text { OnOk result
        (out.new.items ≡ out.old.items ++ below_answer (each text gone.now)) }
    ensures kept { IsPrefix out.old.items out.new.items }
{
    add_number(out, gone.len() as u64)?;
    for (key, number) in gone {
        add_row(out, key, *number)?;
    }
    Ok(())
}

/// Adds the texts that begin with the key, and their numbers.
fn add_below(out: &mut Vec<u8>, numbers: &Numbers, key: &str) -> Result<(), Memory>
    ensures text { OnOk result (out.new.items
        ≡ out.old.items ++ below_answer (pairs_below numbers.now (nibbles key.now))) }
    ensures kept { IsPrefix out.old.items out.new.items }
{
    match numbers.below(key)? {
        Some(rows) => add_rows(out, rows),
        None => Ok(out.extend_from_slice(b"0\n")?),
    }
}

/// Adds the compact text of the object of the texts and their numbers.
fn add_json(out: &mut Vec<u8>, numbers: &Numbers) -> Result<(), Memory>
    ensures text { OnOk result
        (out.new.items ≡ out.old.items ++ json_answer (map.values numbers.now)) }
    ensures kept { IsPrefix out.old.items out.new.items }
{
    add_object(out, numbers.all()?)?;
    Ok(out.extend_from_slice(b"\n")?)
}

/// Carries out a command, and adds its answer, or after a failure maybe a part of it.
pub fn answer(out: &mut Vec<u8>, numbers: &mut Numbers, command: Command<'_>) -> Result<(), Memory>
    ensures text { OnOk result
        (out.new.items ≡ out.old.items ++ answer_to (request command.entry) numbers.old) }
    ensures numbers { OnOk result
        (numbers.new ≡ numbers_after (request command.entry) numbers.old) }
    ensures left { OnErr result ((numbers.new ≡ numbers.old)
        ⊎ (numbers.new ≡ numbers_after (request command.entry) numbers.old)) }
    ensures kept { IsPrefix out.old.items out.new.items }
{
    match command {
        Command::Insert(key, number) => add_insert_answer(out, numbers.insert(key, number)?)?,
        Command::Get(key) => add_get_answer(out, numbers.get(key)?)?,
        Command::Remove(key) => add_get_answer(out, numbers.remove(key)?)?,
        Command::Ancestor(key) => add_get_answer(out, numbers.ancestor(key)?)?,
        Command::Below(key) => add_below(out, numbers, key)?,
        Command::Prune(key) => add_gone(out, &numbers.prune(key)?)?,
        Command::Len => add_number(out, numbers.len() as u64)?,
        Command::Foot => {
            let (points, prefixes) = numbers.footprint();
            add_foot_answer(out, points, prefixes)?
        }
        Command::Json => add_json(out, numbers)?,
    }
    Ok(())
}

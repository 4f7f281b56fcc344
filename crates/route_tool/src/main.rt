//! Reads lines about a routing table on standard input, and writes an answer to each on standard
//! output.
#![tactic(auto)]

mod aggregate;
mod answers;
mod command;
mod edits;
mod engine;
mod help;
mod hop;
mod image_files;
mod images;
mod laws;
mod load;
mod printable;
mod reason;
mod start;
mod table;
mod written;

use crate::engine::{answer_all, answer_each};
use crate::printable::Printable;
use crate::start::{NOTICES, USAGE, is_read_on_start};
use line_sessions::{Patient, Prompting, WatchedReader, WatchedWriter};
use std::io;
use std::io::{IsTerminal, Read, Write};
use std::process::ExitCode;

fn main(rt: HostRuntime) -> ExitCode {
    let Some(is_read_on) = is_read_on_start(&rt) else {
        let _told = eprintln!(rt; "{USAGE}");
        return ExitCode::from(5);
    };
    let reader = Patient::new(rt.reader());
    if rt.stdin().is_terminal() {
        show(&rt, true, Prompting::new(reader, rt.stderr(), NOTICES))
    } else {
        show(&rt, is_read_on, reader)
    }
}

/// Answers what the reader gives; to a terminal with no control character.
fn show<R: Read + Drop>(rt: &HostRuntime, is_read_on: bool, reader: R) -> ExitCode {
    if rt.stdout().is_terminal() {
        answer(rt, is_read_on, reader, Printable::new(io::writer(rt)))
    } else {
        answer(rt, is_read_on, reader, io::writer(rt))
    }
}

fn answer<R: Read + Drop, W: Write + Drop>(
    rt: &HostRuntime,
    is_read_on: bool,
    reader: R,
    writer: W,
) -> ExitCode {
    let mut reader = WatchedReader::new(reader);
    let mut writer = WatchedWriter::new(writer);
    let mut errors = WatchedWriter::new(rt.stderr());
    if is_read_on {
        answer_each(rt, &mut reader, &mut writer, &mut errors)
    } else {
        answer_all(rt, &mut reader, &mut writer, &mut errors)
    }
}

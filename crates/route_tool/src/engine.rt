//! What a session answers to a line.
ghost use Rattle.std.specs.Process.{exit_status};
ghost use Rattle.line_sessions.specs.Sessions.{Ran};
ghost use Rattle.route_tool.specs.Reasons.{IsRemarkOf};
ghost use Rattle.route_tool.specs.Sessions.{GivesUp, IsBad, IsNever, Replies, RepliesToEach, no_routes};

use crate::answers::{add_reason, answer};
use crate::command::parse;
use crate::reason::wrong_with;
use crate::table::Table;
use line_sessions::{Program, Refusal, WatchedReader, WatchedWriter, run};
use std::io::{Read, Write};
use std::marker::Model;
use std::process::ExitCode;
use std::rt::Files;

/// A table that a bad line ends, and the system's files. A contract sees the table.
#[derive(Drop)]
struct Strict<F: Files + AllocGlobal + Drop> {
    files: F,
    table: Table,
}

impl<F: Files + AllocGlobal + Drop> Model for Strict<F> {
    ghost use Rattle.route_tool.specs.Sessions.{table_code};
    ghost use Rattle.route_tool.specs.declared.table.Table.{Table};

    ghost Value = { Table };

    ghost coded = { table_code };

    ghost view = { λ s. s.table };
}

impl<F: Files + AllocGlobal + Drop> Program for Strict<F> {
    ghost use Rattle.route_tool.specs.Reasons.{IsRemarkOf};
    ghost use Rattle.route_tool.specs.Sessions.{GivesUp, IsBad, Replies, bad_unanswered};

    ghost replies = { Replies };

    ghost is_bad = { IsBad };

    ghost gives_up = { GivesUp };

    ghost says = { IsRemarkOf };

    fn answer(&mut self, line: &[u8], answers: &mut Vec<u8>) -> Result<(), Refusal> {
        let Some(command) = parse(line) else {
            return Err(Refusal::Bad(wrong_with(line).text()));
        };
        answer(&self.files, answers, &mut self.table, &command).map_err(|_| Refusal::Memory)
    }

    ghost bad_is_unanswered = { bad_unanswered };
}

/// A table that answers what is wrong with a bad line, and goes on.
#[derive(Drop)]
struct Lenient<F: Files + AllocGlobal + Drop> {
    files: F,
    table: Table,
}

impl<F: Files + AllocGlobal + Drop> Model for Lenient<F> {
    ghost use Rattle.route_tool.specs.Sessions.{table_code};
    ghost use Rattle.route_tool.specs.declared.table.Table.{Table};

    ghost Value = { Table };

    ghost coded = { table_code };

    ghost view = { λ s. s.table };
}

impl<F: Files + AllocGlobal + Drop> Program for Lenient<F> {
    ghost use Rattle.route_tool.specs.Reasons.{IsRemarkOf};
    ghost use Rattle.route_tool.specs.Sessions.{GivesUp, IsNever, RepliesToEach, never_unanswered};

    ghost replies = { RepliesToEach };

    ghost is_bad = { IsNever };

    ghost gives_up = { GivesUp };

    ghost says = { IsRemarkOf };

    fn answer(&mut self, line: &[u8], answers: &mut Vec<u8>) -> Result<(), Refusal> {
        match parse(line) {
            Some(command) => answer(&self.files, answers, &mut self.table, &command).map_err(
                |_| Refusal::Memory,
            ),
            None => add_reason(answers, wrong_with(line)).map_err(|_| Refusal::Memory),
        }
    }

    ghost bad_is_unanswered = { never_unanswered };
}

/// The whole program: a session that begins with no route, and then the line on standard error that
/// tells its fault, where there is one. A bad line ends it. Gives the status to exit with.
pub fn answer_all<F: Files + AllocGlobal + Drop, R: Read, W: Write, E: Write>(
    files: F,
    reader: &mut WatchedReader<R>,
    writer: &mut WatchedWriter<W>,
    errors: &mut WatchedWriter<E>,
) -> ExitCode
    ensures { Ran Replies IsBad GivesUp IsRemarkOf reader.old reader.new
        writer.old writer.new errors.old errors.new no_routes (exit_status result) }
{
    let alloc = files.alloc();
    let strict = Strict {
        files,
        table: Table::new(alloc),
    };
    run(alloc, strict, reader, writer, errors)
}

/// The same program, but no line ends it: where one is bad, its answer says why.
pub fn answer_each<F: Files + AllocGlobal + Drop, R: Read, W: Write, E: Write>(
    files: F,
    reader: &mut WatchedReader<R>,
    writer: &mut WatchedWriter<W>,
    errors: &mut WatchedWriter<E>,
) -> ExitCode
    ensures { Ran RepliesToEach IsNever GivesUp IsRemarkOf reader.old reader.new
        writer.old writer.new errors.old errors.new no_routes (exit_status result) }
{
    let alloc = files.alloc();
    let lenient = Lenient {
        files,
        table: Table::new(alloc),
    };
    run(alloc, lenient, reader, writer, errors)
}

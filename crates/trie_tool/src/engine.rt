//! A session over a reader and a writer.
ghost use Rattle.std.specs.FinMap as map;
ghost use Rattle.std.specs.Process.{exit_status};
ghost use Rattle.line_sessions.specs.Sessions.{Ran};
ghost use Rattle.line_sessions.specs.Watched.{Noted};
ghost use Rattle.trie_tool.specs.Request.{GivesUp, IsBad, IsRemarkOf, Replies};
ghost use Rattle.trie_tool.specs.Serve.{ServedNumbers};

use crate::answers::answer;
use crate::command::parse;
use crate::numbers::Numbers;
pub use line_sessions::Fault as ToolError;
use line_sessions::{Program, Refusal, WatchedReader, WatchedWriter, end};
use std::alloc::Global;
use std::io::{Read, Write};
use std::mem;
use std::process::ExitCode;

impl Program for Numbers {
    ghost use Rattle.trie_tool.specs.Request.{Replies, IsBad, GivesUp, IsRemarkOf, bad_unanswered};

    ghost replies = { Replies };

    ghost is_bad = { IsBad };

    ghost gives_up = { GivesUp };

    ghost says = { IsRemarkOf };

    fn answer(&mut self, line: &[u8], answers: &mut Vec<u8>) -> Result<(), Refusal> {
        let Some(command) = parse(line) else {
            return Err(Refusal::Bad(""));
        };
        answer(answers, self, command).map_err(|_| Refusal::Memory)
    }

    ghost bad_is_unanswered = { bad_unanswered };
}

/// Answers every line that the reader gives, up to its end or the first bad line.
///
/// The answers to the lines that one read brought are written before the next read, before a fault
/// is answered, and whenever more than 64 KiB of them wait. An interrupted read is a fault, and so
/// is an input that hasn't ended after `u64::MAX` reads. Else `Read` and `Write` are answered only
/// after a call that failed.
pub fn serve<R: Read, W: Write>(
    alloc: Global,
    reader: &mut WatchedReader<R>,
    writer: &mut WatchedWriter<W>,
) -> Result<(), ToolError>
    ensures served { ServedNumbers reader.old.unread reader.new.unread writer.old.held
        writer.new.held result }
    ensures noted { Noted reader.old reader.new writer.old writer.new result }
{
    let mut numbers = Numbers::new(alloc);
    let outcome = line_sessions::serve(alloc, &mut numbers, reader, writer);
    // The program ends now, and its memory with it: the trie isn't taken apart node by node before.
    mem::forget(numbers);
    outcome
}

/// The whole program: a session that begins with no text, and then the line on standard error that
/// tells its fault, where there is one. Gives the status to exit with.
pub fn answer_all<R: Read, W: Write, E: Write>(
    alloc: Global,
    reader: &mut WatchedReader<R>,
    writer: &mut WatchedWriter<W>,
    errors: &mut WatchedWriter<E>,
) -> ExitCode
    ensures { Ran Replies IsBad GivesUp IsRemarkOf reader.old reader.new
        writer.old writer.new errors.old errors.new map.empty (exit_status result) }
{
    let outcome = serve(alloc, reader, writer);
    end(outcome, "", errors)
}

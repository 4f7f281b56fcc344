//! A session over a reader and a writer.
ghost use Rattle.std.specs.Prelude.{◌≡◌, [], IfOk, vec_len};
ghost use Rattle.std.specs.Process.{exit_status};
ghost use Rattle.line_sessions.specs.Answers.{IsToldBad};
ghost use Rattle.line_sessions.specs.Sessions.{Ran, Served};
ghost use Rattle.line_sessions.specs.Watched.{Noted};

use crate::fault::{Fault, end};
use crate::program::Program;
use crate::session::Session;
use crate::watched::{WatchedReader, WatchedWriter};
use std::alloc::{AllocError, Global};
use std::io::{Read, Write};
use std::mem;
use std::process::ExitCode;

// How many bytes a read may bring.
const CHUNK: usize = 64 * 1024;

fn zeros(alloc: Global, count: usize) -> Result<Vec<u8>, AllocError>
    ensures { IfOk result (λ buffer. vec_len buffer ≡ count) }
{
    vec![in alloc; 0u8; count]
}

/// What `serve` does, with a session that begins.
fn drive<P: Program, R: Read, W: Write>(
    alloc: Global,
    session: &mut Session,
    program: &mut P,
    reader: &mut WatchedReader<R>,
    writer: &mut WatchedWriter<W>,
) -> Result<(), Fault>
    requires line { session.old.open_line.items ≡ [] }
    requires answers { session.old.conversation.answers.items ≡ [] }
    requires count { session.old.conversation.count ≡ 0 }
    ensures served { Served P.replies
        (IsToldBad P.is_bad P.says session.new.conversation.remark.now) P.gives_up
        reader.old.unread reader.new.unread
        writer.old.held writer.new.held
        program.old program.new result }
    ensures noted { Noted reader.old reader.new writer.old writer.new result }
{
    let Ok(mut room) = zeros(alloc, CHUNK) else {
        return Err(Fault::Memory);
    };
    let buffer = room.as_mut_slice();
    for _turn in 0..u64::MAX {
        match reader.read(buffer, writer) {
            Err(_) => return Err(Fault::Read),
            Ok(0) => return session.finish(program, writer),
            Ok(count) => session.feed(program, &buffer[..count], writer)?,
        }
    }
    Err(Fault::Read)
}

/// Answers every line that the reader gives, up to its end or the first bad line.
///
/// The answers to the lines that one read brought are written before the next read, before a fault
/// is answered, and whenever more than 64 KiB of them wait. An interrupted read is a fault, and so
/// is an input that hasn't ended after `u64::MAX` reads. Else `Read` and `Write` are answered only
/// after a call that failed.
pub fn serve<P: Program, R: Read, W: Write>(
    alloc: Global,
    program: &mut P,
    reader: &mut WatchedReader<R>,
    writer: &mut WatchedWriter<W>,
) -> Result<(), Fault>
    ensures served { Served P.replies P.is_bad P.gives_up
        reader.old.unread reader.new.unread
        writer.old.held writer.new.held
        program.old program.new result }
    ensures noted { Noted reader.old reader.new writer.old writer.new result }
{
    let mut session = Session::new(alloc);
    drive(alloc, &mut session, program, reader, writer)
}

/// A whole run of a program: a session, and then the line on standard error that tells its fault,
/// where there is one. Gives the status to exit with. The program's memory is left to the system.
///
/// # Examples
///
/// ```
/// let strict = Strict {
///     files,
///     table: Table::new(alloc),
/// };
/// run(alloc, strict, reader, writer, errors)
/// ```
///
/// `answer_all` in `crates/route_tool/src/engine.rt` runs a program of routes.
pub fn run<P: Program, R: Read, W: Write, E: Write>(
    alloc: Global,
    program: P,
    reader: &mut WatchedReader<R>,
    writer: &mut WatchedWriter<W>,
    errors: &mut WatchedWriter<E>,
) -> ExitCode
    ensures { Ran P.replies P.is_bad P.gives_up P.says reader.old reader.new
        writer.old writer.new errors.old errors.new program (exit_status result) }
{
    let mut program = program;
    let mut session = Session::new(alloc);
    let outcome = drive(alloc, &mut session, &mut program, reader, writer);
    mem::forget(program);
    end(outcome, session.remark(), errors)
}

//! A reader that asks for lines at a terminal.
ghost use Rattle.std.specs.Prelude.{◌≤◌, IfOk, IfSome, length};

use std::io;
use std::io::{ErrorKind, Read, Write};

/// How many bytes of a line a terminal keeps: it drops all behind them but the line feed.
const KEPT: usize = 4_095;

/// Where the next read goes on: before the first line, at a line's beginning, or in one that was
/// handed on so far, or in one that is cut.
#[derive(Clone, Copy, PartialEq)]
enum Place {
    Start,
    Beginning,
    Within,
    Cut,
}

/// What a program tells at a terminal, each a whole line.
#[derive(Clone, Copy)]
pub struct Notices {
    /// Before the first line is asked for.
    pub greeting: &'static str,
    /// Of a line of 4,095 bytes or more, which the terminal has cut.
    pub cut: &'static str,
}

/// A reader at a terminal, which gives a line at most to each read. It writes a prompt before each
/// one, and reads again where the terminal has cut a line, which is told of. A line `quit` or
/// `exit` is the end of what is read.
#[derive(Drop)]
pub struct Prompting<R: Read, P: Write> {
    reader: R,
    prompts: P,
    notices: Notices,
    place: Place,
}

/// Whether the bytes begin with as many of one line as a terminal keeps.
fn is_cut(bytes: &[u8]) -> bool {
    match bytes.get(..KEPT) {
        Some(kept) => !kept.contains(&b'\n'),
        None => false,
    }
}

/// Whether the bytes are a line that ends the session.
fn is_last(bytes: &[u8]) -> bool {
    matches!(bytes, b"quit\n" | b"exit\n")
}

impl<R: Read, P: Write> Prompting<R, P> {
    /// The reader, not read yet, the writer for prompts, and what is told there.
    pub fn new(reader: R, prompts: P, notices: Notices) -> Prompting<R, P> {
        Prompting {
            reader,
            prompts,
            notices,
            place: Place::Start,
        }
    }

    /// Writes to the terminal. Whether that succeeds changes nothing that is read.
    fn tell(&mut self, text: &str) {
        let _told = self.prompts.write_all(text.as_bytes());
    }

    /// Reads once. None: what came is of a line that is cut, and isn't handed on. If the beginning
    /// of the line was, which Ctrl-D parts from the rest, it becomes a bad line.
    fn read_once(&mut self, buffer: &mut [u8]) -> io::Result<Option<usize>>
        ensures bound { IfOk result (λ found. IfSome found (λ count. count ≤ length buffer.new)) }
    {
        let before = self.place;
        if before == Place::Start {
            self.tell(self.notices.greeting);
        }
        self.tell("> ");
        let count = self.reader.read(buffer)?;
        let bytes = buffer.get(..count).unwrap_or(&[]);
        if is_last(bytes) && before != Place::Within && before != Place::Cut {
            return Ok(Some(0));
        }
        let is_dropped = before == Place::Cut || is_cut(bytes);
        self.place = match bytes {
            [] | [.., b'\n'] => Place::Beginning,
            _ if is_dropped => Place::Cut,
            _ => Place::Within,
        };
        if bytes.is_empty() {
            self.tell("\n");
            return Ok(Some(0));
        }
        if !is_dropped {
            return Ok(Some(count));
        }
        if before != Place::Cut {
            self.tell(self.notices.cut);
        }
        Ok(if before == Place::Within {
            spoilt(buffer)
        } else {
            None
        })
    }
}

/// Ends a line as one that isn't UTF-8.
fn spoilt(buffer: &mut [u8]) -> Option<usize>
    ensures { IfSome result (λ count. count ≤ length buffer.new) }
{
    let [first, second, ..] = buffer else {
        return None;
    };
    *first = 0xff;
    *second = b'\n';
    Some(2)
}

impl<R: Read, P: Write> Read for Prompting<R, P> {
    fn read(&mut self, buffer: &mut [u8]) -> io::Result<usize> {
        for _ in 0..u64::MAX {
            if let Some(count) = self.read_once(buffer)? {
                return Ok(count);
            }
        }
        Err(ErrorKind::TimedOut.into())
    }
}

//! A reader whose interrupted reads are made again.
ghost use Rattle.std.specs.Prelude.{◌≡◌, ◌≢◌, IfErr};
ghost use Rattle.std.specs.Io.{ReadsAtMost};
ghost use Rattle.std.specs.Io.KnownBytes.{ReadConsumes};
ghost use Rattle.std.specs.IoError.{error_kind};

use std::io;
use std::io::{ErrorKind, Read};
use std::marker::Model;

/// A reader that is read again where a signal interrupted a read, up to `u64::MAX` times; a read
/// that fails otherwise ends it. A contract sees the bytes that are still to be read, where they
/// are known.
#[derive(Drop)]
pub struct Patient<R: Read> {
    reader: R,
}

impl<R: Read> Model for Patient<R> {
    ghost use Rattle.std.specs.Prelude.{ℕ, List, Option};

    ghost Value = { Option (List ℕ) };

    ghost view = { λ p. R.remaining p.reader };
}

impl<R: Read> Patient<R> {
    /// The reader, not read yet.
    pub fn new(reader: R) -> Patient<R>
        ensures { result ≡ R.remaining reader }
    {
        Patient { reader }
    }
}

impl<R: Read> Read for Patient<R> {
    ghost remaining = { λ unread. unread };

    fn read(&mut self, buffer: &mut [u8]) -> io::Result<usize>
        ensures bound { ReadsAtMost result buffer.new }
        ensures bytes { ReadConsumes self.old self.new result buffer.new }
        ensures retried { IfErr result (λ fault. error_kind fault ≢ ErrorKind.Interrupted) }
    {
        for _again in 0..u64::MAX {
            match self.reader.read(buffer) {
                Ok(count) => return Ok(count),
                Err(fault) => {
                    if fault.kind() != ErrorKind::Interrupted {
                        return Err(fault);
                    }
                }
            }
        }
        Err(ErrorKind::TimedOut.into())
    }
}

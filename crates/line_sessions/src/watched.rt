//! A reader and a writer that note their calls, and whether one of these has failed.
ghost use Rattle.std.specs.Prelude.{◌≡◌, [], ◌∷◌, ◌++◌, ◌+◌, ◌-◌, ◌^◌, ◌||◌, ℕ, min, take, is_err, IfErr, IsFalse, OnOk};
ghost use Rattle.std.specs.Io.{ReadsAtMost, WritesAtMost};
ghost use Rattle.std.specs.Io.KnownBytes.{Appends, ReadConsumes, WriteAppends};
ghost use Rattle.line_sessions.specs.Faults.{took_none};
ghost use Rattle.line_sessions.specs.Watched.{Puts};

use crate::fault::Fault;
use std::io;
use std::io::{Read, Write};
use std::marker::Model;

/// A reader, how often it was read, how often had been written before it was last read, and whether
/// a read has failed. No other code can set these notes.
///
/// # Examples
///
/// ```
/// let mut reader = WatchedReader::new(rt.reader());
/// let mut writer = WatchedWriter::new(io::writer(&rt));
/// let mut errors = WatchedWriter::new(rt.stderr());
/// answer_all(rt.alloc(), &mut reader, &mut writer, &mut errors)
/// ```
///
/// `main` in `crates/trie_tool/src/main.rt` answers what the standard input gives.
#[derive(Drop)]
pub struct WatchedReader<R: Read> {
    reader: R,
    reads: u64,
    writes_before: u64,
    has_failed: bool,
}

impl<R: Read> Model for WatchedReader<R> {
    ghost use Rattle.line_sessions.specs.Watched.{ReaderState};

    ghost Value = { ReaderState };

    ghost view = { λ w. record {
      unread = R.remaining w.reader;
      reads = w.reads;
      writes_before = w.writes_before;
      has_failed = w.has_failed;
    } };
}

impl<R: Read> WatchedReader<R> {
    /// The reader, not read yet.
    pub fn new(reader: R) -> WatchedReader<R>
        ensures reader { result.unread ≡ R.remaining reader }
        ensures unread { result.reads ≡ 0 }
        ensures unwritten { result.writes_before ≡ 0 }
        ensures good { IsFalse result.has_failed }
    {
        WatchedReader {
            reader,
            reads: 0,
            writes_before: 0,
            has_failed: false,
        }
    }

    /// Reads once, and notes how often the writer was written. The counts stay at `u64::MAX`.
    pub fn read<W: Write>(
        &mut self,
        buffer: &mut [u8],
        writer: &WatchedWriter<W>,
    ) -> io::Result<usize>
        ensures bound { ReadsAtMost result buffer.new }
        ensures bytes { ReadConsumes self.old.unread self.new.unread
            result buffer.new }
        ensures counted { self.new.reads ≡ min (self.old.reads + 1) (2 ^ 64 - 1) }
        ensures order { self.new.writes_before ≡ writer.now.writes }
        ensures noted { self.new.has_failed ≡ (self.old.has_failed || is_err result) }
    {
        self.writes_before = writer.writes;
        let outcome = self.reader.read(buffer);
        self.reads = self.reads.saturating_add(1);
        self.has_failed = self.has_failed || outcome.is_err();
        outcome
    }
}

/// A writer, how often it was written, and whether a write has failed or took none of its bytes. No
/// other code can set these notes.
#[derive(Drop)]
pub struct WatchedWriter<W: Write> {
    writer: W,
    writes: u64,
    has_failed: bool,
}

impl<W: Write> Model for WatchedWriter<W> {
    ghost use Rattle.line_sessions.specs.Watched.{WriterState};

    ghost Value = { WriterState };

    ghost view = { λ w. record {
      held = W.contents w.writer;
      writes = w.writes;
      has_failed = w.has_failed;
    } };
}

impl<W: Write> WatchedWriter<W> {
    /// The writer, not written yet.
    pub fn new(writer: W) -> WatchedWriter<W>
        ensures writer { result.held ≡ W.contents writer }
        ensures unwritten { result.writes ≡ 0 }
        ensures good { IsFalse result.has_failed }
    {
        WatchedWriter {
            writer,
            writes: 0,
            has_failed: false,
        }
    }

    /// Writes once. The count of writes stays at `u64::MAX`.
    pub fn write(&mut self, buffer: &[u8]) -> io::Result<usize>
        ensures bound { WritesAtMost result buffer.now }
        ensures bytes { WriteAppends self.old.held self.new.held
            result buffer.now }
        ensures counted { self.new.writes ≡ min (self.old.writes + 1) (2 ^ 64 - 1) }
        ensures noted { self.new.has_failed
            ≡ (self.old.has_failed || took_none buffer.now result) }
    {
        let outcome = self.writer.write(buffer);
        self.writes = self.writes.saturating_add(1);
        self.has_failed = self.has_failed
            || match &outcome {
                Ok(count) => *count == 0 && !buffer.is_empty(),
                Err(_) => true,
            };
        outcome
    }

    /// Writes all of `bytes`. Any write that fails or takes no byte ends it.
    pub fn write_all(&mut self, bytes: &[u8]) -> Result<(), Fault>
        ensures all { OnOk result
            (Appends self.old.held self.new.held bytes.now) }
        ensures part { (count : ℕ) × Appends self.old.held
            self.new.held (take count bytes.now) }
        ensures fault { IfErr result (λ e. e ≡ Fault.Write) }
        ensures noted { self.new.has_failed ≡ (self.old.has_failed || is_err result) }
    {
        let mut written = 0;
        while written < bytes.len() {
            let (_, rest) = bytes.split_at(written);
            match self.write(rest) {
                Ok(0) | Err(_) => return Err(Fault::Write),
                Ok(count) => written += count,
            }
        }
        Ok(())
    }

    /// Writes all of `bytes` and a line feed. Any write that fails or takes no byte ends it.
    pub fn write_line(&mut self, bytes: &[u8]) -> Result<(), Fault>
        ensures { Puts result self.old self.new (bytes.now ++ 10 ∷ []) }
    {
        self.write_all(bytes)?;
        self.write_all(b"\n")
    }
}

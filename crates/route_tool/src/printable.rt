//! A writer for a terminal, to which no text is a command.
ghost use Rattle.std.specs.Prelude.{◌≤◌, length};

use std::io;
use std::io::Write;

/// A writer that writes `\x1b` for ESC, and so each other control character but line feeds and
/// tabs.
#[derive(Drop)]
pub struct Printable<W: Write> {
    writer: W,
    /// The byte before the next one.
    last: u8,
}

/// Whether a byte is a control character, or the second one of such a character, which U+0080 to
/// U+009F have behind 0xC2.
fn is_control(last: u8, byte: u8) -> bool {
    match byte {
        b'\n' | b'\t' => false,
        0x80..=0x9f => last == 0xc2,
        _ => byte.is_ascii_control(),
    }
}

/// A byte as it is told.
fn escape(byte: u8) -> [u8; 4] {
    let digit = |half: u8| if half < 10 {
        b'0' + half
    } else {
        b'a' - 10 + half
    };
    [b'\\', b'x', digit(byte >> 4), digit(byte & 15)]
}

impl<W: Write> Printable<W> {
    /// The writer, to which nothing has been written.
    pub fn new(writer: W) -> Printable<W> {
        Printable { writer, last: 0 }
    }

    /// How many bytes there are before the first that is escaped.
    fn plain_count(&self, bytes: &[u8]) -> usize
        ensures { result ≤ length bytes.now }
    {
        let mut last = self.last;
        for (i, byte) in bytes.iter().enumerate() {
            if is_control(last, *byte) {
                return i;
            }
            last = *byte;
        }
        bytes.len()
    }
}

impl<W: Write> Write for Printable<W> {
    fn write(&mut self, bytes: &[u8]) -> io::Result<usize> {
        let plain = self.plain_count(bytes);
        let count = if plain > 0 {
            self.writer.write(&bytes[..plain])?
        } else if let Some(first) = bytes.first() {
            self.writer.write_all(&escape(*first))?;
            1
        } else {
            0
        };
        if count > 0 {
            self.last = bytes[count - 1];
        }
        Ok(count)
    }

    fn flush(&mut self) -> io::Result<()> {
        self.writer.flush()
    }
}

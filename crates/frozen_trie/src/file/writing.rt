//! A file, written row by row.
ghost use Rattle.std.specs.Prelude.{◌≡◌, ◌<◌, ◌≤◌, ◌^◌, length, MatchOption, OnOk};
ghost use Rattle.std.specs.Io.{WritesAtMost};
ghost use Rattle.std.specs.Io.KnownBytes.{WriteAppends};
ghost use Rattle.nibble_map.specs.Lists.{Each};
ghost use Rattle.frozen_trie.specs.FileRows.{FitsRow, WritesInFull, counted_bytes, file_of_rows, head_of, row_of};

use crate::file::rows::Rows;
use crate::file::{MAGIC, VERSION};
use std::io;
use std::io::{Error, ErrorKind, Write};

/// Writes once. A write that is interrupted is made again.
fn write_again<W: Write>(out: &mut W, bytes: &[u8]) -> io::Result<usize>
    ensures bound { WritesAtMost result bytes.now }
    ensures bytes { WriteAppends (W.contents out.old) (W.contents out.new) result bytes.now }
{
    for _again in 0..u64::MAX {
        match out.write(bytes) {
            Ok(count) => return Ok(count),
            Err(fault) => {
                if fault.kind() != ErrorKind::Interrupted {
                    return Err(fault);
                }
            }
        }
    }
    Err(ErrorKind::TimedOut.into())
}

/// Writes some bytes. A write that takes none of them ends it.
fn write_bytes<W: Write>(out: &mut W, bytes: &[u8]) -> io::Result<()>
    ensures { WritesInFull result (W.contents out.old) (W.contents out.new) bytes.now }
{
    let mut written = 0;
    while written < bytes.len() {
        let (_, rest) = bytes.split_at(written);
        match write_again(out, rest) {
            Ok(0) => return Err(Error::from(ErrorKind::WriteZero)),
            Ok(count) => written += count,
            Err(fault) => return Err(fault),
        }
    }
    Ok(())
}

/// Writes what stands before the rows.
fn write_head<W: Write>(out: &mut W, count: u64) -> io::Result<()>
    ensures { WritesInFull result (W.contents out.old) (W.contents out.new) (head_of count) }
{
    write_bytes(out, &MAGIC)?;
    write_bytes(out, &VERSION.to_le_bytes())?;
    write_bytes(out, &count.to_le_bytes())
}

/// The count of bytes, or None where there are 2^32 or more.
fn count_of(bytes: &[u8]) -> Option<u32>
    ensures { MatchOption result (2 ^ 32 ≤ length bytes.now) (λ n. n ≡ length bytes.now) }
{
    u32::try_from(bytes.len()).ok()
}

/// Writes bytes behind their count. `InvalidInput` where there are 2^32 or more.
fn write_counted<W: Write>(out: &mut W, bytes: &[u8]) -> io::Result<()>
    ensures written { WritesInFull result (W.contents out.old) (W.contents out.new)
        (counted_bytes bytes.now) }
    ensures fits { OnOk result (length bytes.now < 2 ^ 32) }
{
    let Some(count) = count_of(bytes) else {
        return Err(Error::from(ErrorKind::InvalidInput));
    };
    write_bytes(out, &count.to_le_bytes())?;
    write_bytes(out, bytes)
}

/// Writes the row of a key's bytes and a value's.
fn write_row<W: Write>(out: &mut W, key: &[u8], value: &[u8]) -> io::Result<()>
    ensures written { WritesInFull result (W.contents out.old) (W.contents out.new)
        (row_of (key.now, value.now)) }
    ensures fits { OnOk result (FitsRow (key.now, value.now)) }
{
    write_counted(out, key)?;
    write_counted(out, value)
}

/// Writes a whole file.
pub(super) fn write_all<W: Write, M: Rows>(out: &mut W, map: &M) -> io::Result<()>
    ensures written { WritesInFull result (W.contents out.old) (W.contents out.new)
        (file_of_rows (M.rows map.now)) }
    ensures fits { OnOk result (Each FitsRow (M.rows map.now)) }
    ensures few { length (M.rows map.now) < 2 ^ 64 }
    ensures items { OnOk result (M.are_items map.now (length (M.rows map.now))) }
{
    let count = map.count();
    let mut key = Vec::new(map.alloc());
    let mut value = Vec::new(map.alloc());
    write_head(out, count as u64)?;
    for at in 0..count {
        let Ok(()) = map.put_row(at, &mut key, &mut value) else {
            return Err(Error::from(ErrorKind::OutOfMemory));
        };
        write_row(out, &key, &value)?;
    }
    Ok(())
}

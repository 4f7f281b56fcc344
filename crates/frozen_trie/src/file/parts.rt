//! Bytes of a file, read.
ghost use Rattle.std.specs.Prelude.{◌≡◌, ◌≢◌, ◌<◌, ◌≤◌, ◌^◌, ◌++◌, ℕ, List, length, IfErr, IfOk, OnOk};
ghost use Rattle.std.specs.Int.{w16, w32, w64, to_le_bytes};
ghost use Rattle.std.specs.Io.{ReadsAtMost};
ghost use Rattle.std.specs.Io.KnownBytes.{Consumes, IsAtEnd, Keeps, ReadConsumes};
ghost use Rattle.std.specs.IoError.{error_kind};
ghost use Rattle.frozen_trie.specs.FileRows.{IsEndFault, IsPartFault, IsReaderFault};

use crate::file::FileWhy;
use std::io;
use std::io::{ErrorKind, Read};

/// How many bytes of a key or a value are read at once.
const MOST: usize = 512;

/// Reads once. A read that is interrupted is made again.
fn read_again<R: Read>(input: &mut R, buffer: &mut [u8]) -> io::Result<usize>
    ensures bound { ReadsAtMost result buffer.new }
    ensures bytes { ReadConsumes (R.remaining input.old) (R.remaining input.new) result buffer.new }
    ensures retried { IfErr result (λ fault. error_kind fault ≢ ErrorKind.Interrupted) }
{
    for _again in 0..u64::MAX {
        match input.read(buffer) {
            Ok(count) => return Ok(count),
            Err(fault) => {
                if fault.kind() != ErrorKind::Interrupted {
                    return Err(fault);
                }
            }
        }
    }
    Err(ErrorKind::TimedOut.into())
}

/// Fills a buffer.
pub(super) fn fill<R: Read>(input: &mut R, buffer: &mut [u8]) -> Result<(), FileWhy>
    ensures bytes { OnOk result
        (Consumes (R.remaining input.old) (R.remaining input.new) buffer.new) }
    ensures fault { IfErr result
        (λ why. IsReaderFault why (R.remaining input.old) (length buffer.old)) }
{
    let mut filled = 0;
    while filled < buffer.len() {
        match read_again(input, &mut buffer[filled..]) {
            Ok(0) => return Err(FileWhy::Short),
            Ok(count) => filled += count,
            Err(_) => return Err(FileWhy::Read),
        }
    }
    Ok(())
}

/// A number of 4 bytes.
pub(super) fn read_u32<R: Read>(input: &mut R) -> Result<u32, FileWhy>
    ensures bytes { IfOk result
        (λ n. Consumes (R.remaining input.old) (R.remaining input.new) (to_le_bytes w32 n)) }
    ensures fits { IfOk result (λ n. n < 2 ^ 32) }
    ensures fault { IfErr result (λ why. IsReaderFault why (R.remaining input.old) 4) }
{
    let mut bytes = [0; 4];
    fill(input, &mut bytes)?;
    Ok(u32_of(bytes))
}

/// A number of 8 bytes.
pub(super) fn read_u64<R: Read>(input: &mut R) -> Result<u64, FileWhy>
    ensures bytes { IfOk result
        (λ n. Consumes (R.remaining input.old) (R.remaining input.new) (to_le_bytes w64 n)) }
    ensures fits { IfOk result (λ n. n < 2 ^ 64) }
    ensures fault { IfErr result (λ why. IsReaderFault why (R.remaining input.old) 8) }
{
    let mut bytes = [0; 8];
    fill(input, &mut bytes)?;
    Ok(u64_of(bytes))
}

/// The number whose bytes these are, the low ones first.
pub(super) fn u16_of(bytes: [u8; 2]) -> u16
    ensures { to_le_bytes w16 result ≡ bytes }
{
    u16::from_le_bytes(bytes)
}

/// The number whose bytes these are, the low ones first.
pub(super) fn u32_of(bytes: [u8; 4]) -> u32
    ensures { to_le_bytes w32 result ≡ bytes }
{
    u32::from_le_bytes(bytes)
}

/// The number whose bytes these are, the low ones first.
pub(super) fn u64_of(bytes: [u8; 8]) -> u64
    ensures { to_le_bytes w64 result ≡ bytes }
{
    u64::from_le_bytes(bytes)
}

/// Reads so many bytes in the place of those that `into` holds. Memory is asked for as they come.
pub(super) fn read_bytes<R: Read>(
    input: &mut R,
    count: u32,
    into: &mut Vec<u8>,
) -> Result<(), FileWhy>
    ensures bytes { OnOk result
        (Consumes (R.remaining input.old) (R.remaining input.new) into.new.items) }
    ensures count { OnOk result (length into.new.items ≡ count) }
    ensures fault { IfErr result (λ why. IsPartFault why (R.remaining input.old) count) }
{
    let count = count as usize;
    into.clear();
    while into.len() < count {
        let left = count - into.len();
        read_part(input, left.min(MOST), into)?;
    }
    Ok(())
}

/// Reads so many bytes behind those that `into` holds.
fn read_part<R: Read>(input: &mut R, count: usize, into: &mut Vec<u8>) -> Result<(), FileWhy>
    requires { count ≤ MOST }
    ensures bytes { OnOk result ((bytes : List ℕ)
        × Consumes (R.remaining input.old) (R.remaining input.new) bytes
        × (into.new.items ≡ into.old.items ++ bytes) × (length bytes ≡ count)) }
    ensures fault { IfErr result (λ why. IsPartFault why (R.remaining input.old) count) }
{
    let mut part = [0; MOST];
    fill(input, &mut part[..count])?;
    match into.extend_from_slice(&part[..count]) {
        Ok(()) => Ok(()),
        Err(_) => Err(FileWhy::Memory),
    }
}

/// Reads on, and finds the end.
pub(super) fn expect_end<R: Read>(input: &mut R) -> Result<(), FileWhy>
    ensures end { OnOk result (IsAtEnd (R.remaining input.new)) }
    ensures kept { OnOk result (Keeps (R.remaining input.old) (R.remaining input.new)) }
    ensures fault { IfErr result (λ why. IsEndFault why (R.remaining input.old)) }
{
    let mut byte = [0; 1];
    match read_again(input, &mut byte) {
        Ok(0) => Ok(()),
        Ok(_) => Err(FileWhy::Long),
        Err(_) => Err(FileWhy::Read),
    }
}

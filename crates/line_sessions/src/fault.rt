//! Why a session stops before the end of its input, and how the program then ends.
ghost use Rattle.std.specs.Prelude.{◌≡◌, ◌++◌, ◌∷◌, [], decimal};
ghost use Rattle.std.specs.Process.{exit_status};
ghost use Rattle.line_sessions.specs.Faults.{exit_of, remark_of, status_of, text_with, told_of, words_of};
ghost use Rattle.line_sessions.specs.Watched.{Puts, Writes};

use crate::watched::WatchedWriter;
use itoa::Buffer;
use std::fmt;
use std::io::Write;
use std::process::ExitCode;

/// Why a session stopped before the end of its input.
#[derive(Clone, Copy, Debug, PartialEq, Eq)]
pub enum Fault {
    /// A read failed or was interrupted, or the input hadn't ended after `u64::MAX` reads.
    Read,
    /// A write failed, was interrupted, or took no byte.
    Write,
    /// The line of this number is bad. Lines are counted from 1, and the count stays at `u64::MAX`.
    BadLine(u64),
    /// An allocation failed, or the program is full.
    Memory,
}

impl fmt::Display for Fault {
    ghost use Rattle.std.specs.Prelude.{Some};
    ghost use Rattle.line_sessions.specs.Faults.{fault_text};

    ghost output = { λ fault. Some (fault_text fault) };

    fn fmt<W: fmt::Write>(&self, f: &mut fmt::Formatter<W>) -> fmt::Result {
        match self {
            Fault::BadLine(number) => write!(f, "bad line {number}"),
            _ => f.write_str(self.words()),
        }
    }
}

impl Fault {
    /// The program's exit status.
    pub fn status(self) -> u8
        ensures { result ≡ status_of self }
    {
        match self {
            Fault::Read | Fault::Write => 1,
            Fault::BadLine(_) => 2,
            Fault::Memory => 3,
        }
    }

    /// Its text, but for the number of a bad line.
    fn words(&self) -> &'static str
        ensures { result.now ≡ words_of self.now }
    {
        match self {
            Fault::Read => "read failed",
            Fault::Write => "write failed",
            Fault::BadLine(_) => "bad line ",
            Fault::Memory => "out of memory",
        }
    }

    /// Writes its text, the remark if it is a bad line, and a line feed.
    fn report<E: Write>(self, remark: &str, errors: &mut WatchedWriter<E>) -> Result<(), Fault>
        ensures { Puts result errors.old errors.new (text_with remark.now self ++ 10 ∷ []) }
    {
        let words = self.words().as_bytes();
        let Fault::BadLine(number) = self else {
            return errors.write_line(words);
        };
        errors.write_all(words)?;
        report_number(number, remark, errors)
    }
}

/// Writes the number of a bad line, the remark and a line feed.
fn report_number<E: Write>(
    number: u64,
    remark: &str,
    errors: &mut WatchedWriter<E>,
) -> Result<(), Fault>
    ensures { Puts result errors.old errors.new
        (decimal number ++ (remark_of remark.now ++ 10 ∷ [])) }
{
    errors.write_all(Buffer::new().format(number).as_bytes())?;
    report_remark(remark, errors)
}

/// Writes a colon, a space and the remark, where there is one, and a line feed.
fn report_remark<E: Write>(remark: &str, errors: &mut WatchedWriter<E>) -> Result<(), Fault>
    ensures { Puts result errors.old errors.new (remark_of remark.now ++ 10 ∷ []) }
{
    if remark.is_empty() {
        return errors.write_line(b"");
    }
    errors.write_all(b": ")?;
    errors.write_line(remark.as_bytes())
}

/// Tells a fault by one line, with a remark behind the number of a bad line. Gives the status to
/// exit with.
pub fn end<E: Write>(
    outcome: Result<(), Fault>,
    remark: &str,
    errors: &mut WatchedWriter<E>,
) -> ExitCode
    ensures status { exit_status result ≡ exit_of outcome }
    ensures told { Writes errors.old errors.new (told_of remark.now outcome) }
{
    match outcome {
        Ok(()) => ExitCode::SUCCESS,
        Err(fault) => {
            let _told = fault.report(remark, errors);
            ExitCode::from(fault.status())
        }
    }
}

//! What a failed call returns with the reason: the thing that it was passed.
use std::error::Error;
use std::fmt;

/// A failed call that returns what it was passed, so that nothing is lost, and why it failed.
///
/// Its message is that of the reason: what was passed may be of a type that writes nothing.
#[derive(Drop)]
pub struct Refused<W, T> {
    /// Why.
    pub why: W,
    /// What was passed.
    pub back: T,
}

impl<W: fmt::Display, T> fmt::Display for Refused<W, T> {
    ghost output = { λ refused. W.output refused.why };

    fn fmt<F: fmt::Write>(&self, f: &mut fmt::Formatter<F>) -> fmt::Result {
        fmt::Display::fmt(&self.why, f)
    }
}

/// As `Display`.
impl<W: fmt::Display, T> fmt::Debug for Refused<W, T> {
    ghost debug_output = { λ refused. W.output refused.why };

    fn fmt<F: fmt::Write>(&self, f: &mut fmt::Formatter<F>) -> fmt::Result {
        fmt::Display::fmt(self, f)
    }
}

impl<W: fmt::Display + Drop, T: Drop> Error for Refused<W, T> {}

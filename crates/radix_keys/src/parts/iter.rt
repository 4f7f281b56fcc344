//! The parts of a list, one after another.
ghost use Rattle.std.specs.Prelude.{◌≡◌, ◌↔◌, ◌==◌, Contains, IfOk, IfErr, IsErr};
ghost use Rattle.std.specs.Iterator.{YieldsFirstRef, YieldsLastRef, item_count};
ghost use Rattle.std.specs.List.{slice_split};
ghost use Rattle.radix_keys.specs.Parts.{AreParts, parts_of};

use crate::parts::PartsError;
use std::iter::FusedIterator;
use std::marker::Model;

/// A walk over parts, from either end. A contract sees it as the list of the parts that are left.
#[derive(Drop)]
pub struct PartsIter<'a> {
    rest: Option<&'a [u8]>,
    separator: u8,
}

impl<'a> Model for PartsIter<'a> {
    ghost use Rattle.std.specs.Prelude.{ℕ, List};
    ghost use Rattle.radix_keys.specs.Parts.{parts_left};

    ghost Value = { List (List ℕ) };

    ghost view = { λ walk. parts_left walk.separator walk.rest };
}

impl<'a> PartsIter<'a> {
    /// The text, cut at each separator; `Zero` where it has a byte 0.
    pub(super) fn of_text(text: &'a str, separator: u8) -> Result<PartsIter<'a>, PartsError>
        ensures ok { IfOk result (λ walk. walk ≡ slice_split (λ b. b == separator) text.now) }
        ensures parts { IfOk result AreParts }
        ensures zero { IsErr result ↔ Contains text.now 0 }
        ensures why { IfErr result (λ error. error ≡ PartsError.Zero) }
    {
        let bytes = text.as_bytes();
        if bytes.contains(&0) {
            return Err(PartsError::Zero);
        }
        Ok(PartsIter {
            rest: Some(bytes),
            separator,
        })
    }

    /// The parts whose bytes these are, with a 0 behind each.
    pub(super) fn of_kept(bytes: &'a [u8]) -> PartsIter<'a>
        ensures { result ≡ parts_of bytes.now }
    {
        match bytes {
            [] => PartsIter {
                rest: None,
                separator: 0,
            },
            [parts @ .., _end] => PartsIter {
                rest: Some(parts),
                separator: 0,
            },
        }
    }
}

impl<'a> Iterator for PartsIter<'a> {
    type Item = &'a [u8];

    ghost next_gives = { YieldsFirstRef (λ walk. walk) };

    ghost remaining = { item_count (λ walk. walk) };

    fn next(&mut self) -> Option<&'a [u8]> {
        let rest = self.rest?;
        let separator = self.separator;
        match rest.iter().position(|byte| *byte == separator) {
            Some(end) => {
                self.rest = Some(&rest[end + 1..]);
                Some(&rest[..end])
            }
            None => {
                self.rest = None;
                Some(rest)
            }
        }
    }
}

impl<'a> DoubleEndedIterator for PartsIter<'a> {
    ghost next_back_gives = { YieldsLastRef (λ walk. walk) };

    fn next_back(&mut self) -> Option<&'a [u8]> {
        let rest = self.rest?;
        let separator = self.separator;
        match rest.iter().rposition(|byte| *byte == separator) {
            Some(before) => {
                self.rest = Some(&rest[..before]);
                Some(&rest[before + 1..])
            }
            None => {
                self.rest = None;
                Some(rest)
            }
        }
    }
}

impl<'a> FusedIterator for PartsIter<'a> {}

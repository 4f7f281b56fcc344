//! Lists of parts as keys, such as the labels of a host name or the names of folders: a prefix of
//! such a key ends where a part ends.
ghost use Rattle.std.specs.Prelude.{◌≡◌, ◌↔◌, ◌==◌, [], ◌∷◌, ◌++◌, length, not, filter, reverse, Contains, IfOk, OnOk, OnErr};
ghost use Rattle.std.specs.List.{slice_split};
ghost use Rattle.radix_keys.specs.Parts.{IsPart};

use crate::nibbles::Memory;
use std::alloc::{AllocError, Global};
use std::marker::Model;

mod iter;
mod key;
mod order;
mod text;

pub use iter::PartsIter;

/// Why a part isn't added, or a text has no list of parts.
#[derive(Clone, Copy, PartialEq, Eq, Debug)]
pub enum PartsError {
    /// An allocation failed.
    Memory,
    /// A byte is 0, which ends a part.
    Zero,
}

impl From<Memory> for PartsError {
    ghost use Rattle.std.specs.Prelude.{◌≡◌};
    ghost use Rattle.radix_keys.specs.declared.parts.PartsError.TheVariants as Why;

    ghost from_gives = { λ _ error. error ≡ Why.Memory };

    fn from(_refused: Memory) -> PartsError {
        PartsError::Memory
    }
}

/// A list of parts, each of any bytes but 0. Its prefixes are the lists that it begins with, part
/// by part: `home` is a prefix of `home`, `ann`, and not of `homer`.
///
/// It is stored as the bytes of the parts, one after another, with a 0 behind each.
///
/// # Examples
///
/// ```
/// # use nifazombi::{radix_trie::Trie, rattle_std::alloc::Global};
/// use nifazombi::radix_keys::Parts;
///
/// let mut sizes: Trie<Parts, u64> = Trie::new(Global);
/// sizes.insert(Parts::of_path(Global, "/home/ann", b'/')?, 7)?;
/// assert_eq!(sizes.count_below(&Parts::of_path(Global, "/home", b'/')?)?, 1);
/// assert_eq!(sizes.count_below(&Parts::of_path(Global, "/ho", b'/')?)?, 0);
/// # Ok::<(), Box<dyn std::error::Error>>(())
/// ```
#[derive(Drop)]
pub struct Parts {
    bytes: Vec<u8>,
}

impl Model for Parts {
    ghost use Rattle.std.specs.Prelude.{ℕ, List};
    ghost use Rattle.radix_keys.specs.Parts.{parts_of, ArePartBytes};

    ghost Value = { List (List ℕ) };

    ghost view = { λ s. parts_of s.bytes.items };

    ghost invariant = { λ s. ArePartBytes s.bytes.items };
}

impl Parts {
    /// The empty list. It allocates nothing.
    pub fn new(alloc: Global) -> Parts
        ensures { result ≡ [] }
    {
        Parts {
            bytes: Vec::new(alloc),
        }
    }

    /// The parts of the text between separators, as `str::split` gives them: one more than there
    /// are separators, and empty ones too. It reads each byte three times.
    ///
    /// # Errors
    ///
    /// Decided in this order. `Zero`: the text has a byte 0. `Memory`: an allocation fails.
    ///
    /// # Examples
    ///
    /// ```
    /// # use nifazombi::topic_filters::{is_filter, is_topic};
    /// # use nifazombi::{radix_keys::Parts, rattle_std::alloc::Global};
    /// let filter = Parts::split(Global, "sport/+/score", b'/')?;
    /// let topic = Parts::split(Global, "sport/chess/score", b'/')?;
    /// assert!(is_filter(&filter) && !is_topic(&filter));
    /// assert!(is_filter(&topic) && is_topic(&topic));
    /// # Ok::<(), Box<dyn std::error::Error>>(())
    /// ```
    pub fn split(alloc: Global, text: &str, separator: u8) -> Result<Parts, PartsError>
        ensures ok { IfOk result (λ parts. parts ≡ slice_split (λ b. b == separator) text.now) }
        ensures zero { (result ≡ Err PartsError.Zero) ↔ Contains text.now 0 }
    {
        let mut parts = Parts::new(alloc);
        for part in PartsIter::of_text(text, separator)? {
            parts.append(part)?;
        }
        Ok(parts)
    }

    /// The parts of the text between separators that aren't empty: of `/home/ann/` at `/` they are
    /// `home` and `ann`, and of `/` there is none. It costs what `split` does.
    ///
    /// # Errors
    ///
    /// Decided in this order. `Zero`: the text has a byte 0. `Memory`: an allocation fails.
    pub fn of_path(alloc: Global, text: &str, separator: u8) -> Result<Parts, PartsError>
        ensures ok { IfOk result (λ parts.
            parts ≡ filter (λ part. not (length part == 0)) (slice_split (λ b. b == separator) text.now)) }
        ensures zero { (result ≡ Err PartsError.Zero) ↔ Contains text.now 0 }
    {
        let mut parts = Parts::new(alloc);
        for name in PartsIter::of_text(text, separator)? {
            if name.is_empty() {
                continue;
            }
            parts.append(name)?;
        }
        Ok(parts)
    }

    /// The parts of the text between separators, as `split` gives them, the last of them first: of
    /// `www.example.org` at `.` they are `org`, `example` and `www`. It costs what `split` does.
    ///
    /// # Errors
    ///
    /// Decided in this order. `Zero`: the text has a byte 0. `Memory`: an allocation fails.
    ///
    /// # Examples
    ///
    /// ```
    /// # use nifazombi::{radix_keys::Parts, rattle_std::alloc::Global};
    /// let labels = Parts::reversed(Global, "www.anna.north", b'.')?;
    /// assert!(labels == Parts::split(Global, "north.anna.www", b'.')?);
    /// # Ok::<(), Box<dyn std::error::Error>>(())
    /// ```
    ///
    /// `suffix` in `crates/trie_examples/src/suffixes.rt` proves that it gives an end of a host.
    pub fn reversed(alloc: Global, text: &str, separator: u8) -> Result<Parts, PartsError>
        ensures ok { IfOk result (λ parts.
            parts ≡ reverse (slice_split (λ b. b == separator) text.now)) }
        ensures zero { (result ≡ Err PartsError.Zero) ↔ Contains text.now 0 }
    {
        let mut parts = Parts::new(alloc);
        for label in PartsIter::of_text(text, separator)?.rev() {
            parts.append(label)?;
        }
        Ok(parts)
    }

    /// Adds a part at the end, in the time of its bytes.
    ///
    /// # Errors
    ///
    /// Decided in this order. `Zero`: the part has a byte 0. `Memory`: an allocation fails. On
    /// failure the list is as before.
    pub fn push(&mut self, part: &str) -> Result<(), PartsError>
        ensures ok { OnOk result (self.new ≡ self.old ++ part.now ∷ []) }
        ensures zero { (result ≡ Err PartsError.Zero) ↔ Contains part.now 0 }
        ensures err { OnErr result (self.new ≡ self.old) }
    {
        self.push_bytes(part.as_bytes())
    }

    /// Adds a part of any bytes but 0 at the end, in the time of these.
    ///
    /// # Errors
    ///
    /// Decided in this order. `Zero`: a byte is 0. `Memory`: an allocation fails. On failure the
    /// list is as before.
    pub fn push_bytes(&mut self, part: &[u8]) -> Result<(), PartsError>
        ensures ok { OnOk result (self.new ≡ self.old ++ part.now ∷ []) }
        ensures zero { (result ≡ Err PartsError.Zero) ↔ Contains part.now 0 }
        ensures err { OnErr result (self.new ≡ self.old) }
    {
        if part.contains(&0) {
            return Err(PartsError::Zero);
        }
        Ok(self.append(part)?)
    }

    /// Adds a part that has no byte 0.
    fn append(&mut self, part: &[u8]) -> Result<(), Memory>
        requires { IsPart part.now }
        ensures ok { OnOk result (self.new ≡ self.old ++ part.now ∷ []) }
        ensures err { OnErr result (self.new ≡ self.old) }
    {
        let before = self.bytes.len();
        self.bytes.extend_from_slice(part)?;
        if self.bytes.push(0).is_err() {
            self.bytes.truncate(before);
            return Err(Memory);
        }
        Ok(())
    }

    /// How many parts there are. It reads each byte.
    pub fn len(&self) -> usize
        ensures { result ≡ length self.now }
    {
        self.bytes.iter().filter(|byte| **byte == 0).count()
    }

    /// Whether there is no part.
    pub fn is_empty(&self) -> bool
        ensures { result ≡ (length self.now == 0) }
    {
        self.bytes.is_empty()
    }

    /// The parts, from the first to the last, or from the back. It allocates nothing, and a step
    /// reads the part that it returns.
    pub fn iter(&self) -> PartsIter<'_>
        ensures { result ≡ self.now }
    {
        PartsIter::of_kept(self.bytes.as_slice())
    }
}

/// The same list, in memory of its own.
impl Clone for Parts {
    ghost is_clone = { λ parts copy. copy ≡ parts };

    ghost is_infallible = { λ _. ⊥ };

    fn clone(&self) -> Result<Parts, AllocError> {
        match self.bytes.clone() {
            Ok(bytes) => Ok(Parts { bytes }),
            Err(refused) => Err(refused),
        }
    }
}

//! Why a call fails.
ghost use Rattle.std.specs.Prelude.{◌≡◌};

use crate::trie::Trie;
use radix_keys::{Memory, TrieKey};
use std::alloc::AllocError;
use std::vec::IntoIter;

mod text;
mod whole;

pub use whole::TrieError;

/// Why an insertion failed.
#[derive(Clone, Copy, PartialEq, Eq, Debug)]
pub enum InsertWhy {
    /// An allocation failed, or a count of nibbles would exceed `usize::MAX`.
    Memory,
    /// The trie holds `usize::MAX` pairs, and the key isn't among them.
    Full,
    /// The view's path isn't a prefix of the key's encoding.
    Outside,
}

/// A failed insertion: why, and the key and value that were passed.
#[derive(Drop)]
pub struct InsertError<K, V> {
    pub why: InsertWhy,
    pub key: K,
    pub value: V,
}

/// Why a pair wasn't stored where none is to be replaced.
#[derive(Clone, Copy, PartialEq, Eq, Debug)]
pub enum TryInsertWhy {
    /// An allocation failed, or a count of nibbles would exceed `usize::MAX`.
    Memory,
    /// The trie holds `usize::MAX` pairs.
    Full,
    /// A pair is stored at the key's encoding.
    Occupied,
}

/// Why a trie wasn't grafted.
#[derive(Clone, Copy, PartialEq, Eq, Debug)]
pub enum GraftWhy {
    /// An allocation failed.
    Memory,
    /// The pairs of both tries are more than `usize::MAX`.
    Full,
    /// A point stands at or below the longest list that all of the other trie's encodings begin
    /// with.
    Overlapping,
}

/// A failed `merge`.
#[derive(Drop)]
pub enum MergeError<K: TrieKey, V> {
    /// The allocation of the list of the other trie's pairs failed. Nothing has changed, and this
    /// is the other trie.
    Memory(Trie<K, V>),
    /// The insertion of a pair failed, for this reason. The pairs before it are stored, and those
    /// after it are the rest.
    Stopped(InsertError<K, V>, IntoIter<(K, V)>),
}

/// Why a trie wasn't built.
#[derive(Clone, Copy, PartialEq, Eq, Debug)]
pub enum BuildError {
    /// An allocation failed, or a count of nibbles would exceed `usize::MAX`.
    Memory,
    /// A key came beside as many others as may be stored: `usize::MAX` in a trie, 2^32 - 1 in a
    /// frozen table.
    Full,
}

/// Why no value is borrowed.
#[derive(Clone, Copy, PartialEq, Eq, Debug)]
pub enum FindError {
    /// An allocation failed.
    Memory,
    /// No value is stored at the key's encoding.
    Absent,
}

/// Why no view was opened.
#[derive(Clone, Copy, PartialEq, Eq, Debug)]
pub enum OpenError {
    /// An allocation failed.
    Memory,
    /// No point stands at the key's encoding.
    Closed,
}

/// Why a view returns no pair.
#[derive(Clone, Copy, PartialEq, Eq, Debug)]
pub enum SubTrieError {
    /// An allocation failed, or a count of nibbles would exceed `usize::MAX`.
    Memory,
    /// The view's path isn't a prefix of the key's encoding.
    Outside,
}

/// What a view returns for a key.
pub type SubTrieResult<T> = Result<Option<T>, SubTrieError>;

/// Why a trie isn't written as JSON, or a JSON value isn't read as a trie.
#[derive(Clone, Copy, PartialEq, Eq, Debug)]
pub enum JsonError {
    /// An allocation failed.
    Memory,
    /// The value is neither null nor an object.
    Kind,
    /// A float stands somewhere in a value.
    Float,
}

impl From<Memory> for SubTrieError {
    ghost use Rattle.radix_trie.specs.declared.error.SubTrieError.TheVariants.{Memory as memory};

    ghost from_gives = { λ _ e. e ≡ memory };

    fn from(_e: Memory) -> SubTrieError {
        SubTrieError::Memory
    }
}

impl From<Memory> for JsonError {
    ghost use Rattle.radix_trie.specs.declared.error.JsonError.TheVariants.{Memory as memory};

    ghost from_gives = { λ _ e. e ≡ memory };

    fn from(_e: Memory) -> JsonError {
        JsonError::Memory
    }
}

impl From<AllocError> for JsonError {
    ghost use Rattle.radix_trie.specs.declared.error.JsonError.TheVariants.{Memory as memory};

    ghost from_gives = { λ _ e. e ≡ memory };

    fn from(_e: AllocError) -> JsonError {
        JsonError::Memory
    }
}

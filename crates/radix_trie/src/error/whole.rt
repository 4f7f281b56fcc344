//! One error for all calls, so that `?` serves in a function that makes several.
ghost use Rattle.std.specs.Prelude.{◌≡◌};
ghost use Rattle.radix_trie.specs.declared.error.whole.TrieError.TheVariants.{Memory as memory};
ghost use Rattle.radix_trie.specs.Errors.{of_graft, of_build, of_bytes, of_find, of_insert, of_json, of_merge, of_open, of_parts, of_try_insert, of_view};

use crate::error::{
    BuildError, FindError, GraftWhy, InsertError, InsertWhy, JsonError, MergeError, OpenError,
    SubTrieError, TryInsertWhy,
};
use crate::trie::Trie;
use radix_keys::{BytesError, Memory, PartsError, Refused, TrieKey};
use std::alloc::AllocError;

/// Why a call failed, whichever call it was.
#[derive(Clone, Copy, PartialEq, Eq, Debug)]
pub enum TrieError {
    /// An allocation failed, or a count of nibbles would exceed `usize::MAX`.
    Memory,
    /// `usize::MAX` pairs are stored, and the key isn't among them.
    Full,
    /// The view's path isn't a prefix of the key's encoding.
    Outside,
    /// A pair is stored at the key's encoding.
    Occupied,
    /// A point stands where a trie was to be grafted.
    Overlapping,
    /// No value is stored at the key's encoding.
    Absent,
    /// No point stands at the key's encoding.
    Closed,
    /// The JSON value is neither null nor an object.
    Kind,
    /// A float stands somewhere in a JSON value.
    Float,
    /// The key's encoding has an odd count of nibbles, so it is no list of bytes.
    Odd,
    /// A part of a list of parts has a byte 0.
    Zero,
}

impl From<Memory> for TrieError {
    ghost from_gives = { λ _ e. e ≡ memory };

    fn from(_refused: Memory) -> TrieError {
        TrieError::Memory
    }
}

impl From<AllocError> for TrieError {
    ghost from_gives = { λ _ e. e ≡ memory };

    fn from(_refused: AllocError) -> TrieError {
        TrieError::Memory
    }
}

impl From<InsertWhy> for TrieError {
    ghost from_gives = { λ why e. e ≡ of_insert why };

    fn from(why: InsertWhy) -> TrieError {
        match why {
            InsertWhy::Memory => TrieError::Memory,
            InsertWhy::Full => TrieError::Full,
            InsertWhy::Outside => TrieError::Outside,
        }
    }
}

/// The key and the value that were passed are dropped.
impl<K: Drop, V: Drop> From<InsertError<K, V>> for TrieError {
    ghost from_gives = { λ refused e. e ≡ of_insert refused.why };

    fn from(refused: InsertError<K, V>) -> TrieError {
        TrieError::from(refused.why)
    }
}

impl From<TryInsertWhy> for TrieError {
    ghost from_gives = { λ why e. e ≡ of_try_insert why };

    fn from(why: TryInsertWhy) -> TrieError {
        match why {
            TryInsertWhy::Memory => TrieError::Memory,
            TryInsertWhy::Full => TrieError::Full,
            TryInsertWhy::Occupied => TrieError::Occupied,
        }
    }
}

/// The key and the value that were passed are dropped.
impl<K: Drop, V: Drop> From<Refused<TryInsertWhy, (K, V)>> for TrieError {
    ghost from_gives = { λ error e. e ≡ of_try_insert error.why };

    fn from(error: Refused<TryInsertWhy, (K, V)>) -> TrieError {
        TrieError::from(error.why)
    }
}

impl From<GraftWhy> for TrieError {
    ghost from_gives = { λ why e. e ≡ of_graft why };

    fn from(why: GraftWhy) -> TrieError {
        match why {
            GraftWhy::Memory => TrieError::Memory,
            GraftWhy::Full => TrieError::Full,
            GraftWhy::Overlapping => TrieError::Overlapping,
        }
    }
}

/// The trie that was passed is dropped.
impl<K: TrieKey + Drop, V: Drop> From<Refused<GraftWhy, Trie<K, V>>> for TrieError {
    ghost from_gives = { λ error e. e ≡ of_graft error.why };

    fn from(error: Refused<GraftWhy, Trie<K, V>>) -> TrieError {
        TrieError::from(error.why)
    }
}

/// The key that was passed is dropped.
impl<K: Drop> From<Refused<Memory, K>> for TrieError {
    ghost from_gives = { λ _ e. e ≡ memory };

    fn from(_refused: Refused<Memory, K>) -> TrieError {
        TrieError::Memory
    }
}

/// What was passed is dropped.
impl<K: TrieKey + Drop, V: Drop> From<MergeError<K, V>> for TrieError {
    ghost from_gives = { λ error e. e ≡ of_merge error };

    fn from(error: MergeError<K, V>) -> TrieError {
        match error {
            MergeError::Memory(_) => TrieError::Memory,
            MergeError::Stopped(error, _) => TrieError::from(error.why),
        }
    }
}

impl From<BuildError> for TrieError {
    ghost from_gives = { λ error e. e ≡ of_build error };

    fn from(error: BuildError) -> TrieError {
        match error {
            BuildError::Memory => TrieError::Memory,
            BuildError::Full => TrieError::Full,
        }
    }
}

impl From<FindError> for TrieError {
    ghost from_gives = { λ error e. e ≡ of_find error };

    fn from(error: FindError) -> TrieError {
        match error {
            FindError::Memory => TrieError::Memory,
            FindError::Absent => TrieError::Absent,
        }
    }
}

impl From<OpenError> for TrieError {
    ghost from_gives = { λ error e. e ≡ of_open error };

    fn from(error: OpenError) -> TrieError {
        match error {
            OpenError::Memory => TrieError::Memory,
            OpenError::Closed => TrieError::Closed,
        }
    }
}

impl From<SubTrieError> for TrieError {
    ghost from_gives = { λ error e. e ≡ of_view error };

    fn from(error: SubTrieError) -> TrieError {
        match error {
            SubTrieError::Memory => TrieError::Memory,
            SubTrieError::Outside => TrieError::Outside,
        }
    }
}

impl From<JsonError> for TrieError {
    ghost from_gives = { λ error e. e ≡ of_json error };

    fn from(error: JsonError) -> TrieError {
        match error {
            JsonError::Memory => TrieError::Memory,
            JsonError::Kind => TrieError::Kind,
            JsonError::Float => TrieError::Float,
        }
    }
}

impl From<BytesError> for TrieError {
    ghost from_gives = { λ error e. e ≡ of_bytes error };

    fn from(error: BytesError) -> TrieError {
        match error {
            BytesError::Memory => TrieError::Memory,
            BytesError::Odd => TrieError::Odd,
        }
    }
}

impl From<PartsError> for TrieError {
    ghost from_gives = { λ error e. e ≡ of_parts error };

    fn from(error: PartsError) -> TrieError {
        match error {
            PartsError::Memory => TrieError::Memory,
            PartsError::Zero => TrieError::Zero,
        }
    }
}

//! The messages of errors. Each has that of the `TrieError` that it becomes.
ghost use Rattle.std.specs.Prelude.{Some};
ghost use Rattle.radix_trie.specs.Errors.{of_graft, of_build, of_find, of_insert, of_json, of_merge, of_open, of_try_insert, of_view, text_of};

use crate::error::{
    BuildError, FindError, GraftWhy, InsertError, InsertWhy, JsonError, MergeError, OpenError,
    SubTrieError, TrieError, TryInsertWhy,
};
use radix_keys::TrieKey;
use std::error::Error;
use std::fmt;

impl fmt::Display for TrieError {
    ghost output = { λ error. Some (text_of error) };

    fn fmt<W: fmt::Write>(&self, f: &mut fmt::Formatter<W>) -> fmt::Result {
        f.write_str(match self {
            TrieError::Memory => "out of memory",
            TrieError::Full => "the trie is full",
            TrieError::Outside => "the key lies outside the view",
            TrieError::Occupied => "a pair is stored at the key",
            TrieError::Overlapping => "the tries overlap",
            TrieError::Absent => "no value is stored at the key",
            TrieError::Closed => "no point stands at the key",
            TrieError::Kind => "the value is neither null nor an object",
            TrieError::Float => "a float stands in the value",
            TrieError::Odd => "the key has an odd count of nibbles",
            TrieError::Zero => "a part has a byte 0",
        })
    }
}

impl Error for TrieError {}

impl fmt::Display for InsertWhy {
    ghost output = { λ error. Some (text_of (of_insert error)) };

    fn fmt<W: fmt::Write>(&self, f: &mut fmt::Formatter<W>) -> fmt::Result {
        fmt::Display::fmt(&TrieError::from(*self), f)
    }
}

impl Error for InsertWhy {}

impl fmt::Display for TryInsertWhy {
    ghost output = { λ error. Some (text_of (of_try_insert error)) };

    fn fmt<W: fmt::Write>(&self, f: &mut fmt::Formatter<W>) -> fmt::Result {
        fmt::Display::fmt(&TrieError::from(*self), f)
    }
}

impl Error for TryInsertWhy {}

impl fmt::Display for GraftWhy {
    ghost output = { λ error. Some (text_of (of_graft error)) };

    fn fmt<W: fmt::Write>(&self, f: &mut fmt::Formatter<W>) -> fmt::Result {
        fmt::Display::fmt(&TrieError::from(*self), f)
    }
}

impl Error for GraftWhy {}

impl fmt::Display for BuildError {
    ghost output = { λ error. Some (text_of (of_build error)) };

    fn fmt<W: fmt::Write>(&self, f: &mut fmt::Formatter<W>) -> fmt::Result {
        fmt::Display::fmt(&TrieError::from(*self), f)
    }
}

impl Error for BuildError {}

impl fmt::Display for FindError {
    ghost output = { λ error. Some (text_of (of_find error)) };

    fn fmt<W: fmt::Write>(&self, f: &mut fmt::Formatter<W>) -> fmt::Result {
        fmt::Display::fmt(&TrieError::from(*self), f)
    }
}

impl Error for FindError {}

impl fmt::Display for OpenError {
    ghost output = { λ error. Some (text_of (of_open error)) };

    fn fmt<W: fmt::Write>(&self, f: &mut fmt::Formatter<W>) -> fmt::Result {
        fmt::Display::fmt(&TrieError::from(*self), f)
    }
}

impl Error for OpenError {}

impl fmt::Display for SubTrieError {
    ghost output = { λ error. Some (text_of (of_view error)) };

    fn fmt<W: fmt::Write>(&self, f: &mut fmt::Formatter<W>) -> fmt::Result {
        fmt::Display::fmt(&TrieError::from(*self), f)
    }
}

impl Error for SubTrieError {}

impl fmt::Display for JsonError {
    ghost output = { λ error. Some (text_of (of_json error)) };

    fn fmt<W: fmt::Write>(&self, f: &mut fmt::Formatter<W>) -> fmt::Result {
        fmt::Display::fmt(&TrieError::from(*self), f)
    }
}

impl Error for JsonError {}

impl<K, V> fmt::Display for InsertError<K, V> {
    ghost output = { λ refused. Some (text_of (of_insert refused.why)) };

    fn fmt<W: fmt::Write>(&self, f: &mut fmt::Formatter<W>) -> fmt::Result {
        fmt::Display::fmt(&self.why, f)
    }
}

/// As `Display`: key and value may be of types that write nothing.
impl<K, V> fmt::Debug for InsertError<K, V> {
    ghost debug_output = { λ refused. Some (text_of (of_insert refused.why)) };

    fn fmt<W: fmt::Write>(&self, f: &mut fmt::Formatter<W>) -> fmt::Result {
        fmt::Display::fmt(self, f)
    }
}

impl<K: Drop, V: Drop> Error for InsertError<K, V> {}

impl<K: TrieKey, V> fmt::Display for MergeError<K, V> {
    ghost output = { λ refused. Some (text_of (of_merge refused)) };

    fn fmt<W: fmt::Write>(&self, f: &mut fmt::Formatter<W>) -> fmt::Result {
        match self {
            MergeError::Memory(_) => fmt::Display::fmt(&TrieError::Memory, f),
            MergeError::Stopped(error, _) => fmt::Display::fmt(&error.why, f),
        }
    }
}

/// As `Display`: keys and values may be of types that write nothing.
impl<K: TrieKey, V> fmt::Debug for MergeError<K, V> {
    ghost debug_output = { λ refused. Some (text_of (of_merge refused)) };

    fn fmt<W: fmt::Write>(&self, f: &mut fmt::Formatter<W>) -> fmt::Result {
        fmt::Display::fmt(self, f)
    }
}

impl<K: TrieKey + Drop, V: Drop> Error for MergeError<K, V> {}

//! The check of a whole trie.
ghost use Rattle.std.specs.Prelude.{◌≡◌, true, IfOk};

use crate::trie::Trie;
use radix_keys::{Memory, Nibblet, TrieKey};

impl<K: TrieKey, V> Trie<K, V> {
    /// Whether the nodes are the canonical tree of as many pairs as `len` says, as the checker of
    /// nodes finds them. They always are.
    ///
    /// # Errors
    ///
    /// `Memory`: an allocation fails, for the paths and the keys' encodings.
    pub fn check_integrity(&self) -> Result<bool, Memory>
        ensures sound { IfOk result (λ sound. sound ≡ true) }
    {
        let length = self.len();
        let top = Nibblet::new(self.allocator());
        let (sound, count) = self
            .root()
            .check_integrity_recursive(self.allocator(), &top)?;
        Ok(sound && count == length)
    }
}

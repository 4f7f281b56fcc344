//! Values for writing. No key moves, so what is written changes neither nibbles nor links.
ghost use Rattle.std.specs.Borrow.{sem};
ghost use Rattle.std.specs.Option.{option_copied_mut};
ghost use Rattle.std.specs.Prelude.{◌≡◌};
ghost use Rattle.nibble_map.specs.Maps.{value_at};
ghost use Rattle.nibble_map.specs.Nibbles.{nibbles};
ghost use Rattle.frozen_trie.specs.TextLends.{lends_text};

use crate::texts::FrozenTexts;
use encoded_keys::search::index_of;
use radix_keys::NibbleSlice;

impl<V> FrozenTexts<V> {
    /// The value of a key, for writing, if it is stored.
    pub fn get_mut(&mut self, key: &[u8]) -> Option<&mut V>
        ensures* writes_back { sem 𝓛 (lends_text V.row self.entry (nibbles key.now) result) }
        ensures value { option_copied_mut result ≡ value_at self.old (nibbles key.now) }
    {
        match index_of::<u8, ()>(&self.codes, &[], &NibbleSlice::from_bytes(key)) {
            Some(at) => Some(&mut self.values[at]),
            None => None,
        }
    }
}

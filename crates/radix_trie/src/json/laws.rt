//! What is written as JSON is read back.
ghost use Rattle.std.specs.Prelude.{◌≡◌, ℕ, List, option_map};
ghost use Rattle.nibble_map.specs.Maps.{value_at};
ghost use Rattle.nibble_map.specs.Nibbles.{nibbles};
ghost use Rattle.serde_json.specs.Find.{get};
ghost use Rattle.serde_json.specs.View.{view};
ghost use Rattle.radix_trie.specs.Json.{object_of, read_as};

use crate::trie::Trie;
use serde_json::Value;

/// What `to_value` returns of a trie, `from_value` reads back as a trie of the same texts, each
/// with a value that shows the same data.
pub fn objects_are_read_back(trie: &Trie<String, Value>, value: &Value, back: &Trie<String, Value>)
    ensures object { view value.now ≡ object_of trie.now
        → object_of back.now ≡ read_as (view value.now)
        → object_of back.now ≡ object_of trie.now }
    ensures members { view value.now ≡ object_of trie.now → ((name : List ℕ)
        → get name (object_of trie.now) ≡ option_map view (value_at trie.now (nibbles name)))
        → ((name : List ℕ)
        → option_map view (value_at back.now (nibbles name)) ≡ get name (view value.now))
        → (name : List ℕ) → option_map view (value_at back.now (nibbles name))
        ≡ option_map view (value_at trie.now (nibbles name)) }
{}

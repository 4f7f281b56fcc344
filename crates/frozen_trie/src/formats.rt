//! Frozen tries in the formats of serde: maps, whose pairs stand in the order of the encodings.
ghost use Rattle.std.specs.Prelude.{[]};
ghost use Rattle.serde.specs.Event.{WritesMap};
ghost use Rattle.radix_trie.specs.Views.{pairs_below};

use crate::frozen::FrozenTrie;
use radix_keys::TrieKey;
use serde::{Described, Deserialize, Deserializer, Format, Serialize, Serializer};
use sorted_tables::PushWhy;
use std::alloc::Global;

/// A contract sees the events of a map of all pairs, in the order of their encodings.
impl<K: TrieKey + Described, V: Described> Described for FrozenTrie<K, V> {
    ghost writes = { λ m. WritesMap K.writes V.writes (pairs_below m []) };
}

impl<K: TrieKey + Serialize, V: Serialize> Serialize for FrozenTrie<K, V> {
    fn serialize<S: Serializer>(&self, out: &mut S) -> Result<(), S::Error> {
        let pairs = self.pairs();
        out.begin_map(Some(pairs.len()))?;
        for pair in pairs {
            out.begin_key()?;
            pair.0.serialize(out)?;
            out.end_key()?;
            pair.1.serialize(out)?;
        }
        out.end_map()
    }
}

/// A map whose encodings don't rise is refused, as it is by `FrozenTrie::push`.
impl<'de, K: TrieKey + Deserialize<'de>, V: Deserialize<'de>> Deserialize<'de>
    for FrozenTrie<K, V> {
    fn deserialize<F: Format>(
        alloc: Global,
        from: &mut Deserializer<'de, '_, F>,
    ) -> Result<FrozenTrie<K, V>, F::Error> {
        from.begin_map()?;
        let mut frozen = FrozenTrie::new(alloc);
        for _ in 0..u64::MAX {
            if !from.next_entry()? {
                break;
            }
            let key = K::deserialize(alloc, from)?;
            let value = V::deserialize(alloc, from)?;
            if let Err(refused) = frozen.push(key, value) {
                return Err(match refused.why {
                    PushWhy::Memory => from.no_memory(),
                    PushWhy::Full => from.custom("a frozen trie holds fewer than 2^32 pairs"),
                    PushWhy::OutOfOrder => from.custom("keys don't rise"),
                });
            }
        }
        match frozen.finish() {
            Ok(()) => Ok(frozen),
            Err(_) => Err(from.no_memory()),
        }
    }
}

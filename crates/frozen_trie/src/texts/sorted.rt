//! A map from byte strings, made of pairs in order.
ghost use Rattle.std.specs.Prelude.{◌≡◌, ◌≤◌, ◌^◌, ℕ, length, IfErr, IfOk, IsOk, OnOk};
ghost use Rattle.nibble_map.specs.Lists.{IsRising};
ghost use Rattle.nibble_map.specs.Nibbles.{nibbles};
ghost use Rattle.radix_trie.specs.Building.{pairs_in_order};
ghost use Rattle.frozen_trie.specs.Frozen.{IsFirstListOutOfOrder, codes_of};
ghost use Rattle.frozen_trie.specs.Texts.{byte_pairs};

use crate::build::codes_and_links;
use crate::texts::FrozenTexts;
use radix_keys::Refused;
use sorted_tables::SortedWhy;
use std::alloc::Global;

impl<V: Drop> FrozenTexts<V> {
    /// The map of pairs whose texts rise in the order of their bytes, in linear time.
    ///
    /// # Errors
    ///
    /// The text of a pair doesn't come after that of the pair before it, and the error says of the
    /// first such pair where it stands. There are 2^32 pairs or more. An allocation fails; the
    /// texts together take less than 2^31 bytes. The pairs come back. Of no pair the call never
    /// fails.
    pub fn from_sorted(
        alloc: Global,
        pairs: Vec<(String, V)>,
    ) -> Result<FrozenTexts<V>, Refused<SortedWhy, Vec<(String, V)>>>
        ensures pairs { IfOk result
            (λ texts. texts ≡ pairs_in_order nibbles (byte_pairs pairs.items)) }
        ensures rising { OnOk result (IsRising (codes_of nibbles (byte_pairs pairs.items))) }
        ensures handed_back { IfErr result (λ e. e.back ≡ pairs) }
        ensures unsorted { IfErr result (λ e. (i : ℕ) → e.why ≡ SortedWhy.OutOfOrder i
            → IsFirstListOutOfOrder (codes_of nibbles (byte_pairs pairs.items)) i) }
        ensures full { IfErr result (λ e. e.why ≡ SortedWhy.Full
            → 2 ^ 32 ≤ length pairs.items) }
        ensures none { length pairs.items ≡ 0 → IsOk result }
    {
        let (codes, parents) = match codes_and_links(alloc, &pairs) {
            Ok(made) => made,
            Err(why) => return Err(Refused { why, back: pairs }),
        };
        let Ok(mut values) = Vec::with_capacity(alloc, pairs.len()) else {
            let why = SortedWhy::Memory;
            return Err(Refused { why, back: pairs });
        };
        for (_, value) in pairs {
            values.push_reserved(value);
        }
        Ok(FrozenTexts {
            codes,
            values,
            parents,
            alloc,
        })
    }
}

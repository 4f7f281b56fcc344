//! What it is for a filter to match a topic.
ghost use Rattle.std.specs.FinMap as map;
ghost use Rattle.std.specs.Prelude.{◌≡◌, ◌≢◌, ◌↔◌, AllPairs, Some};
ghost use Rattle.nibble_map.specs.Lists.{Has};
ghost use Rattle.nibble_map.specs.Maps.{PairMap};
ghost use Rattle.nibble_map.specs.Nibbles.{nibbles};
ghost use Rattle.radix_keys.specs.Parts.{AreParts, part_bytes};
ghost use Rattle.radix_trie.specs.Keys.{IsKeyed};
ghost use Rattle.topic_filters.specs.Filters.{IsTopic, Levels, Matches, filters_of, stored_at};

/// The filters that `matching` looks for are those that match the list of levels; of a topic each
/// stands there once.
pub fn filters_of_topics_match()
    ensures all { (filter topic : Levels)
        → Has (filters_of topic) filter ↔ Matches filter topic }
    ensures once { (topic : Levels) → IsTopic topic
        → AllPairs (λ f g. f ≢ g) (filters_of topic) }
{}

/// What a map holds at the filters that match a topic: the pairs of the stored filters that match,
/// and no others. Where each stored filter stands at its own encoding, as `IsKeyed` says, they are
/// the pairs whose own filters match; of a topic each comes once.
pub fn stored_filters_match<K, V>()
    ensures held { (m : PairMap K V) (topic : Levels) (p : K × V)
        → Has (stored_at m (filters_of topic)) p
        ↔ ((f : Levels) × Matches f topic × (map.get m (nibbles (part_bytes f)) ≡ Some p)) }
    ensures own { (m : PairMap Levels V) → IsKeyed (λ f. nibbles (part_bytes f)) AreParts m
        → (topic : Levels) (p : Levels × V) → AreParts topic
        → Has (stored_at m (filters_of topic)) p
        ↔ (Matches p.0 topic × (map.get m (nibbles (part_bytes p.0)) ≡ Some p)) }
    ensures once { (m : PairMap Levels V) → IsKeyed (λ f. nibbles (part_bytes f)) AreParts m
        → (topic : Levels) → AreParts topic → IsTopic topic
        → AllPairs (λ p q. p.0 ≢ q.0) (stored_at m (filters_of topic)) }
{}

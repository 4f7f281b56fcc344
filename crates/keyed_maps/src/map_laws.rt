//! The laws of what any map gives by a query: a caller that is written over `PrefixMap` names the
//! one of its call, and is proved once for a trie, frozen tries, frozen texts and routing tables.
ghost use Rattle.std.specs.Prelude.{[], ◌≡◌, ◌≤◌, Contains, None, Some, length, take, true};
ghost use Rattle.nibble_map.specs.Lists.{IsPrefix};
ghost use Rattle.radix_trie.specs.Views.{IsValueAbove, encoded_bound, is_within, pairs_above, pairs_below, pairs_within};
ghost use Rattle.keyed_maps.specs.KeyedMaps.{keyed_map};

use prefix_maps::{PrefixMap, RangeMap};
use std::ops::RangeBounds;

/// The pairs that `PrefixMap::below` gives, and the first of them as `prefix_maps::first_below`
/// gives them: their keys begin with the query, each has its value, and where no more are stored
/// than there may be, none is missed.
pub fn pairs_below_are_given<'a, Q, M: PrefixMap<'a, Q>>(map: M, key: &Q, most: usize)
    ensures given { length (pairs_below (M.map map) (M.list key.now)) ≤ most
        → (k : M.Stored) (v : M.Value) → keyed_map M.encoding (M.map map) k ≡ Some v
        → IsPrefix (M.list key.now) (M.encoding k)
        → (j : M.Stored) × (M.encoding j ≡ M.encoding k)
        × Contains (take most (pairs_below (M.map map) (M.list key.now))) (j, v) }
    ensures begins { (p : M.Stored × M.Value)
        → Contains (take most (pairs_below (M.map map) (M.list key.now))) p
        → IsPrefix (M.list key.now) (M.encoding p.0) }
    ensures has_value { (p : M.Stored × M.Value)
        → Contains (take most (pairs_below (M.map map) (M.list key.now))) p
        → keyed_map M.encoding (M.map map) p.0 ≡ Some p.1 }
{
    map.keys_stand_at_their_encodings();
}

/// The pairs that `PrefixMap::common_prefixes` gives: each key with a value that is a prefix of the
/// query, and no other key.
pub fn pairs_above_are_given<'a, Q, M: PrefixMap<'a, Q>>(map: M, key: &Q)
    ensures given { (k : M.Stored) (v : M.Value) → keyed_map M.encoding (M.map map) k ≡ Some v
        → IsPrefix (M.encoding k) (M.list key.now)
        → (j : M.Stored) × (M.encoding j ≡ M.encoding k)
        × Contains (pairs_above (M.map map) (M.list key.now)) (j, v) }
    ensures begins { (p : M.Stored × M.Value)
        → Contains (pairs_above (M.map map) (M.list key.now)) p
        → IsPrefix (M.encoding p.0) (M.list key.now) }
    ensures has_value { (p : M.Stored × M.Value)
        → Contains (pairs_above (M.map map) (M.list key.now)) p
        → keyed_map M.encoding (M.map map) p.0 ≡ Some p.1 }
{
    map.keys_stand_at_their_encodings();
}

/// The pairs that `RangeMap::range` gives: each key with a value that is within the range, and no
/// other key.
pub fn pairs_within_are_given<'a, Q, M: RangeMap<'a, Q>, R: RangeBounds<Q>>(map: M, range: &R)
    ensures given { (k : M.Stored) (v : M.Value) → keyed_map M.encoding (M.map map) k ≡ Some v
        → is_within (encoded_bound M.list (R.start_bound range.now))
        (encoded_bound M.list (R.end_bound range.now)) (M.encoding k) ≡ true
        → (j : M.Stored) × (M.encoding j ≡ M.encoding k)
        × Contains (pairs_within (M.map map) []
        (encoded_bound M.list (R.start_bound range.now))
        (encoded_bound M.list (R.end_bound range.now))) (j, v) }
    ensures within { (p : M.Stored × M.Value) → Contains (pairs_within (M.map map) []
        (encoded_bound M.list (R.start_bound range.now))
        (encoded_bound M.list (R.end_bound range.now))) p
        → is_within (encoded_bound M.list (R.start_bound range.now))
        (encoded_bound M.list (R.end_bound range.now)) (M.encoding p.0) ≡ true }
    ensures has_value { (p : M.Stored × M.Value) → Contains (pairs_within (M.map map) []
        (encoded_bound M.list (R.start_bound range.now))
        (encoded_bound M.list (R.end_bound range.now))) p
        → keyed_map M.encoding (M.map map) p.0 ≡ Some p.1 }
{
    map.keys_stand_at_their_encodings();
}

/// The value that `prefix_maps::lookup` returns: that of a key that the query begins with, of which
/// each other such key with a value is a prefix. If there is none, no such key has a value.
pub fn longest_match_is_given<'a, Q, M: PrefixMap<'a, Q>>(map: M, key: &Q)
    ensures longest { (v : M.Value) → IsValueAbove (M.map map) (M.list key.now) (Some v)
        → (k : M.Stored) × IsPrefix (M.encoding k) (M.list key.now)
        × (keyed_map M.encoding (M.map map) k ≡ Some v)
        × ((j : M.Stored) (w : M.Value) → IsPrefix (M.encoding j) (M.list key.now)
        → keyed_map M.encoding (M.map map) j ≡ Some w
        → IsPrefix (M.encoding j) (M.encoding k)) }
    ensures none { IsValueAbove (M.map map) (M.list key.now) None → (k : M.Stored)
        → IsPrefix (M.encoding k) (M.list key.now)
        → keyed_map M.encoding (M.map map) k ≡ None }
{
    map.keys_stand_at_their_encodings();
}

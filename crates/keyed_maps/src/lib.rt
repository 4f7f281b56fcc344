//! The map from keys to values that each map here is: laws of what it answers by keys alone.
#![tactic(auto)]

mod closure_laws;
mod cost_laws;
mod count_laws;
mod edit_laws;
mod equality_laws;
mod map_laws;
mod nearest_laws;
mod part_laws;
mod value_laws;
mod walk_laws;

pub use closure_laws::{
    keyed_maps_follow_changes, keyed_maps_follow_clones, keyed_maps_follow_retain,
};
pub use cost_laws::{edits_make_few_nibbles, edits_make_few_nodes};
pub use count_laws::{counts_follow_keys, walks_give_each_key};
pub use edit_laws::{edits_by_key_compose, equal_keys_have_one_value, keyed_maps_follow_edits};
pub use equality_laws::{
    alike_keyed_maps_are_same, equal_keyed_maps_are_equal, equal_keys_are_encoded_alike,
};
pub use map_laws::{
    longest_match_is_given, pairs_above_are_given, pairs_below_are_given, pairs_within_are_given,
};
pub use nearest_laws::keyed_maps_follow_nearest;
pub use part_laws::{keyed_maps_follow_parts, keyed_maps_follow_tries, merges_by_key_compose};
pub use value_laws::keyed_maps_follow_values;
pub use walk_laws::{
    keys_below_are_given, keys_of_pages_are_given, keys_within_are_given, prefixes_are_given,
};

//! A radix trie: a map from keys to values that goes by the nibbles of the keys' encodings.
#![tactic(auto)]

mod commands;
mod error;
pub mod iter;
mod json;
mod key_laws;
mod locus;
mod map_laws;
pub mod prelude;
mod trie;
mod view;

pub use commands::{Command, Reply, ViewCommand, run};
pub use error::{
    BuildError, FindError, GraftWhy, InsertError, InsertWhy, JsonError, MergeError, OpenError,
    SubTrieError, SubTrieResult, TrieError, TryInsertWhy,
};
pub use json::{from_value, objects_are_read_back, to_value};
pub use key_laws::{
    encodings_keep_prefixes, keys_of_ranges_rise, keys_of_walks_rise,
    keys_stand_at_their_encodings, numbers_keep_their_order, pages_follow_one_another,
    parts_keep_their_order, signed_numbers_keep_their_order, split_part_goes_back,
    stored_keys_are_equal, texts_keep_their_order, walks_miss_no_key,
};
pub use locus::PathList;
pub use map_laws::{equal_lists_have_one_tree, part_answers_below, turned_copies_answer_alike};
pub use nibble_map::map_laws::{
    edits_below_a_path, one_value_changes, points_of_the_rest, rest_of_a_map,
};
pub use nibble_map::query_laws::descendants_hold_all_below;
pub use nibble_map::walk_laws::{edits_change_one_answer, rest_answers_elsewhere, walks_lie_below};
pub use radix_keys::laws::{
    bits_keep_prefixes, first_bits_are_digits, first_bits_tell_networks, nibbles_keep_prefixes,
    parts_keep_prefixes,
};
pub use radix_keys::{
    Address, AsNibbles, Ascending, BigEndian, Bits, BytesError, Encoding, FixedWidth, Ipv4Network,
    Ipv6Network, KeyInt, KeySigned, LittleEndian, Memory, Network, NetworkParseError, NibbleIter,
    NibbleSlice, NibbleVec, Nibblet, Parts, PartsError, PartsIter, Refused, TrieKey,
};
pub use radix_nodes::search::find::LookUpCost;
pub use trie::{Entry, Trie};
pub use view::descent::Descent;
pub use view::subtrie::SubTrie;
pub use view::subtrie_mut::SubTrieMut;
pub use view::trie_common::TrieCommon;
pub use view::trie_edit::TrieEdit;

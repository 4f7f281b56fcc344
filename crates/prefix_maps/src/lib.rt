//! One set of calls over all maps by keys and their prefixes: a program that is written over it
//! once runs on a trie, which grows, and on the frozen forms.
#![tactic(auto)]

mod callers;
mod calls;
mod frozen_texts;
mod frozen_tries;
mod ranges;
mod routes;
mod tries;

pub use callers::{first_below, lookup};
pub use calls::PrefixMap;
pub use frozen_texts::TextWalk;
pub use frozen_trie::TextKey;
pub use frozen_tries::FrozenWalk;
pub use ranges::RangeMap;
pub use routes::RouteWalk;
pub use tries::TrieWalk;

//! Filters of topics in one trie, as OASIS MQTT 5.0 has them in section 4.7: `+` is any one level,
//! and `#` all that is left.
//!
//! A level is any bytes but U+0000. What the standard asks of a topic's text beside that is the
//! caller's: at most 65,535 bytes, and well-formed UTF-8. A shared subscription
//! (`$share/group/filter`) is a filter like any other here: its first two levels are the caller's
//! to take off.
#![tactic(auto)]

mod forms;
mod laws;
mod search;

pub use forms::{is_filter, is_topic};
pub use laws::{filters_of_topics_match, stored_filters_match};
pub use search::matching;

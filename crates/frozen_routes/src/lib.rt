//! Networks in order, each with a value: a routing table for reading alone.
#![tactic(auto)]

mod appended;
mod directory;
mod frozen;
mod laws;
mod linked;
mod prefixes;
mod queries;
mod room;
mod rows;
mod search;
mod sorted;

pub use frozen::FrozenRoutes;
pub use laws::{addresses_ask_as_networks, longest_rows_are_nearest, networks_hold_by_prefix};
pub use prefixes::CommonPrefixes;
pub use queries::RouteQuery;
pub use room::Room;
pub use sorted_tables::{PushWhy, SortedWhy};

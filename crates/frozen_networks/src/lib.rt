//! Frozen tables of tries of networks, and tries of such tables.
#![tactic(auto)]

mod copies;
mod laws;
mod moves;
mod query_laws;

pub use copies::{frozen_copy, thawed_copy};
pub use laws::{networks_rise_as_their_bits, rows_and_maps_go_back};
pub use moves::{freeze, thaw};
pub use query_laws::maps_answer_as_tables;

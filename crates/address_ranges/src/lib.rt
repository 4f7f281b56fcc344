//! Ranges of addresses as networks: what a routing table takes of data that names first and last
//! addresses.
#![tactic(auto)]

mod errors;
mod networks;
mod numbers;
mod rows;

pub use errors::RangesError;
pub use networks::{RangeNetworks, networks_of};
pub use rows::rows_of_ranges;

//! Tests of what no line of the shell says: values and keys of other types, queries by keys of
//! other types, closures, descents, what outlives the view that it comes from, sizes, nodes, and
//! tables with their least lists; and what tests and examples share.
#![tactic(auto)]

#[cfg(test)]
mod descents;
#[cfg(test)]
mod fussy;
#[cfg(test)]
mod keys;
#[cfg(test)]
mod map;
#[cfg(test)]
mod nodes;
#[cfg(test)]
mod pairs;
pub mod samples;
#[cfg(test)]
mod spent;
#[cfg(test)]
mod tables;
#[cfg(test)]
mod tries;
#[cfg(test)]
mod views;

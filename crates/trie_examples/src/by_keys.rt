//! Callers whose contracts speak by keys alone: each names the laws that it needs, and all but
//! `insert_measured` are proved without a proof file.

mod costs;
mod edits;
mod parts;
mod values;
mod walks;

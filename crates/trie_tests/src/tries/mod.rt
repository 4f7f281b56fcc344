//! Tries: values of other types than numbers, values that closures change, walks that are left,
//! large and deep tries.

mod changed;
mod combined;
mod copies;
mod deep_chain;
mod equality;
mod indexed;
mod json;
mod many;
mod walk_left;

//! Values that are written in their places, and queries by keys of other types.

mod entries;
mod lent_values;
mod other_keys;

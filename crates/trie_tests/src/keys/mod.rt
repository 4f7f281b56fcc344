//! Keys: lists of nibbles and of bits, encodings, tries of signed keys in ascending order, and
//! sizes: long keys, many children, large tries.

mod ascending;
mod digits;
mod encodings;
mod lists;
mod little;
mod refusals;
mod sizes;
mod walks;

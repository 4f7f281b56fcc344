//! Pairs of texts and numbers.

/// The sample's pairs, in the order of walks.
pub(crate) const IN_ORDER: &'static [(&'static str, u64)] = &[
    ("a", 15),
    ("ab", 16),
    ("abcd", 17),
    ("abcdef", 18),
    ("abcdefgh", 19),
    ("acbdef", 30),
    ("bcdefgh", 29),
];

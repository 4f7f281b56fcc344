//! Pairs of a key and its value, and where they lie.

/// A key and its value.
#[repr(C)]
#[derive(Clone, Copy)]
pub struct Pair<'a> {
    pub key: &'a [u8],
    pub value: u64,
}

/// Where a key lies in an image, by the place of its first byte and how many bytes it has, and its
/// value.
#[repr(C)]
#[derive(Clone, Copy)]
pub struct Place {
    pub first: usize,
    pub len: usize,
    pub value: u64,
}

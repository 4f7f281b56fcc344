//! Why bytes are no image, why none was written, and why no table is made of one.

/// Why bytes are no image. An index is counted from 0.
#[derive(Debug, Clone, Copy, PartialEq, Eq)]
pub enum ImageError {
    /// There is no room for the head and the list of the parts.
    Short,
    /// The first bytes aren't those of such an image.
    Mark,
    /// The image is of another version.
    Version,
    /// The part listed at this index is missing or of another kind, lies outside the bytes, or has
    /// another size or detail.
    Part(usize),
    /// The row at this index is none, doesn't come after the row before it, or has another link.
    Row(usize),
    /// The first span doesn't begin at 0, or the span at this index doesn't begin before the next
    /// one, or has another answer than some of its addresses.
    Span(usize),
    /// The cell at this index counts wrongly, or leads to another span.
    Cell(usize),
}

/// Why no image was written.
#[derive(Debug, Clone, Copy, PartialEq, Eq)]
pub enum WriteError {
    /// There are 2^32 rows or more, or so many bytes of keys.
    Full,
    /// The buffer is shorter than the image.
    Short,
    /// The row at this index, from 0, is none, or doesn't come after the row before it.
    OutOfOrder(usize),
}

/// Why no table in memory is made of bytes.
#[derive(Debug, Clone, Copy, PartialEq, Eq)]
pub enum TableError {
    /// They are no image.
    Image(ImageError),
    /// An allocation fails, or the keys together take 2^31 bytes or more, as those of a table in
    /// memory may not.
    Memory,
}

//! Why no frozen trie is made of bytes.

use image_parts::ImageError;

/// Why no frozen trie is made of bytes.
#[derive(Debug, Clone, Copy, PartialEq, Eq)]
pub enum TrieError {
    /// They are no image.
    Image(ImageError),
    /// The bytes of the pair at this index are the encoding of no key of the type.
    Key(usize),
    /// The number of the pair at this index leads to no value of the type: it or the value's end
    /// lies outside the image's own bytes, or they are of no value there, as bytes that aren't
    /// UTF-8 are of no text. A number that is the value itself never does.
    Value(usize),
    /// The values of the pairs up to the one at this index, each with the four bytes that count it,
    /// take more bytes together than the image: too many pairs share the bytes of theirs.
    Shared(usize),
    /// An allocation fails, or the encodings together take 2^31 bytes or more.
    Memory,
}

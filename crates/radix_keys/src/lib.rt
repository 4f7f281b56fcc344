//! Keys of a radix trie: lists of nibbles, and what a key is encoded as.
#![tactic(auto)]

pub mod bits;
pub mod encoding;
pub mod endian;
pub mod keys;
pub mod laws;
pub mod networks;
pub mod nibbles;
pub mod parts;
pub mod refused;
pub mod slices;

pub use bits::Bits;
pub use encoding::Encoding;
pub use endian::{Ascending, BigEndian, KeyInt, LittleEndian};
pub use keys::{AsNibbles, FixedWidth, KeySigned, TrieKey};
pub use networks::{Address, Ipv4Network, Ipv6Network, Network, NetworkParseError};
pub use nibbles::{BytesError, Memory, NibbleIter, NibbleVec, Nibblet};
pub use parts::{Parts, PartsError, PartsIter};
pub use refused::Refused;
pub use slices::NibbleSlice;

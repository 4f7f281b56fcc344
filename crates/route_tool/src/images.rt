//! Images of the routes of one family: each network with the place of its hop, and the hops, a line
//! each, as the user's own bytes.

use image_parts::ImageError;
use radix_trie::Memory;
use std::alloc::AllocError;

mod family;
mod reading;
mod writing;

pub(crate) use family::ImageFamily;
pub(crate) use reading::opened;
pub(crate) use writing::image_of_routes;

/// Why bytes aren't opened.
#[derive(Debug, Clone, Copy, PartialEq, Eq)]
pub enum OpenFault {
    /// An allocation fails.
    Memory,
    /// They are no image of the family.
    Image(ImageError),
    /// The row at this index, from 0, points to no hop.
    Hop(usize),
}

/// Why no image is written.
#[derive(Debug, Clone, Copy, PartialEq, Eq)]
pub enum WriteFault {
    /// An allocation fails.
    Memory,
    /// There are 2^32 routes or more, or of IPv4 the hops take so many bytes.
    Full,
}

impl From<AllocError> for WriteFault {
    ghost use Rattle.std.specs.Prelude.{◌≡◌};
    ghost use Rattle.route_tool.specs.declared.images.WriteFault.TheVariants.{Memory as memory};

    ghost from_gives = { λ _ e. e ≡ memory };

    fn from(_refused: AllocError) -> WriteFault {
        WriteFault::Memory
    }
}

impl From<Memory> for WriteFault {
    ghost use Rattle.std.specs.Prelude.{◌≡◌};
    ghost use Rattle.route_tool.specs.declared.images.WriteFault.TheVariants.{Memory as memory};

    ghost from_gives = { λ _ e. e ≡ memory };

    fn from(_refused: Memory) -> WriteFault {
        WriteFault::Memory
    }
}

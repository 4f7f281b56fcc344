//! Blocks of addresses.
ghost use Rattle.std.specs.Prelude.{◌≡◌, ◌+◌, ◌-◌, ◌*◌, ◌^◌, ◌<◌, ◌≤◌};

/// The addresses of `width` bits that agree in all but their last `free`; the number of the bits in
/// which they agree tells the block.
#[derive(Clone, Copy)]
pub(super) struct Block {
    pub width: u8,
    pub free: u8,
    pub number: u128,
    ghost no_wider: { width ≤ 128 },
    ghost within: { free ≤ width },
    ghost fits: { number < 2 ^ (width - free) },
}

impl Block {
    /// The block of all addresses of so many bits.
    pub(super) fn all(width: u8) -> Block
        requires { width ≤ 128 }
        ensures width { result.width ≡ width }
        ensures free { result.free ≡ width }
        ensures number { result.number ≡ 0 }
    {
        Block {
            width,
            free: width,
            number: 0,
        }
    }

    /// How many first bits the addresses share.
    pub(super) fn bits(self) -> u8
        ensures { result ≡ self.width - self.free }
    {
        self.width - self.free
    }

    /// The first address of the block.
    pub(super) fn first(self) -> u128
        ensures { result ≡ self.number * 2 ^ self.free }
    {
        if self.free == 128 {
            0
        } else {
            self.number << self.free
        }
    }

    /// The half with the lower addresses.
    pub(super) fn low(self) -> Block
        requires { 0 < self.free }
        ensures width { result.width ≡ self.width }
        ensures free { result.free ≡ self.free - 1 }
        ensures number { result.number ≡ 2 * self.number }
    {
        Block {
            width: self.width,
            free: self.free - 1,
            number: 2 * self.number,
        }
    }

    /// The half with the higher addresses.
    pub(super) fn high(self) -> Block
        requires { 0 < self.free }
        ensures width { result.width ≡ self.width }
        ensures free { result.free ≡ self.free - 1 }
        ensures number { result.number ≡ 2 * self.number + 1 }
    {
        Block {
            width: self.width,
            free: self.free - 1,
            number: 2 * self.number + 1,
        }
    }
}

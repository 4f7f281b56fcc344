//! The families of addresses.
ghost use Rattle.std.specs.Prelude.{◌≡◌, Bool, false, refl};
ghost use Rattle.flat_routes.specs.Images.{width};

use radix_keys::Address;
use std::net::{Ipv4Addr, Ipv6Addr};

/// A family of addresses, of whose networks there are images: `Ipv4Addr` or `Ipv6Addr`.
pub trait Family: Address {
    // Whether it is IPv6.
    ghost WIDE: { Bool };

    /// Whether it is IPv6.
    const WIDE: bool;

    ghost wide_bits: { width WIDE ≡ Self.BITS };
}

impl Family for Ipv4Addr {
    ghost WIDE = { false };

    ghost wide_bits = { refl };

    const WIDE: bool = false;
}

impl Family for Ipv6Addr {
    ghost use Rattle.std.specs.Prelude.{true, refl};

    ghost WIDE = { true };

    ghost wide_bits = { refl };

    const WIDE: bool = true;
}

//! Networks as keys: the addresses that agree in their first bits (RFC 4632, RFC 4291).
ghost use Rattle.std.specs.Prelude.{◌≡◌, ◌↔◌, ◌*◌, ◌/◌, ◌^◌, ◌≤◌, IfSome, IsSome, IsTrue, ⊤, MatchOption};
ghost use Rattle.radix_keys.specs.Networks.{Net, IsBase, AgreeIn};

use std::alloc::AllocError;
use std::marker::Model;
use std::net::{Ipv4Addr, Ipv6Addr};

mod address;
mod key;
mod order;
mod text;

pub use address::Address;
pub use text::NetworkParseError;

/// The addresses of a family that agree in their first bits. The base is the first of them: each of
/// its other bits is 0.
///
/// # Examples
///
/// ```
/// # use nifazombi::{radix_trie::Trie, rattle_std::alloc::Global};
/// # use std::net::Ipv4Addr;
/// use nifazombi::radix_keys::{Ipv4Network, Network};
///
/// let mut hops: Trie<Ipv4Network, u32> = Trie::new(Global);
/// hops.insert("10.0.0.0/8".parse()?, 1)?;
/// let address = Network::host(Ipv4Addr::new(10, 1, 2, 3));
/// assert_eq!(hops.get_ancestor_value(&address)?, Some(&1));
/// # Ok::<(), Box<dyn std::error::Error>>(())
/// ```
#[derive(Drop)]
pub struct Network<A: Address> {
    base: A,
    bits: u8,
}

impl<A: Address> Model for Network<A> {
    ghost Value = { Net A };

    ghost view = { λ n. record { base = n.base; bits = n.bits } };

    ghost inverse = { λ n. record { base = n.base; bits = n.bits } };

    ghost invariant = { λ n. IsBase A.BITS n.bits (A.number n.base) };
}

/// A network of IPv4 addresses.
pub type Ipv4Network = Network<Ipv4Addr>;

/// A network of IPv6 addresses.
pub type Ipv6Network = Network<Ipv6Addr>;

/// The number without its last bits.
fn without_last(number: u128, bits: u8) -> u128
    requires { bits ≤ 128 }
    ensures { result ≡ number / 2 ^ bits }
{
    if bits == 128 { 0 } else { number >> bits }
}

/// The number with 0 for its last bits.
fn with_last_cleared(number: u128, bits: u8) -> u128
    requires { bits ≤ 128 }
    ensures { result ≡ number / 2 ^ bits * 2 ^ bits }
{
    if bits == 128 {
        0
    } else {
        (number >> bits) * (1 << bits)
    }
}

impl<A: Address> Network<A> {
    /// The network of the first `bits` bits of its base; None if the address has fewer bits, or
    /// another bit of it isn't 0.
    pub fn new(base: A, bits: u8) -> Option<Network<A>>
        ensures { MatchOption result (¬ (IsBase A.BITS bits (A.number base)))
            (λ net. (net.base ≡ base) × (net.bits ≡ bits)
            × IsBase A.BITS bits (A.number base)) }
    {
        if bits > A::BITS {
            return None;
        }
        let number = base.to_number();
        if with_last_cleared(number, A::BITS - bits) == number {
            Some(Network { base, bits })
        } else {
            None
        }
    }

    /// The network of this address alone.
    pub fn host(address: A) -> Network<A>
        ensures { result ≡ record { base = address; bits = A.BITS } }
    {
        // For its clause that the number fits, which the invariant asks for.
        address.to_number();
        Network {
            base: address,
            bits: A::BITS,
        }
    }

    /// The network of the addresses that agree with this one in the first `bits` bits; None if an
    /// address has fewer.
    pub fn around(address: A, bits: u8) -> Option<Network<A>>
        ensures some { IfSome result
            (λ net. (net.bits ≡ bits) × IsBase A.BITS bits (A.number net.base)
            × AgreeIn A.BITS bits (A.number net.base) (A.number address)) }
        ensures none { IsSome result ↔ (bits ≤ A.BITS) }
    {
        if bits > A::BITS {
            return None;
        }
        let first = with_last_cleared(address.to_number(), A::BITS - bits);
        Some(Network {
            base: A::from_number(first),
            bits,
        })
    }

    /// Whether the address is in the network.
    pub fn holds(&self, address: A) -> bool
        ensures { IsTrue result
            ↔ AgreeIn A.BITS self.now.bits (A.number self.now.base) (A.number address) }
    {
        let rest = A::BITS - self.bits;
        without_last(self.base.to_number(), rest) == without_last(address.to_number(), rest)
    }

    /// The first address of the network: each of its bits behind the shared ones is 0.
    pub fn base(&self) -> A
        ensures value { result ≡ self.now.base }
        ensures first { IsBase A.BITS self.now.bits (A.number self.now.base) }
    {
        self.base
    }

    /// How many first bits the addresses share: the prefix length, in bits.
    pub fn bits(&self) -> u8
        ensures { result ≡ self.now.bits }
    {
        self.bits
    }
}

impl<A: Address> Clone for Network<A> {
    ghost is_clone = { λ net copy. copy ≡ net };

    ghost is_infallible = { λ _. ⊤ };

    fn clone(&self) -> Result<Network<A>, AllocError> {
        Ok(*self)
    }
}

impl<A: Address> Copy for Network<A> {}

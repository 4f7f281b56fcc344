//! Addresses of both families by their numbers.
ghost use Rattle.std.specs.Prelude.{◌≡◌, ℕ, ◌^◌, ◌<◌, ◌≤◌, List, MatchOption, Some, refl};
ghost use Rattle.std.proofs.Common.{lit<, lit≤};
ghost use Rattle.std.specs.Net.Addr.{ipv4_bits, ipv6_bits, ipv4_octets, ipv6_segments};
ghost use Rattle.std.specs.Net.Grammar.{IsIpv4Text, IsIpv6Text};
ghost use Rattle.std.specs.Net.Text.{ipv4_text, ipv6_text};
ghost use Rattle.radix_keys.specs.NetworkTexts.{ipv4_once, ipv6_once};

use std::fmt;
use std::net::{Ipv4Addr, Ipv6Addr};

/// An address of one family: `Ipv4Addr` or `Ipv6Addr`.
pub trait Address: Copy + fmt::Display {
    // How many bits an address has.
    ghost BITS: { ℕ };

    // The number of these bits, the first of them the highest.
    ghost number: { Self → ℕ };

    // Whether a text writes the address.
    ghost is_text: { List ℕ → Self → Type 0 };

    // What is written of an address.
    ghost text: { Self → List ℕ };

    /// How many bits an address has, 128 at most.
    const BITS: u8;

    /// The number of the address's bits, the first of them the highest.
    fn to_number(self) -> u128
        ensures value { result ≡ number self }
        ensures fits { result < 2 ^ BITS };

    /// The address with the bits of this number.
    fn from_number(n: u128) -> Self
        requires { n < 2 ^ BITS }
        ensures { number result ≡ n };

    /// The address that the text writes, if it writes one.
    fn parse(given: &str) -> Option<Self>
        ensures { MatchOption result ((a : Self) → ¬ (is_text given.now a)) (is_text given.now) };

    ghost bits_fit: { (0 < BITS) × (BITS ≤ 128) };

    ghost one_address: { (written : List ℕ) (a b : Self) → is_text written a → is_text written b
        → number a ≡ number b };

    ghost writes: { (a : Self) → Self.output a ≡ Some (text a) };
}

impl Address for Ipv4Addr {
    ghost BITS = { 32 };

    ghost number = { ipv4_bits };

    ghost is_text = { IsIpv4Text };

    ghost text = { λ a. ipv4_text (ipv4_octets a) };

    ghost bits_fit = { (lit< tt, lit≤ tt) };

    ghost one_address = { ipv4_once };

    ghost writes = { λ _. refl };

    const BITS: u8 = 32;

    fn to_number(self) -> u128 {
        self.to_bits() as u128
    }

    fn from_number(n: u128) -> Ipv4Addr {
        Ipv4Addr::from_bits(n as u32)
    }

    fn parse(given: &str) -> Option<Ipv4Addr> {
        match given.parse() {
            Ok(address) => Some(address),
            Err(_) => None,
        }
    }
}

impl Address for Ipv6Addr {
    ghost BITS = { 128 };

    ghost number = { ipv6_bits };

    ghost is_text = { IsIpv6Text };

    ghost text = { λ a. ipv6_text (ipv6_segments a) };

    ghost bits_fit = { (lit< tt, lit≤ tt) };

    ghost one_address = { ipv6_once };

    ghost writes = { λ _. refl };

    const BITS: u8 = 128;

    fn to_number(self) -> u128 {
        self.to_bits()
    }

    fn from_number(n: u128) -> Ipv6Addr {
        Ipv6Addr::from_bits(n)
    }

    fn parse(given: &str) -> Option<Ipv6Addr> {
        match given.parse() {
            Ok(address) => Some(address),
            Err(_) => None,
        }
    }
}

//! Networks in a file: how many bits the addresses share, and then the bytes of the base, the
//! highest first.
ghost use Rattle.std.specs.Prelude.{◌≡◌, ◌∷◌};
ghost use Rattle.std.specs.Net.Addr.{ipv4_bits, ipv4_octets, ipv6_bits, ipv6_octets};
ghost use Rattle.std.specs.declared.net.ipv6_addr.Ipv6Addr.{Ipv6Addr};
ghost use Rattle.frozen_trie.specs.FileItems.{IsNetItem, same_parts};

use crate::file::item::{FileItem, append};
use radix_keys::{Memory, Network};
use std::alloc::Global;
use std::net::{Ipv4Addr, Ipv6Addr};

impl FileItem for Network<Ipv4Addr> {
    ghost file_bytes = { λ n. n.bits ∷ ipv4_octets n.base };

    ghost is_item = { λ n. IsNetItem 32 (ipv4_octets n.base) n.bits (ipv4_bits n.base) };

    ghost is_same = { λ a b. (a.bits ≡ b.bits) × (ipv4_octets a.base ≡ ipv4_octets b.base) };

    ghost told = { λ _ _ _ _ e. same_parts e };

    fn append_to(&self, out: &mut Vec<u8>) -> Result<(), Memory> {
        // For its clause that the base has 0 behind the first bits, as that of each network has.
        let Some(_) = Network::new(self.base(), self.bits()) else {
            return Err(Memory);
        };
        append(&[self.bits()], out)?;
        append(&self.base().octets(), out)
    }

    fn of_file(bytes: &[u8], _alloc: Global) -> Result<Option<Network<Ipv4Addr>>, Memory> {
        let Some((bits, octets)) = bytes.split_first() else {
            return Ok(None);
        };
        let Ok(octets) = <[u8; 4]>::try_from(octets) else {
            return Ok(None);
        };
        match Network::new(Ipv4Addr::from_octets(octets), *bits) {
            Some(network) => Ok(Some(network)),
            None => Ok(None),
        }
    }
}

impl FileItem for Network<Ipv6Addr> {
    ghost file_bytes = { λ n. n.bits ∷ ipv6_octets n.base };

    ghost is_item = { λ n. IsNetItem 128 (ipv6_octets n.base) n.bits (ipv6_bits n.base) };

    ghost is_same = { λ a b. (a.bits ≡ b.bits) × (ipv6_octets a.base ≡ ipv6_octets b.base) };

    ghost told = { λ _ _ _ _ e. same_parts e };

    fn append_to(&self, out: &mut Vec<u8>) -> Result<(), Memory> {
        // For its clause that the base has 0 behind the first bits, as that of each network has.
        let Some(_) = Network::new(self.base(), self.bits()) else {
            return Err(Memory);
        };
        append(&[self.bits()], out)?;
        append(&self.base().octets(), out)
    }

    fn of_file(bytes: &[u8], _alloc: Global) -> Result<Option<Network<Ipv6Addr>>, Memory> {
        let Some((bits, octets)) = bytes.split_first() else {
            return Ok(None);
        };
        let Ok(octets) = <[u8; 16]>::try_from(octets) else {
            return Ok(None);
        };
        match Network::new(ipv6_of(octets), *bits) {
            Some(network) => Ok(Some(network)),
            None => Ok(None),
        }
    }
}

/// The address of these bytes, the highest first.
fn ipv6_of(octets: [u8; 16]) -> Ipv6Addr
    ensures bytes { ipv6_octets result ≡ octets }
    ensures number { (a : Ipv6Addr) → ipv6_octets a ≡ octets
        → ipv6_bits a ≡ ipv6_bits result }
{
    Ipv6Addr::from_octets(octets)
}

//! Networks as texts: the base, a slash, and how many bits the addresses share (RFC 4632, section
//! 3.1; RFC 4291, section 2.3).
ghost use Rattle.std.specs.Prelude.{◌≡◌, ◌≢◌, ◌<◌, ℕ, MatchOption, Some, codes, decimal};
ghost use Rattle.std.specs.Net.Grammar.{Parses};
ghost use Rattle.radix_keys.specs.Networks.{Net, IsNetText, net_text};

use crate::networks::{Address, Network};
use itoa::Buffer;
use std::error::Error;
use std::fmt;
use std::str::FromStr;

/// The text writes no network of the family.
#[derive(Clone, Copy, PartialEq, Eq, Debug)]
pub struct NetworkParseError;

impl fmt::Display for NetworkParseError {
    ghost output = { λ _. Some (codes "not a network") };

    fn fmt<W: fmt::Write>(&self, f: &mut fmt::Formatter<W>) -> fmt::Result {
        f.write_str("not a network")
    }
}

impl Error for NetworkParseError {}

/// The number below 256 that the text is the decimal form of: no sign, no leading zero.
fn count(text: &str) -> Option<u8>
    ensures { MatchOption result ((n : ℕ) → n < 256 → text.now ≢ decimal n)
        (λ n. (n < 256) × (text.now ≡ decimal n)) }
{
    let number: u8 = text.parse().ok()?;
    if Buffer::new().format(number) == text {
        Some(number)
    } else {
        None
    }
}

impl<A: Address> Network<A> {
    /// The network that the text writes, if it writes one.
    fn parse(text: &str) -> Option<Network<A>>
        ensures { MatchOption result
            ((net : Net A) → ¬ (IsNetText A.BITS A.number A.is_text text.now net))
            (IsNetText A.BITS A.number A.is_text text.now) }
    {
        let (address, digits) = text.split_once('/')?;
        let base = A::parse(address)?;
        let bits = count(digits)?;
        Network::new(base, bits)
    }
}

/// A text is read in the strict form alone: no leading zero, and no bit of the base after the
/// shared ones.
impl<A: Address> FromStr for Network<A> {
    type Err = NetworkParseError;

    ghost from_str_gives = { Parses (IsNetText A.BITS A.number A.is_text) };

    fn from_str(text: &str) -> Result<Network<A>, NetworkParseError> {
        match Network::parse(text) {
            Some(network) => Ok(network),
            None => Err(NetworkParseError),
        }
    }
}

/// The base, a slash and the count of bits; an IPv6 address is written as RFC 5952 has it.
impl<A: Address> fmt::Display for Network<A> {
    ghost output = { λ net. Some (net_text A.text net) };

    fn fmt<W: fmt::Write>(&self, f: &mut fmt::Formatter<W>) -> fmt::Result {
        write!(f, "{}/{}", self.base, self.bits)
    }
}

impl<A: Address> fmt::Debug for Network<A> {
    ghost debug_output = { λ net. Some (net_text A.text net) };

    fn fmt<W: fmt::Write>(&self, f: &mut fmt::Formatter<W>) -> fmt::Result {
        fmt::Display::fmt(self, f)
    }
}

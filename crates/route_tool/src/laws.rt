//! Laws of the definitions, and worked words.
ghost use Rattle.std.specs.Prelude.{◌≡◌, ℕ, List, [], ◌∷◌, codes};
ghost use Rattle.std.specs.Net.Addr.{IsIpv4Addr, IsIpv6Addr, ipv4_bits, ipv4_octets, ipv6_bits, ipv6_segments};
ghost use Rattle.std.specs.Net.Grammar.{IsIpv4Text, IsIpv6Text};
ghost use Rattle.std.specs.Net.Text.{ipv4_text, ipv6_text};
ghost use Rattle.std.specs.Str.{IsUtf8};
ghost use Rattle.radix_keys.specs.Networks.{IsBase, IsNetText, Net, net_text};
ghost use Rattle.route_tool.specs.Answers.{ipv4_addition, ipv6_addition};
ghost use Rattle.route_tool.specs.Requests.{Add, Asked, IsHop, IsRequest, IsTarget, V4, V6};

use std::net::{Ipv4Addr, Ipv6Addr};

/// A line asks for one thing at most.
pub fn lines_ask_for_one_thing()
    ensures { (line : List ℕ) (c d : Asked) → IsRequest line c → IsRequest line d → c ≡ d }
{}

/// The text that is written of a network is read as that network.
pub fn networks_are_read_back()
    ensures ipv4 { (net : Net Ipv4Addr) → IsIpv4Addr net.base
        → IsBase 32 net.bits (ipv4_bits net.base)
        → IsNetText 32 ipv4_bits IsIpv4Text (net_text (λ a. ipv4_text (ipv4_octets a)) net) net }
    ensures ipv6 { (net : Net Ipv6Addr) → IsIpv6Addr net.base
        → IsBase 128 net.bits (ipv6_bits net.base)
        → IsNetText 128 ipv6_bits IsIpv6Text (net_text (λ a. ipv6_text (ipv6_segments a)) net) net }
{}

/// The line that `dump` writes of a route asks for the addition of that very route.
pub fn dumped_routes_are_added()
    ensures ipv4 { (net : Net Ipv4Addr) (hop : List ℕ) → IsIpv4Addr net.base
        → IsBase 32 net.bits (ipv4_bits net.base) → IsHop hop → IsUtf8 hop
        → IsRequest (ipv4_addition (net, hop)) (V4 (Add net hop)) }
    ensures ipv6 { (net : Net Ipv6Addr) (hop : List ℕ) → IsIpv6Addr net.base
        → IsBase 128 net.bits (ipv6_bits net.base) → IsHop hop → IsUtf8 hop
        → IsRequest (ipv6_addition (net, hop)) (V6 (Add net hop)) }
{}

/// What is a hop, and what isn't one.
pub fn worked_hops()
    ensures space_inside { IsHop (codes "a b") }
    ensures space_before { ¬ (IsHop (codes " a")) }
    ensures space_behind { ¬ (IsHop (codes "a ")) }
    ensures empty { ¬ (IsHop []) }
{}

/// What is a network of IPv4 addresses, and what isn't one.
pub fn worked_networks()
    ensures address_alone { IsTarget 32 ipv4_bits IsIpv4Text (codes "192.0.2.1")
        (record { base = record { octets = 192 ∷ 0 ∷ 2 ∷ 1 ∷ [] }; bits = 32 }) }
    ensures host_bits { (net : _) → ¬ (IsTarget 32 ipv4_bits IsIpv4Text (codes "10.1.2.3/8") net) }
    ensures bits { (net : _) → ¬ (IsTarget 32 ipv4_bits IsIpv4Text (codes "1.2.3.4/33") net) }
    ensures zero { (net : _) → ¬ (IsTarget 32 ipv4_bits IsIpv4Text (codes "1.2.3.4/08") net) }
    ensures all { IsTarget 32 ipv4_bits IsIpv4Text (codes "default")
        (record { base = record { octets = 0 ∷ 0 ∷ 0 ∷ 0 ∷ [] }; bits = 0 }) }
    ensures ipv4_alone { (net : _) → ¬ (IsTarget 128 ipv6_bits IsIpv6Text (codes "default") net) }
{}

//! Laws of the definitions: networks in order by their lists of bits, and rows by the maps of them.
ghost use Rattle.std.specs.FinMap as map;
ghost use Rattle.std.specs.Prelude.{◌≡◌, ◌↔◌, ℕ, [], List};
ghost use Rattle.nibble_map.specs.Lists.{Each, IsBefore, IsRising};
ghost use Rattle.nibble_map.specs.Maps.{PairMap};
ghost use Rattle.radix_keys.specs.Bits.{first_bits};
ghost use Rattle.radix_keys.specs.Networks.{IsBase, Net};
ghost use Rattle.radix_trie.specs.Building.{with_pairs};
ghost use Rattle.radix_trie.specs.Views.{pairs_below};
ghost use Rattle.frozen_routes.specs.Routes.{AreRowsInOrder, IsEarlier};
ghost use Rattle.frozen_trie.specs.Frozen.{codes_of};
ghost use Rattle.frozen_networks.specs.Networks.{IsMapOfNetworks, IsNetwork, network_code, network_map};

/// Networks rise exactly as their lists of bits do: of two networks the one that a table has in
/// front is the one whose list a trie has in front, and rows are in order where their lists rise.
pub fn networks_rise_as_their_bits<A, V>()
    ensures earlier { (w m k n j : ℕ) → IsBase w k m → IsBase w j n
        → IsEarlier m k n j ↔ IsBefore (first_bits w m k) (first_bits w n j) }
    ensures rising { (w : ℕ) (number : A → ℕ) (rows : List (Net A × V))
        → AreRowsInOrder w number rows
        ↔ (Each (λ r. IsNetwork w number r.0) rows
        × IsRising (codes_of (network_code w number) rows)) }
{}

/// The rows of a map's networks are the map's again, and rows in order are those of their map,
/// which is made by storing one row after the other.
pub fn rows_and_maps_go_back<A, V>()
    ensures rows { (w : ℕ) (number : A → ℕ) (rows : List (Net A × V))
        → AreRowsInOrder w number rows → pairs_below (network_map w number rows) [] ≡ rows }
    ensures map { (w : ℕ) (number : A → ℕ) (m : PairMap (Net A) V)
        → IsMapOfNetworks w number m → network_map w number (pairs_below m []) ≡ m }
    ensures in_order { (w : ℕ) (number : A → ℕ) (m : PairMap (Net A) V)
        → IsMapOfNetworks w number m → AreRowsInOrder w number (pairs_below m []) }
    ensures stored { (w : ℕ) (number : A → ℕ) (rows : List (Net A × V))
        → AreRowsInOrder w number rows
        → with_pairs (network_code w number) map.empty rows ≡ network_map w number rows }
{}

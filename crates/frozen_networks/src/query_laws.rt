//! The queries of a trie of networks are those of a table of the same rows.
ghost use Rattle.std.specs.FinMap as map;
ghost use Rattle.std.specs.List.{filter};
ghost use Rattle.std.specs.Prelude.{◌≡◌, ◌↔◌, ◌<◌, ◌^◌, ℕ, List, Option, Some, length};
ghost use Rattle.nibble_map.specs.Maps.{value_at};
ghost use Rattle.radix_keys.specs.Bits.{first_bits};
ghost use Rattle.radix_keys.specs.Networks.{Net};
ghost use Rattle.radix_trie.specs.Views.{IsPairAbove, pairs_above, pairs_below};
ghost use Rattle.frozen_routes.specs.Routes.{AreRowsInOrder, IsFoundRow, IsLongestAround, IsLongestRow, IsValueOf, is_around, is_inside};
ghost use Rattle.frozen_networks.specs.Networks.{IsNetwork, network_code, network_map};

/// The map of rows in order answers as the table of them does: the row and the value of a network,
/// the rows within a network, those whose networks hold all of one, the longest of these, and of
/// those that hold an address, and how many rows there are. So a trie of networks and a table of
/// its rows return the same. Each row stands at its network's bits.
pub fn maps_answer_as_tables<A, V>()
    ensures stored { (w : ℕ) (number : A → ℕ) (rows : List (Net A × V)) (e : List ℕ)
        (r : Net A × V) → AreRowsInOrder w number rows
        → map.get (network_map w number rows) e ≡ Some r → e ≡ network_code w number r.0 }
    ensures row { (w : ℕ) (number : A → ℕ) (rows : List (Net A × V)) (net : Net A)
        (found : Option (Net A × V)) → AreRowsInOrder w number rows → IsNetwork w number net
        → IsFoundRow number rows net found
        ↔ (found ≡ map.get (network_map w number rows) (network_code w number net)) }
    ensures value { (w : ℕ) (number : A → ℕ) (rows : List (Net A × V)) (net : Net A)
        (found : Option V) → AreRowsInOrder w number rows → IsNetwork w number net
        → IsValueOf number rows net found
        ↔ (found ≡ value_at (network_map w number rows) (network_code w number net)) }
    ensures below { (w : ℕ) (number : A → ℕ) (rows : List (Net A × V)) (net : Net A)
        → AreRowsInOrder w number rows → IsNetwork w number net
        → pairs_below (network_map w number rows) (network_code w number net)
        ≡ filter (is_inside w number net) rows }
    ensures above { (w : ℕ) (number : A → ℕ) (rows : List (Net A × V)) (net : Net A)
        → AreRowsInOrder w number rows → IsNetwork w number net
        → pairs_above (network_map w number rows) (network_code w number net)
        ≡ filter (is_around w number net) rows }
    ensures longest { (w : ℕ) (number : A → ℕ) (rows : List (Net A × V)) (net : Net A)
        (found : Option (Net A × V)) → AreRowsInOrder w number rows → IsNetwork w number net
        → IsLongestAround w number rows net found
        ↔ IsPairAbove (network_map w number rows) (network_code w number net) found }
    ensures address { (w : ℕ) (number : A → ℕ) (rows : List (Net A × V)) (n : ℕ)
        (found : Option (Net A × V)) → AreRowsInOrder w number rows → n < 2 ^ w
        → IsLongestRow w number rows n found
        ↔ IsPairAbove (network_map w number rows) (first_bits w n w) found }
    ensures count { (w : ℕ) (number : A → ℕ) (rows : List (Net A × V))
        → AreRowsInOrder w number rows
        → map.len (network_map w number rows) ≡ length rows }
{}

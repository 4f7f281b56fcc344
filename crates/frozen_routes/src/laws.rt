//! Laws of the definitions: networks and rows by the lists of bits that a trie stores them at.
ghost use Rattle.std.specs.Prelude.{◌≡◌, ◌↔◌, ℕ, ◌^◌, ◌<◌, ◌≤◌, List, Option, length};
ghost use Rattle.std.specs.List.{filter};
ghost use Rattle.nibble_map.specs.Lists.{IsPrefix};
ghost use Rattle.radix_keys.specs.Bits.{first_bits};
ghost use Rattle.radix_keys.specs.Networks.{AgreeIn, IsBase, Net};
ghost use Rattle.frozen_routes.specs.Routes.{AreRowsInOrder, IsLongestAround, IsLongestRow, is_around, is_holder};
ghost use Rattle.frozen_routes.specs.Nearest.{IsNearestRow};

/// A network holds an address exactly where the list of the bits that the network's addresses share
/// is a prefix of the list of all the address's bits; and all addresses of another network exactly
/// where it is one of the list of that network's bits: where it holds the first of them, and has no
/// more bits. As many bits as the network has are in its list.
pub fn networks_hold_by_prefix()
    ensures holds { (w k m n : ℕ) → IsBase w k m → n < 2 ^ w
        → AgreeIn w k m n ↔ IsPrefix (first_bits w m k) (first_bits w n w) }
    ensures around { (w k m j n : ℕ) → IsBase w k m → IsBase w j n
        → (AgreeIn w k m n × (k ≤ j)) ↔ IsPrefix (first_bits w m k) (first_bits w n j) }
    ensures all { (w k m j n : ℕ) → IsBase w k m → IsBase w j n
        → (AgreeIn w k m n × (k ≤ j))
        ↔ ((a : ℕ) → a < 2 ^ w → AgreeIn w j n a → AgreeIn w k m a) }
    ensures count { (w k m : ℕ) → IsBase w k m → length (first_bits w m k) ≡ k }
{}

/// The row that `longest_match` returns is the one that a trie of the same rows finds nearest to
/// the list of the query's bits: the one at the longest of the stored lists that are prefixes of
/// it. There is one answer at most.
pub fn longest_rows_are_nearest<A, V>()
    ensures nearest { (w : ℕ) (number : A → ℕ) (rows : List (Net A × V)) (net : Net A)
        (found : Option (Net A × V)) → AreRowsInOrder w number rows
        → IsBase w net.bits (number net.base) → IsLongestAround w number rows net found
        ↔ IsNearestRow w number rows (first_bits w (number net.base) net.bits) found }
    ensures one { (w : ℕ) (number : A → ℕ) (rows : List (Net A × V)) (net : Net A)
        (found other : Option (Net A × V)) → AreRowsInOrder w number rows
        → IsLongestAround w number rows net found → IsLongestAround w number rows net other
        → found ≡ other }
{}

/// An address asks as the network of it alone: the rows whose networks hold all of that are those
/// whose networks hold the address, and so is the longest of them.
pub fn addresses_ask_as_networks<A, V>()
    ensures longest { (w : ℕ) (number : A → ℕ) (rows : List (Net A × V)) (net : Net A)
        (found : Option (Net A × V)) → AreRowsInOrder w number rows → net.bits ≡ w
        → IsLongestAround w number rows net found
        ↔ IsLongestRow w number rows (number net.base) found }
    ensures holders { (w : ℕ) (number : A → ℕ) (rows : List (Net A × V)) (net : Net A)
        → AreRowsInOrder w number rows → net.bits ≡ w
        → filter (is_around w number net) rows
        ≡ filter (is_holder w number (number net.base)) rows }
{}

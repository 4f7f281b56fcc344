//! When maps with equal maps by keys are equal.
ghost use Rattle.std.specs.Cmp.Lexicographic.{pointwise};
ghost use Rattle.std.specs.Int.{Width, byte_len};
ghost use Rattle.std.specs.Prelude.{◌≡◌, ◌<◌, ◌^◌, ℕ, Bool, IsTrue, List, nat_eq, true};
ghost use Rattle.nibble_map.specs.MapQueries.{IsSame};
ghost use Rattle.nibble_map.specs.Maps.{PairMap};
ghost use Rattle.nibble_map.specs.Nibbles.{nibbles};
ghost use Rattle.radix_keys.specs.Integers.{unsigned_key};
ghost use Rattle.radix_trie.specs.Keys.{IsKeyed};
ghost use Rattle.keyed_maps.specs.KeyedMaps.{EncodesAlike, keyed_map, stored_key};

use radix_trie::TrieKey;

/// Extensionality. Two maps that answer each key alike are the same, as `==` of tries has it. They
/// are equal where the stored keys are too, and where equal keys are one value, as numbers are. So
/// their tries have one tree (`equal_lists_have_one_tree`).
pub fn equal_keyed_maps_are_equal<K: TrieKey, V>()
    ensures same { (eq : V → V → Bool) → ((v : V) → IsTrue (eq v v)) → (m n : PairMap K V)
        → IsKeyed K.encoding K.is_value m → IsKeyed K.encoding K.is_value n
        → ((k : K) → K.is_value k → keyed_map K.encoding m k ≡ keyed_map K.encoding n k)
        → IsSame eq m n }
    ensures equal { (m n : PairMap K V)
        → IsKeyed K.encoding K.is_value m → IsKeyed K.encoding K.is_value n
        → ((k : K) → K.is_value k → keyed_map K.encoding m k ≡ keyed_map K.encoding n k)
        → ((k : K) → K.is_value k → stored_key K.encoding m k ≡ stored_key K.encoding n k)
        → m ≡ n }
    ensures equal_plain { ((x y : K) → K.is_value x → K.is_value y → K.eq x y ≡ true → x ≡ y)
        → (m n : PairMap K V)
        → IsKeyed K.encoding K.is_value m → IsKeyed K.encoding K.is_value n
        → ((k : K) → K.is_value k → keyed_map K.encoding m k ≡ keyed_map K.encoding n k)
        → m ≡ n }
{}

/// The same of values of a type whose `==` is an equivalence: two maps that answer each key alike
/// are the same by it.
pub fn alike_keyed_maps_are_same<K: TrieKey, V: Eq>()
    ensures { (m n : PairMap K V)
        → IsKeyed K.encoding K.is_value m → IsKeyed K.encoding K.is_value n
        → ((k : K) → K.is_value k → keyed_map K.encoding m k ≡ keyed_map K.encoding n k)
        → IsSame V.eq m n }
{
    equal_keyed_maps_are_equal::<K, V>();
}

/// Equal keys have equal encodings, of unsigned numbers and of keys whose encodings are the nibbles
/// of their bytes, as texts.
pub fn equal_keys_are_encoded_alike<K>()
    ensures numbers { (w : Width)
        → EncodesAlike (unsigned_key w) (λ n. n < 256 ^ byte_len w) nat_eq }
    ensures texts { (bytes_of : K → List ℕ)
        → EncodesAlike (λ key. nibbles (bytes_of key)) (λ _. Unit {0})
        (λ x y. pointwise nat_eq (bytes_of x) (bytes_of y)) }
{}

//! What holds of every frozen form, however it was made.
ghost use Rattle.std.specs.Cmp.Lexicographic.{slice_cmp};
ghost use Rattle.std.specs.FinMap as map;
ghost use Rattle.std.specs.Ordering.{nat_cmp};
ghost use Rattle.std.specs.Prelude.{◌≡◌, ◌↔◌, ◌⊎◌, ◌<◌, ◌^◌, ℕ, AllPairs, Contains, List, Some, map as each};
ghost use Rattle.std.specs.declared.cmp.Ordering.TheVariants.{Less};
ghost use Rattle.std.specs.declared.ops.Bound.TheVariants.{Excluded, Included, Unbounded};
ghost use Rattle.nibble_map.specs.Lists.{Each, IsBefore, IsPrefix, IsRising};
ghost use Rattle.nibble_map.specs.Nibbles.{nibbles};
ghost use Rattle.radix_trie.specs.Keys.{IsKeyed};
ghost use Rattle.radix_trie.specs.Views.{pairs_above, pairs_below, pairs_within};
ghost use Rattle.frozen_trie.specs.Files.{IsFileFault, IsFileable, IsTextFault, IsTextFileable, file_of, text_file};

use crate::file::{FileItem, FileWhy};
use crate::frozen::FrozenTrie;
use crate::texts::FrozenTexts;
use radix_keys::TrieKey;

/// In each frozen trie a key stands at its encoding. So the keys of a slice `below` a list have
/// encodings that begin with it, and it misses none; `longest_match` and `common_prefixes` find
/// those that are a prefix of it; a `range` that begins with a list, or behind it, those that are
/// the list or come after it; and the encodings rise. Of a type all of whose keys are values no
/// more is needed for the laws by keys.
pub fn frozen_stands_at_its_encodings<K: TrieKey, V>(frozen: &FrozenTrie<K, V>)
    ensures stored { (e : List ℕ) (p : K × V) → map.get frozen.now e ≡ Some p
        → e ≡ K.encoding p.0 }
    ensures begun { (e : List ℕ) → Each (λ key. IsPrefix e (K.encoding key))
        (each (λ p. p.0) (pairs_below frozen.now e)) }
    ensures rising { (e : List ℕ)
        → IsRising (each (λ p. K.encoding p.0) (pairs_below frozen.now e)) }
    ensures below { (e : List ℕ) (p : K × V) → Contains (pairs_below frozen.now e) p
        ↔ (IsPrefix e (K.encoding p.0) × (map.get frozen.now (K.encoding p.0) ≡ Some p)) }
    ensures above { (e : List ℕ) (p : K × V) → Contains (pairs_above frozen.now e) p
        ↔ (IsPrefix (K.encoding p.0) e × (map.get frozen.now (K.encoding p.0) ≡ Some p)) }
    ensures from { (e q : List ℕ) (p : K × V)
        → Contains (pairs_within frozen.now e (Included q) Unbounded) p
        ↔ (Contains (pairs_below frozen.now e) p
        × ((K.encoding p.0 ≡ q) ⊎ IsBefore q (K.encoding p.0))) }
    ensures after { (e q : List ℕ) (p : K × V)
        → Contains (pairs_within frozen.now e (Excluded q) Unbounded) p
        ↔ (Contains (pairs_below frozen.now e) p × IsBefore q (K.encoding p.0)) }
    ensures keyed { ((key : K) → K.is_value key) → IsKeyed K.encoding K.is_value frozen.now }
{
    frozen.is_of_its_pairs();
}

/// In each map from byte strings a key that is found is the bytes that were asked for. The keys of
/// `below` begin with the bytes, and it misses none; those of `common_prefixes` are prefixes of
/// them; and the keys rise in the order of their bytes.
pub fn texts_stand_at_their_bytes<V>(texts: &FrozenTexts<V>)
    ensures stored { (e : List ℕ) (p : List ℕ × V) → map.get texts.now e ≡ Some p
        → e ≡ nibbles p.0 }
    ensures found { (bytes : List ℕ) (p : List ℕ × V)
        → map.get texts.now (nibbles bytes) ≡ Some p → p.0 ≡ bytes }
    ensures below { (start : List ℕ) (p : List ℕ × V)
        → Contains (pairs_below texts.now (nibbles start)) p
        ↔ (IsPrefix start p.0 × (map.get texts.now (nibbles p.0) ≡ Some p)) }
    ensures above { (bytes : List ℕ) (p : List ℕ × V)
        → Contains (pairs_above texts.now (nibbles bytes)) p
        ↔ (IsPrefix p.0 bytes × (map.get texts.now (nibbles p.0) ≡ Some p)) }
    ensures rising { (start : List ℕ) → AllPairs (λ x y. slice_cmp nat_cmp x y ≡ Less)
        (each (λ p. p.0) (pairs_below texts.now (nibbles start))) }
{
    texts.is_of_its_pairs();
}

/// The bytes of a file that `FrozenTrie::write` makes have no fault: a call that reads them fails
/// only for memory, or where a read fails. Keys that are the same have to have one encoding.
pub fn files_have_no_fault<K: TrieKey + FileItem, V: FileItem>(frozen: &FrozenTrie<K, V>)
    ensures { ((x y : K) → K.is_same x y → K.encoding x ≡ K.encoding y)
        → IsFileable K.file_bytes V.file_bytes K.is_item V.is_item K.encoding frozen.now
        → map.len frozen.now < 2 ^ 32 → (why : FileWhy) (pair place : ℕ)
        → IsFileFault K.file_bytes V.file_bytes K.is_item V.is_item K.encoding why
        (file_of K.file_bytes V.file_bytes frozen.now) pair place
        → (why ≡ FileWhy.Memory) ⊎ (why ≡ FileWhy.Read) }
{
    frozen.is_of_its_pairs();
}

/// The same of a file that `FrozenTexts::write` makes.
pub fn text_files_have_no_fault<V: FileItem>(texts: &FrozenTexts<V>)
    ensures { IsTextFileable V.file_bytes V.is_item texts.now → map.len texts.now < 2 ^ 32
        → (why : FileWhy) (pair place : ℕ) → IsTextFault V.file_bytes V.is_item why
        (text_file V.file_bytes texts.now) pair place
        → (why ≡ FileWhy.Memory) ⊎ (why ≡ FileWhy.Read) }
{
    texts.is_of_its_pairs();
}

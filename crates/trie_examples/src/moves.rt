//! All names below one are moved to below another, and nothing else changes.
ghost use Rattle.std.specs.Prelude.{◌≡◌, ◌++◌, ℕ, List, IfOk, string_bytes};
ghost use Rattle.radix_trie.specs.Lists.{IsPrefix};
ghost use Rattle.radix_trie.specs.Maps.{value_at};
ghost use Rattle.radix_trie.specs.Nibbles.{nibbles};

use radix_trie::{
    InsertError, Trie, TrieError, edits_change_one_answer, nibbles_keep_prefixes,
    rest_answers_elsewhere,
};
use std::alloc::{AllocError, Global};

/// A text and another one behind it.
fn joined(alloc: Global, above: &str, rest: &str) -> Result<String, AllocError>
    ensures { IfOk result (λ name. string_bytes name ≡ above.now ++ rest.now) }
{
    let mut name = String::new(alloc);
    name.push_str(above)?;
    name.push_str(rest)?;
    Ok(name)
}

/// A name below another one.
fn name_below(alloc: Global, above: &str, rest: &str) -> Result<String, AllocError>
    ensures { IfOk result (λ name. IsPrefix (nibbles above.now) (nibbles (string_bytes name))) }
{
    nibbles_keep_prefixes();
    joined(alloc, above, rest)
}

/// Stores a pair. What isn't below a prefix of its name stays.
fn store<V: Drop>(
    all: &mut Trie<String, V>,
    name: String,
    value: V,
) -> Result<Option<V>, InsertError<String, V>>
    ensures { (p q : List ℕ) → IsPrefix p (nibbles (string_bytes name)) → (IsPrefix p q → ⊥)
        → value_at all.new q ≡ value_at all.old q }
{
    edits_change_one_answer::<(String, V)>();
    all.insert(name, value)
}

/// Stores a value below a name. Nothing changes elsewhere.
fn store_below<V: Drop>(
    alloc: Global,
    all: &mut Trie<String, V>,
    above: &str,
    rest: &str,
    value: V,
) -> Result<(), TrieError>
    ensures { (q : List ℕ) → (IsPrefix (nibbles above.now) q → ⊥)
        → value_at all.new q ≡ value_at all.old q }
{
    let name = name_below(alloc, above, rest)?;
    let _ = store(all, name, value)?;
    Ok(())
}

/// Moves all pairs below one name to below another. Where an allocation fails, some may be lost,
/// but none elsewhere.
fn move_below<V: Drop>(
    alloc: Global,
    all: &mut Trie<String, V>,
    from: &str,
    to: &str,
) -> Result<(), TrieError>
    ensures { (q : List ℕ) → (IsPrefix (nibbles from.now) q → ⊥)
        → (IsPrefix (nibbles to.now) q → ⊥)
        → value_at all.new q ≡ value_at all.old q }
{
    rest_answers_elsewhere::<(String, V)>();
    for (key, value) in all.remove_prefix(&from)? {
        let rest = key.as_str().strip_prefix(from).unwrap_or("");
        store_below(alloc, all, to, rest, value)?;
    }
    Ok(())
}

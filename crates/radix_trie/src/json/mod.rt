//! Tries of texts to and from JSON.
ghost use Rattle.std.specs.Prelude.{◌≡◌, ◌≢◌, ◌↔◌, ◌<◌, ℕ, List, IsTrue, IsFalse, option_map, string_bytes, IfOk, OnOk, IfErr};
ghost use Rattle.std.specs.FinMap as map;
ghost use Rattle.std.specs.List.Sorted.{IsStrictlySortedBy};
ghost use Rattle.std.specs.Map.{keys_of};
ghost use Rattle.std.specs.String.{string_cmp};
ghost use Rattle.nibble_map.specs.Maps.{value_at};
ghost use Rattle.nibble_map.specs.Nibbles.{nibbles};
ghost use Rattle.serde_json.specs.Data.{null};
ghost use Rattle.serde_json.specs.Find.{get, get_member};
ghost use Rattle.serde_json.specs.View.{view, members_view};
ghost use Rattle.serde_json.specs.Written.{has_float, members_have_float};
ghost use Rattle.radix_trie.specs.Json.{object_of, read_as, IsOtherKind};

mod floats;
mod laws;

use crate::error::{InsertWhy, JsonError};
use crate::iter::Iter;
use crate::trie::Trie;
use crate::view::trie_common::TrieCommon;
use floats::{holds_float, members_hold_float};
pub use laws::objects_are_read_back;
use radix_keys::Memory;
use serde_json::{Map, Value};
use std::alloc::{AllocError, Global};

/// The walk over a trie of texts. In the order of the encodings the texts rise too.
fn walk(trie: &Trie<String, Value>) -> Result<Iter<'_, String, Value>, Memory>
    ensures pairs { IfOk result (λ pairs. pairs ≡ map.values trie.now) }
    ensures rising { IsStrictlySortedBy string_cmp (keys_of (map.values trie.now)) }
    ensures members { (name : List ℕ) → get name (object_of trie.now)
        ≡ option_map view (value_at trie.now (nibbles name)) }
{
    trie.iter()
}

/// The object of a trie's texts and values.
///
/// # Errors
///
/// Decided in this order. `Memory`: an allocation for the walk fails. `Float`: a float stands
/// somewhere in a value. `Memory`: an allocation for the object fails.
pub fn to_value(alloc: Global, trie: &Trie<String, Value>) -> Result<Value, JsonError>
    ensures object { IfOk result (λ value. view value ≡ object_of trie.now) }
    ensures members { IfOk result (λ value. (name : List ℕ) → get name (view value)
        ≡ option_map view (value_at trie.now (nibbles name))) }
    ensures no_float { OnOk result (IsFalse (has_float (object_of trie.now))) }
    ensures float { IfErr result (λ e. e ≡ JsonError.Float
        → IsTrue (has_float (object_of trie.now))) }
    ensures any_kind { IfErr result (λ e. e ≢ JsonError.Kind) }
{
    for (_, value) in walk(trie)? {
        if holds_float(value) {
            return Err(JsonError::Float);
        }
    }
    let mut members = Map::new(alloc);
    for (key, value) in walk(trie)? {
        serde_json::put(&mut members, alloc, key, value.clone()?)?;
    }
    Ok(Value::Object(members))
}

/// The trie of an object's members. Null gives the empty trie. The value is only read.
///
/// # Errors
///
/// Decided in this order. `Kind`: the value is neither null nor an object. `Float`: a float stands
/// somewhere in it. `Memory`: an allocation fails. Of null the call never fails.
pub fn from_value(alloc: Global, value: &Value) -> Result<Trie<String, Value>, JsonError>
    ensures object { IfOk result (λ trie. object_of trie ≡ read_as (view value.now)) }
    ensures members { IfOk result (λ trie. (name : List ℕ)
        → option_map view (value_at trie (nibbles name)) ≡ get name (view value.now)) }
    ensures null { view value.now ≡ null → result ≡ Ok map.empty }
    ensures kind { (result ≡ Err JsonError.Kind) ↔ IsOtherKind (view value.now) }
    ensures float { (result ≡ Err JsonError.Float)
        ↔ ((¬ IsOtherKind (view value.now)) × IsTrue (has_float (view value.now))) }
{
    match value {
        Value::Null => Ok(Trie::new(alloc)),
        Value::Object(members) => from_members(alloc, members),
        _ => Err(JsonError::Kind),
    }
}

/// The trie of an object's members.
fn from_members(
    alloc: Global,
    members: &Map<String, Value>,
) -> Result<Trie<String, Value>, JsonError>
    ensures object { IfOk result (λ trie. members_view (map.values trie)
        ≡ members_view members.now.entries) }
    ensures members { IfOk result (λ trie. (name : List ℕ)
        → option_map view (value_at trie (nibbles name))
        ≡ get_member name (members_view members.now.entries)) }
    ensures no_float { OnOk result
        (IsFalse (members_have_float (members_view members.now.entries))) }
    ensures float { (result ≡ Err JsonError.Float)
        ↔ IsTrue (members_have_float (members_view members.now.entries)) }
    ensures any_kind { IfErr result (λ e. e ≢ JsonError.Kind) }
{
    if members_hold_float(members) {
        return Err(JsonError::Float);
    }
    // The members can be counted, so that there is room for each that is left.
    let _count = members.len();
    let mut trie = Trie::new(alloc);
    for (key, member) in members.iter() {
        store(&mut trie, key.clone()?, member.clone()?)?;
    }
    Ok(trie)
}

/// Stores a member in a trie that has room for it. It fails only if an allocation fails.
fn store(trie: &mut Trie<String, Value>, key: String, member: Value) -> Result<(), JsonError>
    requires room { map.len trie.old < usize.MAX }
    ensures stored { OnOk result
        (trie.new ≡ map.insert trie.old (nibbles (string_bytes key)) (key, member)) }
    ensures memory { IfErr result (λ e. e ≡ JsonError.Memory) }
{
    match trie.insert(key, member) {
        Ok(_) => Ok(()),
        Err(refused) => match refused.why {
            InsertWhy::Memory => Err(JsonError::Memory),
            InsertWhy::Full | InsertWhy::Outside => unreachable!(),
        },
    }
}

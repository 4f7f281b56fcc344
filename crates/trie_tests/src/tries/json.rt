//! Tries of texts as JSON values, and back.
ghost use Rattle.std.specs.Prelude.{◌≡◌, IfOk};
ghost use Rattle.serde_json.specs.View.{view};
ghost use Rattle.radix_trie.specs.Json.{object_of, read_as};

use radix_trie::{JsonError, Trie, from_value, to_value};
use serde_json::Value;
use std::alloc::Global;

type Values = Trie<String, Value>;

/// What is read of what a trie is written as has the trie's object.
fn written_and_read(alloc: Global, trie: &Values) -> Result<Values, JsonError>
    ensures { IfOk result (λ again. object_of again ≡ object_of trie.now) }
{
    let value = to_value(alloc, trie)?;
    from_value(alloc, &value)
}

/// What is written of what a value is read as is that value, and the empty object for null.
fn read_and_written(alloc: Global, value: &Value) -> Result<Value, JsonError>
    ensures { IfOk result (λ again. view again ≡ read_as (view value.now)) }
{
    let trie = from_value(alloc, value)?;
    to_value(alloc, &trie)
}

/// Whether a value is back by way of a trie, and the trie of it by way of a value.
fn are_back(alloc: Global, text: &str) -> Option<bool> {
    let value = Value::from_str(alloc, text).ok()?;
    let trie = from_value(alloc, &value).ok()?;
    let again = read_and_written(alloc, &value).ok()?;
    Some(again == value && written_and_read(alloc, &trie).ok()? == trie)
}

/// Whether a trie isn't written for a float, where a text writes one of its two values.
fn is_unwritten(alloc: Global, text: &str) -> Option<bool> {
    let mut trie: Values = Trie::new(alloc);
    let value = Value::from_str(alloc, text).ok()?;
    trie.insert(String::from_str(alloc, "a").ok()?, value).ok()?;
    trie.insert(String::from_str(alloc, "b").ok()?, Value::from(1u64))
        .ok()?;
    Some(to_value(alloc, &trie).is_err_and(|e| e == JsonError::Float))
}

/// A float isn't written, whatever its form and however deep it stands in a value.
#[test]
fn floats_are_not_written(rt: HostRuntime) {
    const FLOATS: &'static str = "1.5 -0.0 1e300 [1.5] [[[0.0]]] {\"b\":1.5} [{\"b\":[-2.5e-3]}]";
    for text in FLOATS.split(' ') {
        assert!(rt; is_unwritten(rt.alloc(), text) == Some(true), "{text}");
    }
}

#[test]
fn values_there_and_back(rt: HostRuntime) {
    assert!(rt; are_back(rt.alloc(), "{\"a\":[1,null],\"ab\":\"c\"}") == Some(true));
}

//! A tree of topics: the name of a topic begins with the name of the topic that it belongs to.
ghost use Rattle.std.specs.FinMap as finite;
ghost use Rattle.std.specs.Prelude.{◌≡◌, IfOk, OnOk, OnErr, map as each};
ghost use Rattle.radix_trie.specs.Maps.{below};

use radix_trie::iter::Children;
use radix_trie::{Memory, OpenError, Trie, TrieCommon, TrieKey};
use std::alloc::{AllocError, Global};

/// Closes a topic: takes it away, and leaves the topics below it. Answers how many these are.
fn close<K: TrieKey + Drop, V: Drop>(topics: &mut Trie<K, V>, topic: &K) -> Result<usize, OpenError>
    ensures removed { OnOk result (topics.new ≡ finite.remove topics.old (K.encoding topic.now)) }
    ensures left { IfOk result (λ n. n ≡ finite.len (below topics.new (K.encoding topic.now))) }
    ensures unchanged { OnErr result (topics.new ≡ topics.old) }
{
    match topics.open_mut(topic) {
        Ok(mut view) => match view.remove(topic) {
            Ok(_) => Ok(TrieCommon::len(&view)),
            Err(_) => Err(OpenError::Memory),
        },
        Err(error) => Err(error),
    }
}

/// How many topics there are at and below each of the children.
fn sizes<K: TrieKey, V>(
    alloc: Global,
    children: Children<'_, K, V>,
) -> Result<Vec<usize>, AllocError>
    ensures { IfOk result
        (λ sizes. sizes.items ≡ each (λ v. finite.len (below v.map v.path)) children.entry) }
{
    children.map(|child| TrieCommon::len(&child)).collect(alloc)
}

//! Subscribers to topics, by filters.
ghost use Rattle.std.specs.Prelude.{◌≡◌, IfOk, option_copied, option_map, slice_get};
ghost use Rattle.topic_filters.specs.Filters.{filters_of, stored_at};

use radix_trie::{Memory, Parts, Trie};
use std::alloc::Global;
use topic_filters::matching;

/// The value of the first filter that matches the topic.
fn first_subscriber<'a, V>(
    alloc: Global,
    filters: &'a Trie<Parts, V>,
    topic: &Parts,
) -> Result<Option<&'a V>, Memory>
    ensures { IfOk result (λ found. option_copied found ≡ option_map (λ pair. pair.1)
        (slice_get (stored_at filters.now (filters_of topic.now)) 0)) }
{
    match matching(alloc, filters, topic)?.first() {
        Some((_, value)) => Ok(Some(*value)),
        None => Ok(None),
    }
}

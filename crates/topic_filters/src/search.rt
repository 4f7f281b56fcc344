//! The stored filters that match a topic.
ghost use Rattle.std.specs.Prelude.{◌≡◌, ◌+◌, ◌<◌, ◌≤◌, [], ◌++◌, IfOk, OnOk};
ghost use Rattle.radix_trie.specs.Walks.{deref_pairs};
ghost use Rattle.topic_filters.specs.Filters.{any_level, any_rest, filters_of, is_reserved, stored_at};
ghost use Rattle.topic_filters.specs.Search.{all_turns, all_wanted, held, held_behind, level_list, level_lists, turns_at, wanted};

use crate::forms::{ANY_LEVEL, ANY_REST};
use radix_trie::{Descent, Memory, Nibblet, Parts, Trie, TrieKey};
use std::alloc::Global;

/// The pairs of all stored filters that match the topic; each once, where `is_topic` lets the list
/// of levels pass. At each level those with the same level come first, then those with `+`, and
/// those that end in `#`.
///
/// It looks below a list of levels only where a stored filter begins with it, and goes on from
/// there by one level: so the time grows with the beginnings of filters that match a beginning of
/// the topic, and with the topic's length, and not with how many filters there are. The memory
/// grows with the topic's levels; the stack doesn't.
///
/// # Errors
///
/// An allocation fails, for the encodings of the topic's levels, for the list of what is still to
/// be looked for, or for the list of pairs.
///
/// # Examples
///
/// ```
/// # use nifazombi::{radix_keys::Parts, radix_trie::Trie, rattle_std::alloc::Global};
/// use nifazombi::topic_filters::matching;
///
/// let mut filters = Trie::new(Global);
/// filters.insert(Parts::split(Global, "sport/#", b'/')?, 1)?;
/// filters.insert(Parts::split(Global, "sport/+/score", b'/')?, 2)?;
/// let topic = Parts::split(Global, "sport/chess/score", b'/')?;
/// let found = matching(Global, &filters, &topic)?;
/// assert!(found.iter().map(|(_, value)| **value).eq([2, 1]));
/// # Ok::<(), Box<dyn std::error::Error>>(())
/// ```
///
/// `first_subscriber` in `crates/trie_examples/src/subscribers.rt` proves which filter is first.
pub fn matching<'a, K: TrieKey, V>(
    alloc: Global,
    filters: &'a Trie<K, V>,
    topic: &Parts,
) -> Result<Vec<(&'a K, &'a V)>, Memory>
    ensures { IfOk result (λ found. deref_pairs found.items
        ≡ stored_at filters.now (filters_of topic.now)) }
{
    let levels = encoded_levels(alloc, topic)?;
    let top = filters.descent();
    if !is_server_own(topic) {
        return gather(alloc, top, levels.as_slice());
    }
    match levels.split_first() {
        Some((first, rest)) => gather(alloc, top.below(first), rest),
        None => Ok(Vec::new(alloc)),
    }
}

/// Whether the first level begins with `$`.
fn is_server_own(topic: &Parts) -> bool
    ensures { result ≡ is_reserved topic.now }
{
    match topic.iter().next() {
        Some([b'$', ..]) => true,
        _ => false,
    }
}

/// What a level is in the encoding of a filter.
fn encoded(alloc: Global, level: &[u8]) -> Result<Nibblet, Memory>
    ensures { IfOk result (λ list. list ≡ level_list level.now) }
{
    let mut part = Parts::new(alloc);
    match part.push_bytes(level) {
        Ok(()) => part.encode(alloc),
        Err(_) => Err(Memory),
    }
}

/// What each level of the topic is in the encoding of a filter.
fn encoded_levels(alloc: Global, topic: &Parts) -> Result<Vec<Nibblet>, Memory>
    ensures { IfOk result (λ lists. lists.items ≡ level_lists topic.now) }
{
    let mut lists = Vec::new(alloc);
    for level in topic.iter() {
        let list = encoded(alloc, level)?;
        if lists.push(list).is_err() {
            return Err(Memory);
        }
    }
    Ok(lists)
}

/// What the levels with a wildcard are in the encoding of a filter.
#[derive(Drop)]
struct Wildcards {
    any_level: Nibblet,
    any_rest: Nibblet,
}

/// What is still to be looked for.
#[derive(Drop)]
struct Pending<'a, 't, K: TrieKey, V> {
    /// Where the first levels of a filter have led.
    at: Descent<'a, K, V>,
    /// The topic's levels that are left; None, where the pair that stands there is looked for
    /// alone.
    levels: Option<&'t [Nibblet]>,
}

/// The pairs behind a place at the filters that match the levels.
fn gather<'a, K: TrieKey, V>(
    alloc: Global,
    at: Descent<'a, K, V>,
    levels: &[Nibblet],
) -> Result<Vec<(&'a K, &'a V)>, Memory>
    ensures { IfOk result (λ found. deref_pairs found.items ≡ held_behind at.entry [] levels.now) }
{
    let wildcards = Wildcards {
        any_level: encoded(alloc, ANY_LEVEL)?,
        any_rest: encoded(alloc, ANY_REST)?,
    };
    let mut found = Vec::new(alloc);
    let mut pending = Vec::new(alloc);
    add(&mut pending, at, Some(levels))?;
    while let Some(next) = pending.pop() {
        turn(next, &wildcards, &mut pending, &mut found)?;
    }
    Ok(found)
}

/// Looks for one thing that was still to be looked for: its pairs are put at the end of the list,
/// or what comes of it at the end of what is still to be looked for.
fn turn<'a, 't, K: TrieKey, V>(
    next: Pending<'a, 't, K, V>,
    wildcards: &Wildcards,
    pending: &mut Vec<Pending<'a, 't, K, V>>,
    found: &mut Vec<(&'a K, &'a V)>,
) -> Result<(), Memory>
    requires any_level { wildcards.now.any_level ≡ level_list any_level }
    requires any_rest { wildcards.now.any_rest ≡ level_list any_rest }
    ensures found { OnOk result (deref_pairs found.new.items ++ all_wanted pending.new.items
        ≡ deref_pairs found.old.items
        ++ (wanted next.entry.at next.entry.levels ++ all_wanted pending.old.items)) }
    ensures turns { OnOk result (all_turns pending.new.items
        < all_turns pending.old.items + turns_at next.entry.levels) }
{
    let Some(levels) = next.levels else {
        return take(&next.at, found);
    };
    let rest_of_all = next.at.below(&wildcards.any_rest);
    let Some((level, rest)) = levels.split_first() else {
        take(&next.at, found)?;
        return take(&rest_of_all, found);
    };
    add(pending, rest_of_all, None)?;
    add(pending, next.at.below(&wildcards.any_level), Some(rest))?;
    add(pending, next.at.below(level), Some(rest))
}

/// Puts the pair at a place, if there is one, at the end of the list.
fn take<'a, K: TrieKey, V>(
    at: &Descent<'a, K, V>,
    found: &mut Vec<(&'a K, &'a V)>,
) -> Result<(), Memory>
    ensures { OnOk result (deref_pairs found.new.items
        ≡ deref_pairs found.old.items ++ held at.now []) }
{
    match at.get_key_value() {
        Some(pair) => match found.push(pair) {
            Ok(()) => Ok(()),
            Err(_) => Err(Memory),
        },
        None => Ok(()),
    }
}

/// Puts a place, where some filter is stored behind it, at the end of what is still to be looked
/// for.
fn add<'a, 't, K: TrieKey, V>(
    pending: &mut Vec<Pending<'a, 't, K, V>>,
    at: Descent<'a, K, V>,
    levels: Option<&'t [Nibblet]>,
) -> Result<(), Memory>
    ensures wanted { OnOk result (all_wanted pending.new.items
        ≡ wanted at.entry levels.entry ++ all_wanted pending.old.items) }
    ensures turns { OnOk result (all_turns pending.new.items
        ≤ all_turns pending.old.items + turns_at levels.entry) }
{
    if at.is_empty() {
        return Ok(());
    }
    match pending.push(Pending { at, levels }) {
        Ok(()) => Ok(()),
        Err(_) => Err(Memory),
    }
}

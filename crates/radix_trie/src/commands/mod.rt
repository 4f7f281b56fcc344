//! Lists of commands, and what they return.
ghost use Rattle.std.specs.Prelude.{◌≡◌, ◌+◌, ◌≤◌, ◌++◌, [], length, map as each, vec_len, vec_capacity, IfOk, IsOk, OnOk, OnErr};
ghost use Rattle.std.specs.FinMap as map;
ghost use Rattle.nibble_map.specs.Maps.{below, without_below};
ghost use Rattle.radix_trie.specs.Commands.{Step, Steps, values_below};

mod in_view;

use crate::error::{InsertError, InsertWhy, OpenError, SubTrieError};
use crate::locus::Locus;
use crate::trie::Trie;
use crate::view::subtrie_mut::SubTrieMut;
use in_view::run_view;
use radix_keys::{Memory, Nibblet, TrieKey};

/// A call of a trie.
#[derive(Drop)]
pub enum Command<K, V> {
    /// Stores a pair.
    Insert(K, V),
    /// Removes the pair at a key's encoding.
    Remove(K),
    /// Removes all pairs at and below a key's place.
    RemovePrefix(K),
    /// Looks up the value at a key's encoding.
    Get(K),
    /// Looks up the value of the longest stored list that is a prefix of a key's encoding.
    Ancestor(K),
    /// Counts the pairs.
    Len,
    /// Opens a view for writing at a key's encoding, and runs commands in it.
    Within(K, Vec<ViewCommand<K, V>>),
}

/// A call of a view for writing.
#[derive(Drop)]
pub enum ViewCommand<K, V> {
    /// Stores a pair.
    Insert(K, V),
    /// Removes the pair at a key's encoding.
    Remove(K),
    /// Removes all pairs at and below a key's place.
    RemovePrefix(K),
    /// Looks up the value at a key's encoding.
    Get(K),
    /// Counts the pairs at and below the view's path.
    Len,
}

/// What a command returns.
#[derive(Drop)]
pub enum Reply<V> {
    /// Of `Insert` and `Remove`: the value that was stored.
    Old(Option<V>),
    /// Of `RemovePrefix`: the values that were removed, in the order of their keys' encodings.
    Gone(Vec<V>),
    /// Of `Get` and `Ancestor`: the value that is stored.
    Found(Option<V>),
    /// Of `Len`: a count of pairs.
    Number(usize),
    /// Of `Within`: no point stands at the key's encoding.
    Closed,
    /// Of `Within`: the replies in the view, one to each of its commands.
    Replies(Vec<Reply<V>>),
    /// Of a command in a view: the view's path isn't a prefix of the key's encoding, and nothing
    /// has changed.
    Outside,
    /// The command failed: an allocation failed, or `usize::MAX` pairs are stored. Nothing has
    /// changed.
    Refused,
}

/// Runs the commands in order, and returns one reply to each. A command that fails returns
/// `Refused` and changes nothing, and the run goes on.
///
/// # Errors
///
/// `Memory`: the allocation of the list of replies fails, which comes before any command; an empty
/// list of commands needs none. On failure the trie is as before.
pub fn run<K: TrieKey + Drop, V: Copy>(
    trie: &mut Trie<K, V>,
    commands: Vec<Command<K, V>>,
) -> Result<Vec<Reply<V>>, Memory>
    ensures steps { IfOk result
        (λ replies. Steps K.encoding K.is_inline trie.old commands.items replies.items trie.new) }
    ensures unchanged { OnErr result (trie.new ≡ trie.old) }
    ensures none { commands.items ≡ [] → IsOk result }
{
    let Ok(mut replies) = Vec::with_capacity(trie.allocator(), commands.len()) else {
        return Err(Memory);
    };
    for command in commands {
        let reply = step(trie, command);
        replies.push_reserved(reply);
    }
    Ok(replies)
}

/// Runs one command.
fn step<K: TrieKey + Drop, V: Copy>(trie: &mut Trie<K, V>, command: Command<K, V>) -> Reply<V>
    ensures { Step K.encoding K.is_inline trie.old command result trie.new }
{
    match command {
        Command::Insert(key, value) => insert(trie, key, value),
        Command::Remove(key) => remove(trie, &key),
        Command::RemovePrefix(key) => remove_prefix(trie, &key),
        Command::Get(key) => get(trie, &key),
        Command::Ancestor(key) => ancestor(trie, &key),
        Command::Len => Reply::Number(trie.len()),
        Command::Within(key, list) => within(trie, &key, list),
    }
}

fn insert<K: TrieKey + Drop, V: Copy>(trie: &mut Trie<K, V>, key: K, value: V) -> Reply<V>
    ensures { Step K.encoding K.is_inline trie.old (Command.Insert key value) result trie.new }
{
    match trie.insert(key, value) {
        Ok(old) => Reply::Old(old),
        Err(error) => {
            let InsertError {
                why: _,
                key: _,
                value: _,
            } = error;
            Reply::Refused
        }
    }
}

fn remove<K: TrieKey + Drop, V: Copy>(trie: &mut Trie<K, V>, key: &K) -> Reply<V>
    ensures { Step K.encoding K.is_inline trie.old (Command.Remove key.now) result trie.new }
{
    match trie.remove(key) {
        Ok(old) => Reply::Old(old),
        Err(_) => Reply::Refused,
    }
}

/// Moves the values of pairs to the end of a list that has room for them.
fn move_values<K: Drop, V: Copy>(pairs: Vec<(K, V)>, values: &mut Vec<V>)
    requires room { vec_len values.old + length pairs.items ≤ vec_capacity values.old }
    ensures { values.new.items ≡ values.old.items ++ each (λ x. x.1) pairs.items }
{
    for (_, value) in pairs {
        values.push_reserved(value);
    }
}

/// Removes all pairs at and below a list, and returns their values. The room for these is reserved
/// before the trie changes.
pub(crate) fn take_values<K: TrieKey + Drop, V: Copy>(
    trie: &mut Trie<K, V>,
    list: &Nibblet,
) -> Result<Vec<V>, Memory>
    ensures values { IfOk result (λ values. values.items ≡ values_below trie.old list.now) }
    ensures removed { OnOk result (trie.new ≡ without_below trie.old list.now) }
    ensures unchanged { OnErr result (trie.new ≡ trie.old) }
    ensures none { map.len (below trie.old list.now) ≡ 0 → IsOk result }
{
    let count = Locus::find(trie, list).len();
    let Ok(mut values) = Vec::with_capacity(trie.allocator(), count) else {
        return Err(Memory);
    };
    match trie.prune_at(list) {
        Ok(gone) => {
            move_values(gone, &mut values);
            Ok(values)
        }
        Err(refusal) => Err(refusal),
    }
}

fn remove_prefix<K: TrieKey + Drop, V: Copy>(trie: &mut Trie<K, V>, key: &K) -> Reply<V>
    ensures { Step K.encoding K.is_inline trie.old (Command.RemovePrefix key.now) result trie.new }
{
    let Ok(list) = key.encode(trie.allocator()) else {
        return Reply::Refused;
    };
    match take_values(trie, &list) {
        Ok(values) => Reply::Gone(values),
        Err(_) => Reply::Refused,
    }
}

fn get<K: TrieKey, V: Copy>(trie: &Trie<K, V>, key: &K) -> Reply<V>
    ensures { Step K.encoding K.is_inline trie.now (Command.Get key.now) result trie.now }
{
    match trie.get(key) {
        Ok(found) => Reply::Found(found.copied()),
        Err(_) => Reply::Refused,
    }
}

fn ancestor<K: TrieKey, V: Copy>(trie: &Trie<K, V>, key: &K) -> Reply<V>
    ensures { Step K.encoding K.is_inline trie.now (Command.Ancestor key.now) result trie.now }
{
    match trie.get_ancestor_value(key) {
        Ok(found) => Reply::Found(found.copied()),
        Err(_) => Reply::Refused,
    }
}

/// Opens the view, reserves its replies, and runs its commands.
fn within<K: TrieKey + Drop, V: Copy>(
    trie: &mut Trie<K, V>,
    key: &K,
    list: Vec<ViewCommand<K, V>>,
) -> Reply<V>
    ensures { Step K.encoding K.is_inline trie.old (Command.Within key.now list) result trie.new }
{
    let alloc = trie.allocator();
    match trie.open_mut(key) {
        Ok(mut view) => {
            let Ok(mut replies) = Vec::with_capacity(alloc, list.len()) else {
                return Reply::Refused;
            };
            run_view(&mut view, list, &mut replies);
            Reply::Replies(replies)
        }
        Err(OpenError::Closed) => Reply::Closed,
        Err(OpenError::Memory) => Reply::Refused,
    }
}

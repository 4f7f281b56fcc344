//! Commands within a view.
ghost use Rattle.std.specs.Prelude.{◌≡◌, ◌+◌, ◌≤◌, [], length, vec_capacity};
ghost use Rattle.radix_trie.specs.Commands.{ViewStep, ViewSteps};
ghost use Rattle.radix_trie.specs.WriteViews.{map_behind, path_of, SameView};

use crate::commands::{Reply, ViewCommand, take_values};
use crate::error::{InsertError, InsertWhy, SubTrieError};
use crate::view::inside::begins;
use crate::view::subtrie_mut::SubTrieMut;
use radix_keys::TrieKey;

/// Runs the commands in the view, and adds one reply to each.
pub(crate) fn run_view<K: TrieKey + Drop, V: Copy>(
    view: &mut SubTrieMut<'_, K, V>,
    list: Vec<ViewCommand<K, V>>,
    replies: &mut Vec<Reply<V>>,
)
    requires room { length list.items ≤ vec_capacity replies.old }
    requires empty { replies.old.items ≡ [] }
    ensures same_view { SameView view.old view.new }
    ensures steps { ViewSteps K.encoding K.is_inline (path_of view.old)
        (map_behind view.old) list.items replies.new.items (map_behind view.new) }
{
    for command in list {
        let reply = view_step(view, command);
        replies.push_reserved(reply);
    }
}

/// Runs one command in the view.
fn view_step<K: TrieKey + Drop, V: Copy>(
    view: &mut SubTrieMut<'_, K, V>,
    command: ViewCommand<K, V>,
) -> Reply<V>
    ensures same_view { SameView view.old view.new }
    ensures step { ViewStep K.encoding K.is_inline (path_of view.old) (map_behind view.old) command
        result (map_behind view.new) }
{
    match command {
        ViewCommand::Insert(key, value) => view_insert(view, key, value),
        ViewCommand::Remove(key) => view_remove(view, &key),
        ViewCommand::RemovePrefix(key) => view_remove_prefix(view, &key),
        ViewCommand::Get(key) => view_get(view, &key),
        ViewCommand::Len => Reply::Number(view.locus().len()),
    }
}

fn view_insert<K: TrieKey + Drop, V: Copy>(
    view: &mut SubTrieMut<'_, K, V>,
    key: K,
    value: V,
) -> Reply<V>
    ensures same_view { SameView view.old view.new }
    ensures step { ViewStep K.encoding K.is_inline (path_of view.old) (map_behind view.old)
        (ViewCommand.Insert key value) result (map_behind view.new) }
{
    match view.insert(key, value) {
        Ok(old) => Reply::Old(old),
        Err(error) => {
            let InsertError {
                why,
                key: _,
                value: _,
            } = error;
            match why {
                InsertWhy::Outside => Reply::Outside,
                InsertWhy::Memory | InsertWhy::Full => Reply::Refused,
            }
        }
    }
}

fn view_remove<K: TrieKey + Drop, V: Copy>(view: &mut SubTrieMut<'_, K, V>, key: &K) -> Reply<V>
    ensures same_view { SameView view.old view.new }
    ensures step { ViewStep K.encoding K.is_inline (path_of view.old) (map_behind view.old)
        (ViewCommand.Remove key.now) result (map_behind view.new) }
{
    match view.remove(key) {
        Ok(old) => Reply::Old(old),
        Err(SubTrieError::Outside) => Reply::Outside,
        Err(SubTrieError::Memory) => Reply::Refused,
    }
}

fn view_remove_prefix<K: TrieKey + Drop, V: Copy>(
    view: &mut SubTrieMut<'_, K, V>,
    key: &K,
) -> Reply<V>
    ensures same_view { SameView view.old view.new }
    ensures step { ViewStep K.encoding K.is_inline (path_of view.old) (map_behind view.old)
        (ViewCommand.RemovePrefix key.now) result (map_behind view.new) }
{
    let Ok(list) = key.encode(view.trie.allocator()) else {
        return Reply::Refused;
    };
    if !begins(&view.path, &list) {
        return Reply::Outside;
    }
    match take_values(view.trie, &list) {
        Ok(values) => Reply::Gone(values),
        Err(_) => Reply::Refused,
    }
}

fn view_get<K: TrieKey, V: Copy>(view: &SubTrieMut<'_, K, V>, key: &K) -> Reply<V>
    ensures { ViewStep K.encoding K.is_inline (path_of view.now) (map_behind view.now)
        (ViewCommand.Get key.now) result (map_behind view.now) }
{
    match view.get(key) {
        Ok(found) => Reply::Found(found.copied()),
        Err(SubTrieError::Outside) => Reply::Outside,
        Err(SubTrieError::Memory) => Reply::Refused,
    }
}

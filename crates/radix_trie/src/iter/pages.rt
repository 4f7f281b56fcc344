//! Pages: the first pairs that a cursor has left.
ghost use Rattle.std.specs.Prelude.{◌≡◌, [], IsOk, IfOk, take};
ghost use Rattle.radix_trie.specs.Walks.{deref_pairs};

use crate::iter::cursor::Cursor;
use radix_keys::Memory;
use std::alloc::Global;

/// The first pairs that a cursor has left, `most` of them where there are so many. The time grows
/// with `most` and the depth, and not with how many pairs there are.
pub(crate) fn first_pairs<'a, K, V>(
    alloc: Global,
    cursor: Cursor<'a, K, V>,
    most: usize,
) -> Result<Vec<(&'a K, &'a V)>, Memory>
    ensures pairs { IfOk result (λ list. deref_pairs list.items ≡ take most cursor.entry) }
    ensures no_page { most ≡ 0 → IsOk result }
    ensures none { cursor.entry ≡ [] → IsOk result }
{
    let mut left = cursor;
    let mut list = Vec::new(alloc);
    while list.len() < most {
        let Some(pair) = left.next()? else {
            return Ok(list);
        };
        list.push(pair)?;
    }
    Ok(list)
}

//! Programs that run on every map.
ghost use Rattle.std.specs.Prelude.{◌≡◌, IfOk, IsOk, map as each, option_copied, take};
ghost use Rattle.radix_trie.specs.Views.{IsValueAbove, pairs_below};
ghost use Rattle.prefix_maps.specs.Calls.{lent_pair};

use crate::calls::PrefixMap;
use radix_keys::Memory;
use std::alloc::Global;

/// The value of the longest stored key that is a prefix of a key, or None where there is none: of a
/// path the setting that it inherits, of an address the route.
///
/// # Errors
///
/// `Memory`: an allocation fails, for the key's encoding.
///
/// # Examples
///
/// ```
/// # use nifazombi::{radix_trie::Trie, rattle_std::alloc::Global};
/// use nifazombi::prefix_maps::lookup;
///
/// let mut limits = Trie::new(Global);
/// limits.insert("/home/", 20)?;
/// limits.insert("/home/ann/", 30)?;
/// assert_eq!(lookup(&limits, &"/home/bob/")?, Some(&20));
/// # Ok::<(), Box<dyn std::error::Error>>(())
/// ```
pub fn lookup<'a, Q, M: PrefixMap<'a, Q>>(map: M, key: &Q) -> Result<Option<&'a M::Value>, Memory>
    ensures value { IfOk result
        (λ found. IsValueAbove (M.map map) (M.list key.now) (option_copied found)) }
    ensures free { M.is_free key.now → IsOk result }
{
    match map.longest_match(key)? {
        Some((_, value)) => Ok(Some(value)),
        None => Ok(None),
    }
}

/// The first pairs whose keys begin with a key, itself among them, in order: `most` of them, or all
/// where there are fewer. The time is that of `below` and of so many steps of its walk.
///
/// # Errors
///
/// `Memory`: an allocation fails, for the key's encoding, the walk or the list of pairs.
///
/// # Examples
///
/// ```
/// # use nifazombi::{radix_trie::Trie, rattle_std::alloc::Global};
/// use nifazombi::prefix_maps::first_below;
///
/// let mut limits = Trie::new(Global);
/// limits.insert("/home/", 20)?;
/// limits.insert("/home/ann/", 30)?;
/// let page = first_below(Global, &limits, &"/home/", 1)?;
/// assert_eq!(page.as_slice(), [(&"/home/", &20)]);
/// # Ok::<(), Box<dyn std::error::Error>>(())
/// ```
pub fn first_below<'a, Q, M: PrefixMap<'a, Q>>(
    alloc: Global,
    map: M,
    key: &Q,
    most: usize,
) -> Result<Vec<(M::Key, &'a M::Value)>, Memory>
    ensures pairs { IfOk result (λ list. each (lent_pair M.stored_key) list.items
        ≡ take most (pairs_below (M.map map) (M.list key.now))) }
    ensures none { M.is_free key.now → most ≡ 0 → IsOk result }
{
    let mut walk = map.below(key)?;
    let mut list = Vec::new(alloc);
    while list.len() < most {
        let Some(pair) = M::next(&mut walk)? else {
            return Ok(list);
        };
        list.push(pair)?;
    }
    Ok(list)
}

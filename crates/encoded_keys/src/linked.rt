//! Lists in rising order and the link of each, appended one by one.
ghost use Rattle.std.specs.Prelude.{◌≡◌, ◌↔◌, ◌-◌, ◌<◌, ◌≤◌, ◌^◌, ◌++◌, [], ◌∷◌, length, IsTrue, IfErr, OnOk};
ghost use Rattle.nibble_map.specs.Lists.{IsRising};
ghost use Rattle.encoded_keys.specs.Codes.{IsLinked};

use crate::keys::{EncodedKeys, Sought};
use crate::search::follow_parents;
use radix_keys::{Memory, NibbleSlice};
use sorted_tables::PushWhy;

/// Whether a list comes after all of some rising ones.
pub fn follows(codes: &EncodedKeys, list: &NibbleSlice<'_>) -> bool
    requires { IsRising codes.now }
    ensures { IsTrue result ↔ IsRising (codes.now ++ list.now ∷ []) }
{
    let count = codes.len();
    if count == 0 {
        return true;
    }
    let sought = Sought {
        list,
        is_through: false,
    };
    let (side, _) = codes.side(count - 1, &sought, 0);
    side.is_lt()
}

/// Appends a list that comes after all others, and its link.
///
/// # Errors
///
/// An allocation fails, or the bytes of all lists would be 2^31 or more. The lists and links stay
/// as they are then.
pub fn push_linked(
    codes: &mut EncodedKeys,
    parents: &mut Vec<u32>,
    list: &NibbleSlice<'_>,
) -> Result<(), Memory>
    requires few { length codes.old < 2 ^ 32 }
    requires linked { IsLinked codes.old parents.old.items }
    requires rising { IsRising (codes.old ++ list.now ∷ []) }
    ensures ok { OnOk result (codes.new ≡ codes.old ++ list.now ∷ []) }
    ensures linked { OnOk result (IsLinked codes.new parents.new.items) }
    ensures codes { IfErr result (λ _. codes.new ≡ codes.old) }
    ensures links { IfErr result (λ _. parents.new.items ≡ parents.old.items) }
{
    let link = follow_parents(codes, parents, codes.len(), list) as u32;
    parents.reserve(1)?;
    codes.push(list)?;
    parents.push_reserved(link);
    Ok(())
}

/// Appends a list, and its link, where it comes after all others.
///
/// # Errors
///
/// Why it isn't appended. The lists and links stay as they are then.
pub fn push_last(
    codes: &mut EncodedKeys,
    parents: &mut Vec<u32>,
    list: &NibbleSlice<'_>,
) -> Result<(), PushWhy>
    requires { IsLinked codes.old parents.old.items }
    ensures ok { OnOk result (codes.new ≡ codes.old ++ list.now ∷ []) }
    ensures linked { OnOk result (IsLinked codes.new parents.new.items) }
    ensures codes { IfErr result (λ _. codes.new ≡ codes.old) }
    ensures links { IfErr result (λ _. parents.new.items ≡ parents.old.items) }
    ensures unsorted { IfErr result (λ why. why ≡ PushWhy.OutOfOrder
        → IsRising (codes.old ++ list.now ∷ []) → ⊥) }
    ensures full { IfErr result (λ why. why ≡ PushWhy.Full → 2 ^ 32 - 1 ≤ length codes.old) }
{
    if codes.is_full() {
        return Err(PushWhy::Full);
    }
    if !follows(codes, list) {
        return Err(PushWhy::OutOfOrder);
    }
    match push_linked(codes, parents, list) {
        Ok(()) => Ok(()),
        Err(_) => Err(PushWhy::Memory),
    }
}

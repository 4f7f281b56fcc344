//! The searches. Each is total: whatever the columns hold, it ends, and reads none but their items.
ghost use Rattle.std.specs.Prelude.{◌≡◌, ◌+◌, ◌-◌, ◌<◌, ◌≤◌, ℕ};
ghost use Rattle.sorted_tables.specs.Tables.{IsLastOf, IsPartedAt};

use crate::columns::{Fronts, Links};
use std::hint::select_unpredictable;

/// How many items come in front of what is sought, where the first `lo` do, and none from `hi` on.
///
/// It takes as many comparisons as `hi - lo` has binary digits, whatever they return, so that
/// nothing is to be foreseen.
#[inline(always)]
pub fn count_in_front<Q, C: Fronts<Q>>(columns: &C, query: &Q, lo: usize, hi: usize) -> usize
    requires order { lo ≤ hi }
    requires within { hi ≤ C.count columns.now }
    requires below { C.is_sorted columns.now → (k : ℕ) → k < lo
        → C.is_front columns.now query.now k }
    requires above { C.is_sorted columns.now → (k : ℕ) → hi ≤ k → k < C.count columns.now
        → C.is_front columns.now query.now k → ⊥ }
    ensures least { lo ≤ result }
    ensures most { result ≤ hi }
    ensures count { C.is_sorted columns.now → IsPartedAt (C.is_front columns.now query.now)
        (λ k. C.is_front columns.now query.now k → ⊥) (C.count columns.now) result }
{
    let (mut from, mut left) = (lo, hi - lo);
    while left > 0 {
        let half = left - left / 2;
        let is_front = columns.is_in_front(from + half - 1, query);
        from = select_unpredictable(is_front, from + half, from);
        left /= 2;
    }
    from
}

/// The last of the first `from` items that holds what is sought, which none of these comes behind,
/// by its index and one more, or 0 where none does; `floor` says so of the first `below`.
#[inline(always)]
pub fn follow_parents<Q, C: Links<Q>>(
    columns: &C,
    query: &Q,
    from: usize,
    below: usize,
    floor: usize,
) -> usize
    requires within { from ≤ C.count columns.now }
    requires below { below ≤ from }
    requires floor { floor ≤ below }
    ensures within { result ≤ from }
    ensures last { C.is_sorted columns.now
        → ((k : ℕ) → k < from → C.is_behind columns.now query.now k)
        → IsLastOf (C.is_sought columns.now query.now) below floor
        → IsLastOf (C.is_sought columns.now query.now) from result }
{
    let mut at = from;
    while at > below {
        if columns.holds(at - 1, query) {
            return at;
        }
        let link = columns.link_at(at - 1);
        if link >= at {
            return 0;
        }
        at = link;
    }
    floor
}

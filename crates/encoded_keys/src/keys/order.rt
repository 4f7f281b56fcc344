//! Where a list lies among those in rising order.
ghost use Rattle.std.specs.Prelude.{◌≡◌, ◌↔◌, ◌+◌, ◌<◌, ◌≤◌, ◌^◌, [], true, false, length, take, IsTrue};
ghost use Rattle.nibble_map.specs.Lists.{IsRising, is_prefix};
ghost use Rattle.encoded_keys.specs.Codes.{code_at, is_in_front, IsCut, IsSide};

use crate::keys::{EncodedKeys, Sought};
use radix_keys::NibbleSlice;
use std::cmp::Ordering;

impl EncodedKeys {
    /// On which side of a search the list at an index lies: Less where it comes before the searched
    /// one, or also where it begins with it and the search is one through it; Equal, of a search
    /// that isn't, where it is the searched one; and Greater otherwise. And how many nibbles the
    /// two agree in. So many as are known to agree aren't read.
    pub(crate) fn side(&self, at: usize, sought: &Sought<'_>, known: usize) -> (Ordering, usize)
        requires within { at < length self.now }
        requires known { take known (code_at self.now at) ≡ take known sought.now.list.now }
        requires inside { known ≤ length sought.now.list.now }
        ensures side { IsSide sought.now.is_through sought.now.list.now (code_at self.now at)
            result.0 }
        ensures same { take result.1 (code_at self.now at) ≡ take result.1 sought.now.list.now }
        ensures inside { result.1 ≤ length sought.now.list.now }
    {
        let (list, is_through) = (sought.list, sought.is_through);
        let code = self.piece(at);
        let same = code.agreement(list, known);
        if list.len() <= same {
            if is_through {
                return (Ordering::Less, same);
            }
            if same < code.len() {
                return (Ordering::Greater, same);
            }
            return (Ordering::Equal, same);
        }
        if code.len() <= same {
            return (Ordering::Less, same);
        }
        (code.get(same).cmp(&list.get(same)), same)
    }

    /// How many of the lists come before another one, or also begin with it where the search is one
    /// through it; and whether it stands behind these, of a search that isn't.
    pub(crate) fn cut(&self, list: &NibbleSlice<'_>, is_through: bool) -> (usize, bool)
        requires { IsRising self.now }
        ensures cut { IsCut (is_in_front is_through list.now) self.now result.0 }
        ensures found { is_through ≡ false → IsTrue result.1
            ↔ ((result.0 < length self.now) × (code_at self.now result.0 ≡ list.now)) }
        ensures counted { IsTrue result.1 → result.0 + 1 < 2 ^ 64 }
    {
        let sought = &Sought { list, is_through };
        let heads = self.heads.as_slice();
        if self.levels.is_empty() {
            return self.cut_by_heads(heads, &self.steps, &self.tops, sought);
        }
        let (at, is_found) = self.go_down(&self.levels, sought);
        if is_found {
            return (at, true);
        }
        self.descend((1, heads, &self.skips), &[], at, sought)
    }
}

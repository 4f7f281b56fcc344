//! Heads in blocks, each behind what the lists of its block share, and a search that goes down a
//! tree of such blocks.
ghost use Rattle.std.specs.Prelude.{◌≡◌, ◌↔◌, ◌+◌, ◌-◌, ◌*◌, ◌<◌, ◌≤◌, ◌^◌, ℕ, [], false, true, drop, length, slice_index, take, IsTrue};
ghost use Rattle.nibble_map.specs.Lists.{IsRising};
ghost use Rattle.encoded_keys.specs.Blocks.{AreFurther, AreLevels, IsAround, IsBlock, IsCounted, IsLevel, IsNarrowed, IsLocated, IsSharedBy, IsSoughtIn};
ghost use Rattle.encoded_keys.specs.Codes.{IsCut, code_at, is_in_front};
ghost use Rattle.encoded_keys.specs.Heads.{AreSteps, AreTops};

use crate::heads::{count_below, count_up_to, head_of, span};
use crate::keys::EncodedKeys;
use crate::slices::part;
use radix_keys::NibbleSlice;
use std::cmp::Ordering;

/// How many heads a block has.
pub(super) const BLOCK: usize = 16;

/// How many bytes the other heads of a level stand behind the first ones.
pub(super) const FURTHER: usize = 7;

/// The last of each so many lists, by its head.
#[derive(Drop)]
pub(crate) struct Level {
    /// How many lists there are for each head.
    pub(crate) step: usize,
    /// The heads, in blocks of 16.
    pub(crate) heads: Vec<u64>,
    /// The heads of the same lists behind seven bytes more.
    pub(crate) more: Vec<u64>,
    /// How many bytes the heads of a block stand behind: those in which the list before the block
    /// and its last one agree.
    pub(crate) skips: Vec<u32>,
}

/// Some heads of lists that stand at equal distances.
#[derive(Clone, Copy)]
pub(crate) struct Block<'a> {
    pub(crate) heads: &'a [u64],
    /// The index of the first of these lists.
    pub(crate) first: usize,
    /// How far they are from each other.
    pub(crate) step: usize,
    /// How many bytes the heads stand behind.
    pub(crate) skip: usize,
}

/// What is searched for.
#[derive(Clone, Copy)]
pub(crate) struct Sought<'a> {
    pub(crate) list: &'a NibbleSlice<'a>,
    /// Whether lists that begin with it come in front too.
    pub(crate) is_through: bool,
}

impl EncodedKeys {
    /// Bounds of what the heads of a block leave to be compared: the lists in front of the first
    /// bound come in front of the search, and those from the second on don't. Those between agree
    /// with the searched list in 15 nibbles behind what the block skips; where there is none,
    /// whether the list at the bound is the searched one, of a search that isn't one through it.
    ///
    /// The head of what stands in the searched list behind the same bytes is passed.
    fn bounds_in(&self, block: &Block<'_>, sought: &Sought<'_>, head: u64) -> (usize, usize, bool)
        requires rising { IsRising self.now }
        requires sought { IsSoughtIn sought.now.is_through sought.now.list.now self.now
            block.now.heads.now block.now.first block.now.step (2 * block.now.skip) head }
        ensures { IsNarrowed sought.now.is_through sought.now.list.now self.now block.now.first
            block.now.step (length block.now.heads.now) (2 * block.now.skip + 15)
            result.0 result.1 result.2 }
    {
        let heads = block.heads;
        let from = count_below(heads, head);
        if from == heads.len() || heads[from] != head {
            return (from, from, false);
        }
        if !sought.is_through && head % 16 < 15 {
            return (from, from, true);
        }
        let to = count_up_to(heads, head);
        if sought.is_through && sought.list.len() - 2 * block.skip <= 15 {
            return (to, to, false);
        }
        (from, to, false)
    }

    /// How many of the lists of a block come in front, where all are known to agree with the
    /// searched one in so many nibbles; and whether the one behind these is the searched list, of a
    /// search that isn't one through it.
    ///
    /// A list between two others that agree with the searched one in their first nibbles does so
    /// too, so these aren't compared again.
    fn count_by_bytes(&self, block: &Block<'_>, sought: &Sought<'_>, known: usize) -> (usize, bool)
        requires rising { IsRising self.now }
        requires block { IsBlock self.now block.now.heads.now block.now.first block.now.step
            (2 * block.now.skip) }
        requires shared { IsSharedBy self.now (length block.now.heads.now) block.now.first
            block.now.step known sought.now.list.now }
        ensures { IsCounted sought.now.is_through sought.now.list.now self.now block.now.first
            block.now.step (length block.now.heads.now) result.0 result.1 }
    {
        let (mut lo, mut hi) = (0, block.heads.len());
        let (mut low, mut high) = (known, known);
        while lo < hi {
            let mid = lo + (hi - lo) / 2;
            let at = block.first + mid * block.step;
            let (side, same) = self.side(at, sought, low.min(high));
            match side {
                Ordering::Less => {
                    lo = mid + 1;
                    low = same;
                }
                Ordering::Equal => return (mid, true),
                Ordering::Greater => {
                    hi = mid;
                    high = same;
                }
            }
        }
        (lo, false)
    }

    /// How many of the lists of a block come in front; and whether the one behind these is the
    /// searched list, of a search that isn't one through it.
    ///
    /// The head of what stands in the searched list behind the same bytes is passed.
    pub(super) fn count_in(
        &self,
        block: &Block<'_>,
        sought: &Sought<'_>,
        head: u64,
    ) -> (usize, bool)
        requires rising { IsRising self.now }
        requires sought { IsSoughtIn sought.now.is_through sought.now.list.now self.now
            block.now.heads.now block.now.first block.now.step (2 * block.now.skip) head }
        ensures { IsCounted sought.now.is_through sought.now.list.now self.now block.now.first
            block.now.step (length block.now.heads.now) result.0 result.1 }
    {
        let (from, to, is_found) = self.bounds_in(block, sought, head);
        if from == to {
            return (from, is_found);
        }
        let alike = Block {
            heads: part(block.heads, from, to),
            first: block.first + from * block.step,
            step: block.step,
            skip: block.skip,
        };
        let (count, is_found) = self.count_by_bytes(&alike, sought, 2 * block.skip + 15);
        (from + count, is_found)
    }

    /// The same where the heads of the lists behind seven bytes more are there too.
    fn count_in_both(
        &self,
        block: &Block<'_>,
        more: &[u64],
        sought: &Sought<'_>,
        head: u64,
    ) -> (usize, bool)
        requires rising { IsRising self.now }
        requires sought { IsSoughtIn sought.now.is_through sought.now.list.now self.now
            block.now.heads.now block.now.first block.now.step (2 * block.now.skip) head }
        requires more { IsBlock self.now more.now block.now.first block.now.step
            (2 * (7 + block.now.skip)) }
        requires many { length more.now ≡ length block.now.heads.now }
        ensures { IsCounted sought.now.is_through sought.now.list.now self.now block.now.first
            block.now.step (length block.now.heads.now) result.0 result.1 }
    {
        let (from, to, is_found) = self.bounds_in(block, sought, head);
        if from == to {
            return (from, is_found);
        }
        let alike = Block {
            heads: part(more, from, to),
            first: block.first + from * block.step,
            step: block.step,
            skip: FURTHER + block.skip,
        };
        let head = head_of(&behind(sought.list, alike.skip), sought.is_through);
        let (count, is_found) = self.count_in(&alike, sought, head);
        (from + count, is_found)
    }

    /// How many lists of a level come in front, where it's known in which of its blocks the first
    /// lies that doesn't; and whether that one is the searched list, of a search that isn't one
    /// through it.
    ///
    /// The level is passed by its step, heads and skips, and then the heads behind seven bytes
    /// more, or none.
    pub(super) fn descend(
        &self,
        level: (usize, &[u64], &[u32]),
        more: &[u64],
        at: usize,
        sought: &Sought<'_>,
    ) -> (usize, bool)
        requires rising { IsRising self.now }
        requires counted { length self.now < 2 ^ 62 }
        requires level { IsLevel self.now level.0 level.1.now level.2.now }
        requires more { 0 < length more.now
            → AreFurther self.now level.0 (length level.1.now) level.2.now more.now }
        requires around { IsAround sought.now.is_through sought.now.list.now self.now
            (level.0 * 16) at }
        ensures { IsLocated sought.now.is_through sought.now.list.now self.now level.entry.0
            result.0 result.1 }
    {
        let (step, heads, skips) = level;
        let from = BLOCK * at;
        let to = heads.len().min(from + BLOCK);
        let block = Block {
            heads: part(heads, from, to),
            first: step * (from + 1) - 1,
            step,
            skip: skip_at(skips, at) as usize,
        };
        let head = head_of(&behind(sought.list, block.skip), sought.is_through);
        let (count, is_found) = if more.is_empty() {
            self.count_in(&block, sought, head)
        } else {
            self.count_in_both(&block, part(more, from, to), sought, head)
        };
        (from + count, is_found)
    }

    /// Goes down levels, the last of which is one block: to the block of all heads in which the
    /// first list lies that doesn't come in front. Or to a list that is the searched one, of a
    /// search that isn't one through it.
    pub(super) fn go_down(&self, levels: &[Level], sought: &Sought<'_>) -> (usize, bool)
        requires rising { IsRising self.now }
        requires counted { length self.now < 2 ^ 62 }
        requires levels { AreLevels self.now levels.now }
        ensures around { result.1 ≡ false
            → IsAround sought.now.is_through sought.now.list.now self.now 16 result.0 }
        ensures found { IsTrue result.1 → (sought.now.is_through ≡ false)
            × (result.0 < length self.now) × (code_at self.now result.0 ≡ sought.now.list.now) }
    {
        let mut at = 0;
        let mut left = levels.len();
        while left > 0 {
            left -= 1;
            let level = &levels[left];
            let columns = (level.step, level.heads.as_slice(), level.skips.as_slice());
            let (next, is_found) = self.descend(columns, &level.more, at, sought);
            if is_found {
                return (level.step * (next + 1) - 1, true);
            }
            at = next;
        }
        (at, false)
    }

    /// The same of all lists by plain heads, which skip nothing.
    pub(super) fn cut_by_heads(
        &self,
        heads: &[u64],
        steps: &[u64],
        tops: &[u32],
        sought: &Sought<'_>,
    ) -> (usize, bool)
        requires rising { IsRising self.now }
        requires counted { length self.now < 2 ^ 62 }
        requires heads { IsLevel self.now 1 heads.now [] }
        requires steps { AreSteps heads.now steps.now }
        requires tops { AreTops heads.now tops.now }
        ensures cut { IsCut (is_in_front sought.now.is_through sought.now.list.now) self.now
            result.0 }
        ensures found { IsTrue result.1 → (sought.now.is_through ≡ false)
            × (result.0 < length self.now) × (code_at self.now result.0 ≡ sought.now.list.now) }
        ensures apart { result.1 ≡ false → sought.now.is_through ≡ false
            → result.0 < length self.now
            → code_at self.now result.0 ≡ sought.now.list.now → ⊥ }
    {
        let head = head_of(sought.list, sought.is_through);
        let (from, to) = span(heads, steps, tops, head);
        let block = Block {
            heads: part(heads, from, to),
            first: from,
            step: 1,
            skip: 0,
        };
        let (count, is_found) = self.count_in(&block, sought, head);
        (from + count, is_found)
    }
}

/// What stands in a list behind its first bytes.
pub(super) fn behind<'a>(list: &NibbleSlice<'a>, skip: usize) -> NibbleSlice<'a>
    ensures { result ≡ drop (2 * skip) list.now }
{
    let (bytes, is_odd) = list.as_packed();
    if skip < bytes.len() {
        NibbleSlice::from_packed(&bytes[skip..], is_odd)
    } else {
        NibbleSlice::from_bytes(&[])
    }
}

/// How many bytes a block skips; none where nothing is said.
pub(super) fn skip_at(skips: &[u32], at: usize) -> u32
    ensures { result ≡ slice_index skips.now at }
{
    if at < skips.len() { skips[at] } else { 0 }
}

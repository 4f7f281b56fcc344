//! The levels of heads above lists that are alike, made where the lists are complete.
ghost use Rattle.std.specs.Prelude.{◌≡◌, ◌+◌, ◌-◌, ◌*◌, ◌/◌, ◌<◌, ◌≤◌, ◌^◌, ℕ, [], IfOk, IsTrue, length, slice_index};
ghost use Rattle.nibble_map.specs.Lists.{IsRising};
ghost use Rattle.encoded_keys.specs.Blocks.{AreHeads, AreLevels, AreSkips, IsLevel, IsLevelOf, IsSkip};
ghost use Rattle.encoded_keys.specs.Laid.{codes_in, halves, odds, IsLaid};
ghost use Rattle.encoded_keys.specs.Packed.{AreHeaded};

use crate::heads::head_of;
use crate::keys::blocks::{BLOCK, FURTHER, Level, behind, skip_at};
use crate::keys::{EncodedKeys, piece_in};
use radix_keys::Memory;
use std::alloc::Global;

impl EncodedKeys {
    /// Whether searches gain by levels: most of the heads are equal to the one before, and the
    /// lists are neither too few nor too many.
    pub(super) fn is_for_levels(&self) -> bool
        ensures few { IsTrue result → length self.now < 2 ^ 32 }
        ensures some { IsTrue result → 16 ≤ length self.now }
    {
        let others = self.heads.iter().skip(1);
        let alike = self
            .heads
            .iter()
            .zip(others)
            .filter(|(a, b)| a == b)
            .count();
        (BLOCK..=u32::MAX as usize).contains(&self.len()) && alike > self.len() / 2
    }

    /// The levels above the heads of all lists, the lowest first.
    ///
    /// # Errors
    ///
    /// An allocation for them fails.
    pub(super) fn levels_of(&self, alloc: Global) -> Result<Vec<Level>, Memory>
        requires { length self.now < 2 ^ 32 }
        ensures { IfOk result (λ levels. AreLevels self.now levels.items) }
    {
        let mut levels = Vec::new(alloc);
        let mut step = BLOCK;
        while step <= self.len() {
            levels.push(self.level_of(alloc, step)?)?;
            step *= BLOCK;
        }
        Ok(levels)
    }

    /// The level with a head for each so many lists.
    ///
    /// # Errors
    ///
    /// An allocation for it fails.
    fn level_of(&self, alloc: Global, step: usize) -> Result<Level, Memory>
        requires few { length self.now < 2 ^ 32 }
        requires some { 0 < step }
        requires within { step ≤ length self.now }
        ensures step { IfOk result (λ level. level.step ≡ step) }
        ensures level { IfOk result (IsLevelOf self.now) }
    {
        // The proof needs the invariant, which says that these are lists of nibbles.
        let _ = &self.heads;
        let skips = self.skips_of(alloc, step)?;
        let heads = self.heads_of(alloc, step, &skips, 0)?;
        let more = self.heads_of(alloc, step, &skips, FURTHER)?;
        Ok(Level {
            step,
            heads,
            more,
            skips,
        })
    }

    /// The heads of a level with one for each so many lists, behind what its blocks skip and so
    /// many bytes more.
    ///
    /// # Errors
    ///
    /// An allocation for them fails.
    fn heads_of(
        &self,
        alloc: Global,
        step: usize,
        skips: &[u32],
        further: usize,
    ) -> Result<Vec<u64>, Memory>
        requires some { 0 < step }
        requires near { further < 2 ^ 32 }
        ensures many { IfOk result (λ heads. length heads.items ≡ length self.now / step) }
        ensures heads { IfOk result (λ heads. AreHeads self.now step further heads.items
            skips.now (length heads.items)) }
    {
        let mut heads = vec![in alloc; 0u64; self.len() / step]?;
        fill_heads(&self.bytes, &self.ends, &mut heads, skips, step, further);
        Ok(heads)
    }

    /// How many bytes each block skips of a level with a head for each so many lists.
    ///
    /// # Errors
    ///
    /// An allocation for them fails.
    pub(super) fn skips_of(&self, alloc: Global, step: usize) -> Result<Vec<u32>, Memory>
        requires few { length self.now < 2 ^ 32 }
        requires some { 0 < step }
        requires within { step ≤ length self.now + 1 }
        ensures { IfOk result (λ skips. AreSkips self.now step skips.items) }
    {
        let blocks = self.len() / (step * BLOCK) + 1;
        let mut skips = Vec::with_capacity(alloc, blocks)?;
        for at in 0..blocks {
            let first = BLOCK * at;
            skips.push(self.skip_between(step * first, step * (first + BLOCK)))?;
        }
        Ok(skips)
    }

    /// How many bytes two lists agree in, counted from 1; none where one of them isn't there.
    fn skip_between(&self, first: usize, last: usize) -> u32
        requires { first ≤ last }
        ensures { IsSkip self.now first last result }
    {
        if first == 0 || last > self.len() {
            return 0;
        }
        (self.agreement(first - 1, &self.piece(last - 1)) / 2) as u32
    }
}

/// Sets heads to those of the last of each so many lists, each behind what its block skips and so
/// many bytes more.
pub(super) fn fill_heads(
    bytes: &[u8],
    ends: &[u32],
    heads: &mut [u64],
    skips: &[u32],
    step: usize,
    further: usize,
)
    requires laid { IsLaid bytes.now 0 (halves ends.now) (odds ends.now) }
    requires some { 0 < step }
    requires within { step * length heads.old ≤ length ends.now }
    requires near { further < 2 ^ 32 }
    ensures many { length heads.new ≡ length heads.old }
    ensures heads { AreHeads (codes_in bytes.now 0 (halves ends.now) (odds ends.now)) step
        further heads.new skips.now (length heads.new) }
{
    for i in 0..heads.len() {
        let list = piece_in(bytes, ends, step * (i + 1) - 1);
        let skip = further + skip_at(skips, i / BLOCK) as usize;
        heads[i] = head_of(&behind(&list, skip), false);
    }
}

/// Makes heads plain again, which skip nothing, and drops the levels above them.
pub(super) fn forget_levels(
    bytes: &[u8],
    ends: &[u32],
    heads: &mut [u64],
    skips: &mut Vec<u32>,
    levels: &mut Vec<Level>,
)
    requires laid { IsLaid bytes.now 0 (halves ends.now) (odds ends.now) }
    requires headed { AreHeaded (codes_in bytes.now 0 (halves ends.now) (odds ends.now)) heads.old
        skips.old.items levels.old.items }
    ensures many { length heads.new ≡ length heads.old }
    ensures plain { IsLevel (codes_in bytes.now 0 (halves ends.now) (odds ends.now)) 1 heads.new
        [] }
    ensures skips { skips.new.items ≡ [] }
    ensures levels { levels.new.items ≡ [] }
{
    if levels.is_empty() {
        return;
    }
    fill_heads(bytes, ends, heads, &[], 1, 0);
    skips.clear();
    levels.clear();
}

//! Lists that are appended, and what shortens searches once they are complete.
ghost use Rattle.std.specs.Prelude.{◌≡◌, ◌-◌, ◌<◌, ◌≤◌, ◌^◌, ◌++◌, [], ◌∷◌, length, IfErr, IsOk, OnOk};
ghost use Rattle.radix_keys.specs.Packing.{IsPadded, unpacked};
ghost use Rattle.nibble_map.specs.Lists.{IsRising};
ghost use Rattle.encoded_keys.specs.Laid.{codes_in, halves, odds, IsLaid};

use crate::heads::{head_of, steps_of, tops_of};
use crate::keys::EncodedKeys;
use crate::keys::levels::{fill_heads, forget_levels};
use radix_keys::{Memory, NibbleSlice};
use std::alloc::Global;

/// How many lists are many enough for an index, and for levels or else copies of heads and a table
/// of 65537 counts.
const MANY: usize = 65536;

/// How many bytes all lists have at most: twice as many and one more are a number of 32 bits.
const MOST: usize = (1 << 31) - 1;

impl EncodedKeys {
    /// Takes no more room than the lists need, and makes what shortens searches where they are
    /// many.
    ///
    /// # Errors
    ///
    /// An allocation for it fails.
    pub fn finish(&mut self, alloc: Global) -> Result<(), Memory>
        requires { IsRising self.old }
        ensures same { self.new ≡ self.old }
        ensures few { length self.old < 2 ^ 16 → IsOk result }
    {
        self.bytes.shrink_to_fit();
        self.ends.shrink_to_fit();
        self.heads.shrink_to_fit();
        if self.heads.len() < MANY {
            return Ok(());
        }
        self.add_slots(alloc)?;
        self.add_tables(alloc)
    }

    /// Makes an index of hashes where searches gain by one.
    ///
    /// # Errors
    ///
    /// An allocation for it fails.
    fn add_slots(&mut self, alloc: Global) -> Result<(), Memory>
        ensures same { self.new ≡ self.old }
    {
        if self.slots.is_empty() && self.is_for_slots() {
            let (slots, tags) = self.slots_of(alloc)?;
            self.slots = slots;
            self.tags = tags;
        }
        Ok(())
    }

    /// Makes levels, or else tables of all heads, unless there are such.
    ///
    /// # Errors
    ///
    /// An allocation for these fails.
    fn add_tables(&mut self, alloc: Global) -> Result<(), Memory>
        requires { IsRising self.old }
        ensures same { self.new ≡ self.old }
    {
        if !self.levels.is_empty() || !self.tops.is_empty() {
            return Ok(());
        }
        if self.is_for_levels() {
            return self.add_levels(alloc);
        }
        self.steps = steps_of(alloc, &self.heads)?;
        self.tops = tops_of(alloc, &self.heads)?;
        Ok(())
    }

    /// Makes levels, and heads that skip what their blocks share.
    ///
    /// # Errors
    ///
    /// An allocation for these fails.
    fn add_levels(&mut self, alloc: Global) -> Result<(), Memory>
        requires few { length self.old < 2 ^ 32 }
        requires some { 16 ≤ length self.old }
        ensures same { self.new ≡ self.old }
    {
        let levels = self.levels_of(alloc)?;
        let skips = self.skips_of(alloc, 1)?;
        fill_heads(&self.bytes, &self.ends, &mut self.heads, &skips, 1, 0);
        self.skips = skips;
        self.levels = levels;
        self.steps.clear();
        self.tops.clear();
        Ok(())
    }

    /// Appends a list.
    ///
    /// # Errors
    ///
    /// An allocation fails, or the bytes would be 2^31 or more. The lists stay as they are then.
    pub(crate) fn push(&mut self, list: &NibbleSlice<'_>) -> Result<(), Memory>
        ensures ok { OnOk result (self.new ≡ self.old ++ list.now ∷ []) }
        ensures kept { IfErr result (λ _. self.new ≡ self.old) }
    {
        let (more, is_odd) = list.as_packed();
        let end = self.bytes.len() + more.len();
        if end > MOST {
            return Err(Memory);
        }
        self.bytes.reserve(more.len())?;
        self.ends.reserve(1)?;
        self.heads.reserve(1)?;
        forget_levels(
            &self.bytes,
            &self.ends,
            &mut self.heads,
            &mut self.skips,
            &mut self.levels,
        );
        self.steps.clear();
        self.tops.clear();
        self.slots.clear();
        self.bytes.extend_from_slice(more)?;
        self.ends.push_reserved(2 * end as u32 + u32::from(is_odd));
        self.heads.push_reserved(head_of(list, false));
        Ok(())
    }
}

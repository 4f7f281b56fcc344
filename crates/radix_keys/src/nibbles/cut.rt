//! Parts of a list.
ghost use Rattle.std.specs.Prelude.{◌≡◌, ◌%◌, ◌≤◌, length, take, drop, IsOk, IfOk, OnOk, OnErr};
ghost use Rattle.nibble_map.specs.Nibbles.{IsShort};

use crate::nibbles::append::push_shifted;
use crate::nibbles::{Memory, NibbleVec};
use smallvec::SmallVec;

impl NibbleVec {
    /// Keeps the first `i` nibbles, at most all, and returns the rest. The list's allocation
    /// shrinks to what it keeps, if the allocator can do that.
    ///
    /// # Errors
    ///
    /// `Memory`: an allocation fails; a rest of up to 32 nibbles needs none. On failure the list is
    /// as before.
    pub fn split(&mut self, i: usize) -> Result<NibbleVec, Memory>
        requires { i ≤ length self.old }
        ensures kept { OnOk result (self.new ≡ take i self.old) }
        ensures rest { IfOk result (λ r. r ≡ drop i self.old) }
        ensures err { OnErr result (self.new ≡ self.old) }
        ensures succeeds { IsShort (drop i self.old) → IsOk result }
    {
        let rest = self.tail(i)?;
        self.truncate(i);
        self.shrink_to_fit();
        Ok(rest)
    }

    /// Keeps the first `i` nibbles, at most all. It allocates nothing.
    pub fn truncate(&mut self, i: usize)
        requires { i ≤ length self.old }
        ensures { self.new ≡ take i self.old }
    {
        let whole = i / 2;
        if i % 2 == 0 {
            self.bytes.truncate(whole);
            self.is_odd = false;
        } else {
            self.bytes.truncate(whole + 1);
            let byte = self.bytes[whole];
            self.bytes[whole] = byte - byte % 16;
            self.is_odd = true;
        }
    }

    /// Shrinks the list's allocation to what it needs. If that fails, it stays as it is.
    fn shrink_to_fit(&mut self)
        ensures { self.new ≡ self.old }
    {
        self.bytes.shrink_to_fit();
        let _ = self.bytes.spilled();
    }

    /// The first `i` nibbles, at most all.
    ///
    /// # Errors
    ///
    /// `Memory`: an allocation fails; up to 32 nibbles need none.
    pub fn head(&self, i: usize) -> Result<NibbleVec, Memory>
        requires { i ≤ length self.now }
        ensures ok { IfOk result (λ r. r ≡ take i self.now) }
        ensures succeeds { IsShort (take i self.now) → IsOk result }
    {
        if i == self.len() {
            return self.clone();
        }
        let whole = &self.bytes.as_slice()[..i.div_ceil(2)];
        let bytes = SmallVec::from_slice(*self.bytes.allocator(), whole)?;
        let _ = bytes.spilled();
        let mut head = NibbleVec::from_small(bytes);
        head.truncate(i);
        Ok(head)
    }

    /// The nibbles from `i` on, which is at most the count.
    ///
    /// # Errors
    ///
    /// `Memory`: an allocation fails; up to 32 nibbles need none.
    pub fn tail(&self, i: usize) -> Result<NibbleVec, Memory>
        requires { i ≤ length self.now }
        ensures ok { IfOk result (λ r. r ≡ drop i self.now) }
        ensures succeeds { IsShort (drop i self.now) → IsOk result }
    {
        if i % 2 == 1 {
            return self.tail_shifted(i);
        }
        let bytes = SmallVec::from_slice(*self.bytes.allocator(), &self.bytes.as_slice()[i / 2..])?;
        let _ = bytes.spilled();
        Ok(NibbleVec {
            bytes,
            is_odd: self.is_odd,
        })
    }

    /// The nibbles from an odd place on.
    fn tail_shifted(&self, i: usize) -> Result<NibbleVec, Memory>
        requires within { i ≤ length self.now }
        requires odd { i % 2 ≡ 1 }
        ensures ok { IfOk result (λ r. r ≡ drop i self.now) }
        ensures succeeds { IsShort (drop i self.now) → IsOk result }
    {
        let count = self.len() - i;
        let mut rest = SmallVec::with_capacity(*self.bytes.allocator(), count.div_ceil(2))?;
        let bytes = self.bytes.as_slice();
        let last = push_shifted(&mut rest, bytes[i / 2] % 16, &bytes[i / 2 + 1..]);
        if self.is_odd {
            return Ok(NibbleVec::from_small(rest));
        }
        rest.push_reserved(last * 16);
        Ok(NibbleVec {
            bytes: rest,
            is_odd: true,
        })
    }
}

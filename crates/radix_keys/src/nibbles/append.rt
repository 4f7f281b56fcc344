//! What a list grows by.
ghost use Rattle.std.specs.Prelude.{◌≡◌, ◌+◌, ◌%◌, ◌<◌, [], ◌∷◌, ◌++◌, length, IsOk, IfOk, OnOk, OnErr, IfErr};
ghost use Rattle.nibble_map.specs.Nibbles.{nibbles, IsShort};
ghost use Rattle.smallvec.specs.SmallVec.{HasRoomFor};

use crate::nibbles::{Memory, NibbleVec};
use smallvec::SmallVec;

impl NibbleVec {
    /// Appends a nibble, a number of at most 15.
    ///
    /// # Errors
    ///
    /// `Memory`: an allocation fails; up to 32 nibbles need none. On failure the list is as before.
    pub fn push(&mut self, n: u8) -> Result<(), Memory>
        requires { n < 16 }
        ensures ok { OnOk result (self.new ≡ self.old ++ n ∷ []) }
        ensures err { OnErr result (self.new ≡ self.old) }
        ensures succeeds { length self.old < 32 → IsOk result }
    {
        if self.is_odd {
            let last = self.bytes.len() - 1;
            self.bytes[last] += n;
            self.is_odd = false;
            return Ok(());
        }
        self.bytes.push(n * 16)?;
        self.is_odd = true;
        Ok(())
    }

    /// The list followed by the other.
    ///
    /// # Errors
    ///
    /// The list itself: an allocation fails; up to 32 nibbles together need none.
    pub fn join(self, other: &NibbleVec) -> Result<NibbleVec, NibbleVec>
        ensures ok { IfOk result (λ v. v ≡ self ++ other.now) }
        ensures err { IfErr result (λ v. v ≡ self) }
        ensures succeeds { IsShort (self ++ other.now) → IsOk result }
    {
        let mut joined = self;
        match joined.append(other) {
            Ok(()) => Ok(joined),
            Err(_) => Err(joined),
        }
    }

    /// Appends the nibbles of another list.
    fn append(&mut self, other: &NibbleVec) -> Result<(), Memory>
        ensures ok { OnOk result (self.new ≡ self.old ++ other.now) }
        ensures err { OnErr result (self.new ≡ self.old) }
        ensures succeeds { IsShort (self.old ++ other.now) → IsOk result }
    {
        if self.is_odd {
            return self.append_shifted(other);
        }
        self.bytes.extend_from_slice(other.bytes.as_slice())?;
        self.is_odd = other.is_odd;
        Ok(())
    }

    /// Appends the nibbles of the bytes to a list of an even count.
    pub(crate) fn push_bytes(&mut self, bytes: &[u8]) -> Result<(), Memory>
        requires { length self.old % 2 ≡ 0 }
        ensures ok { OnOk result (self.new ≡ self.old ++ nibbles bytes.now) }
        ensures err { OnErr result (self.new ≡ self.old) }
        ensures succeeds { IsShort (self.old ++ nibbles bytes.now) → IsOk result }
    {
        Ok(self.bytes.extend_from_slice(bytes)?)
    }

    /// Appends the nibbles of another list to an odd one.
    fn append_shifted(&mut self, other: &NibbleVec) -> Result<(), Memory>
        requires { length self.old % 2 ≡ 1 }
        ensures ok { OnOk result (self.new ≡ self.old ++ other.now) }
        ensures err { OnErr result (self.new ≡ self.old) }
        ensures succeeds { IsShort (self.old ++ other.now) → IsOk result }
    {
        self.bytes.reserve(other.len() / 2)?;
        let end = self.bytes.len() - 1;
        let high = self.bytes[end] / 16;
        self.bytes.truncate(end);
        let last = push_shifted(&mut self.bytes, high, other.bytes.as_slice());
        if other.is_odd {
            self.is_odd = false;
            return Ok(());
        }
        self.bytes.push_reserved(last * 16);
        Ok(())
    }
}

/// Appends the nibble `high` and the nibbles of the bytes but the last, which it returns.
pub(super) fn push_shifted(out: &mut SmallVec<u8, 16>, high: u8, bytes: &[u8]) -> u8
    requires half { high < 16 }
    requires room { HasRoomFor out.old (length bytes.now) }
    ensures nibbles { nibbles out.new.items ++ result ∷ [] ≡ nibbles out.old.items
        ++ high ∷ nibbles bytes.now }
    ensures count { length out.new.items ≡ length out.old.items + length bytes.now }
    ensures half { result < 16 }
    ensures capacity { out.new.capacity ≡ out.old.capacity }
{
    let mut half = high;
    for byte in bytes {
        out.push_reserved(half * 16 + byte / 16);
        half = byte % 16;
    }
    half
}

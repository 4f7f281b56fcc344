//! A key's encoding, which is made only where the key doesn't lend it.
ghost use Rattle.std.specs.Prelude.{◌≡◌, IsOk, IfOk, OnOk};

use crate::keys::AsNibbles;
use crate::nibbles::{Memory, NibbleVec};
use crate::slices::NibbleSlice;
use std::alloc::Global;
use std::marker::Model;

/// A key's encoding: the key's own bytes where these are it, or a list that was made.
#[derive(Drop)]
pub struct Encoding<'a> {
    lent: Option<NibbleSlice<'a>>,
    /// Empty where the key lends its encoding.
    made: NibbleVec,
}

impl<'a> Model for Encoding<'a> {
    ghost use Rattle.std.specs.Prelude.{ℕ, List, unwrap_or};

    ghost Value = { List ℕ };

    ghost view = { λ e. unwrap_or e.lent e.made };
}

impl<'a> Encoding<'a> {
    /// The encoding of a key. For a key that lends it nothing is copied or allocated.
    ///
    /// # Errors
    ///
    /// `Memory`: the encoding's allocation fails; a key that is inline, or lends its encoding,
    /// needs none.
    pub fn of<K: AsNibbles>(alloc: Global, key: &'a K) -> Result<Encoding<'a>, Memory>
        ensures ok { IfOk result (λ e. e ≡ K.encoding key.now) }
        ensures value { OnOk result (K.is_value key.now) }
        ensures inline { K.is_inline key.now → IsOk result }
        ensures lent { K.is_lent key.now → IsOk result }
    {
        if let Some(list) = key.as_nibbles() {
            return Ok(Encoding {
                lent: Some(list),
                made: NibbleVec::new(alloc),
            });
        }
        let made = key.encode(alloc)?;
        Ok(Encoding { lent: None, made })
    }

    /// The list of nibbles.
    pub fn as_slice(&self) -> NibbleSlice<'_>
        ensures { result ≡ self.now }
    {
        let Some(list) = &self.lent else {
            return self.made.as_slice();
        };
        let (bytes, is_odd) = list.as_packed();
        NibbleSlice::from_packed(bytes, is_odd)
    }
}

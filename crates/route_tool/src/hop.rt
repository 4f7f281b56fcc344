//! Hops, the texts that a table answers.
ghost use Rattle.std.specs.Prelude.{◌≡◌, IfOk};

use smallvec::SmallVec;
use std::alloc::{AllocError, Global};
use std::marker::Model;
use std::rc::Rc;

/// How many bytes a hop has at most that lies in the value itself, as each IPv4 address does.
const FEW: usize = 16;

/// Where packets are sent next, as a text, which its clones share where it is long. A contract sees
/// its bytes.
#[derive(Drop)]
pub struct Hop {
    /// The bytes of a long one.
    shared: Option<Rc<Vec<u8>>>,
    /// Those of any other.
    few: SmallVec<u8, FEW>,
}

impl Model for Hop {
    ghost use Rattle.std.specs.Prelude.{ℕ, List, option_map, unwrap_or};

    ghost Value = { List ℕ };

    ghost view = { λ h. unwrap_or (option_map (λ long. long.value.items) h.shared) h.few.items };
}

impl Clone for Hop {
    ghost is_clone = { λ hop copy. copy ≡ hop };

    fn clone(&self) -> Result<Hop, AllocError> {
        let alloc = *self.few.allocator();
        match &self.shared {
            Some(long) => Ok(Hop {
                shared: Some(long.clone()?),
                few: SmallVec::new(alloc),
            }),
            None => Hop::new(alloc, self.few.as_slice()),
        }
    }
}

impl Hop {
    /// The hop of these bytes.
    pub fn new(alloc: Global, bytes: &[u8]) -> Result<Hop, AllocError>
        ensures { IfOk result (λ hop. hop ≡ bytes.now) }
    {
        if bytes.len() <= FEW {
            let few = SmallVec::from_slice(alloc, bytes)?;
            return Ok(Hop { shared: None, few });
        }
        let Ok(long) = Rc::new(alloc, Vec::from_slice(alloc, bytes)?) else {
            return Err(AllocError);
        };
        Ok(Hop {
            shared: Some(long),
            few: SmallVec::new(alloc),
        })
    }

    /// Its bytes.
    pub fn as_bytes(&self) -> &[u8]
        ensures { result.now ≡ self.now }
    {
        match &self.shared {
            Some(long) => long.as_slice(),
            None => self.few.as_slice(),
        }
    }
}

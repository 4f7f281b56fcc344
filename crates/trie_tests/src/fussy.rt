//! A value that isn't always cloned.

use std::alloc::AllocError;

/// A number whose clone fails where it is 18.
#[derive(Drop)]
pub(crate) struct Fussy {
    pub(crate) number: u64,
}

impl Clone for Fussy {
    ghost use Rattle.std.specs.Prelude.{◌≡◌};

    ghost is_clone = { λ x y. y ≡ x };

    ghost is_infallible = { λ _. ⊥ };

    fn clone(&self) -> Result<Fussy, AllocError> {
        if self.number == 18 {
            return Err(AllocError);
        }
        Ok(Fussy {
            number: self.number,
        })
    }
}

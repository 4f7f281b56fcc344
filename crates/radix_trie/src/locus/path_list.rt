//! What a path is kept as.
ghost use Rattle.std.specs.Prelude.{◌≡◌, ℕ, List};

use radix_keys::Nibblet;

/// What a view for writing keeps its path as, and an entry the encoding of its key: always a
/// `Nibblet`.
pub trait PathList: Drop {
    /// The path.
    ghost list: { Self → List ℕ };

    /// The path.
    fn nibbles(&self) -> &Nibblet
        ensures { result.now ≡ list self.now };

    /// The path, and nothing of it is left.
    fn into_nibbles(self) -> Nibblet
        ensures { result ≡ list self };
}

impl PathList for Nibblet {
    ghost list = { λ n. n };

    fn nibbles(&self) -> &Nibblet {
        self
    }

    fn into_nibbles(self) -> Nibblet {
        self
    }
}

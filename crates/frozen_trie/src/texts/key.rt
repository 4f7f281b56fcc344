//! Keys of a map from byte strings.
ghost use Rattle.std.specs.Prelude.{◌≡◌, List, ℕ};

/// A text or a byte string, whose bytes are searched for as they are.
pub trait TextKey {
    // The bytes.
    ghost bytes: { Self → List ℕ };

    /// The bytes, borrowed.
    fn bytes(&self) -> &[u8]
        ensures { result.now ≡ bytes self.now };
}

impl TextKey for &[u8] {
    ghost bytes = { λ text. text.now };

    fn bytes(&self) -> &[u8] {
        self
    }
}

impl TextKey for &str {
    ghost bytes = { λ text. text.now };

    fn bytes(&self) -> &[u8] {
        self.as_bytes()
    }
}

impl TextKey for String {
    ghost bytes = { λ text. text.bytes.items };

    fn bytes(&self) -> &[u8] {
        self.as_bytes()
    }
}

impl TextKey for Vec<u8> {
    ghost bytes = { λ text. text.items };

    fn bytes(&self) -> &[u8] {
        self.as_slice()
    }
}

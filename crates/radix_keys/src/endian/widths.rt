//! The integers whose bytes can be a key. Each is written out: what a macro writes has no ghost
//! members of its own.
ghost use Rattle.std.specs.Prelude.{FitsSigned, ◌<◌, ◌^◌, refl};
ghost use Rattle.std.specs.Int.{w8, w16, w32, w64, to_be_bytes};
ghost use Rattle.std.proofs.Common.{lit<};
ghost use Rattle.radix_keys.specs.Distinct.{unsigned-distinct, signed-distinct};
ghost use Rattle.radix_keys.specs.Integers.{signed_bytes};

use crate::endian::KeyInt;

impl KeyInt for u8 {
    ghost WIDTH = { 1 };

    ghost bytes = { to_be_bytes w8 };

    ghost is_value = { λ n. n < 2 ^ 8 };

    ghost width_positive = { lit< tt };

    ghost bytes_len = { λ _. refl };

    ghost distinct = { unsigned-distinct w8 };

    const WIDTH: usize = 1;

    fn byte(&self, i: usize) -> u8 {
        let value: u8 = *self;
        value.to_be_bytes()[i]
    }

    fn as_bytes(items: &[u8]) -> Option<&[u8]> {
        Some(items)
    }
}

impl KeyInt for u16 {
    ghost WIDTH = { 2 };

    ghost bytes = { to_be_bytes w16 };

    ghost is_value = { λ n. n < 2 ^ 16 };

    ghost width_positive = { lit< tt };

    ghost bytes_len = { λ _. refl };

    ghost distinct = { unsigned-distinct w16 };

    const WIDTH: usize = 2;

    fn byte(&self, i: usize) -> u8 {
        let value: u16 = *self;
        value.to_be_bytes()[i]
    }
}

impl KeyInt for u32 {
    ghost WIDTH = { 4 };

    ghost bytes = { to_be_bytes w32 };

    ghost is_value = { λ n. n < 2 ^ 32 };

    ghost width_positive = { lit< tt };

    ghost bytes_len = { λ _. refl };

    ghost distinct = { unsigned-distinct w32 };

    const WIDTH: usize = 4;

    fn byte(&self, i: usize) -> u8 {
        let value: u32 = *self;
        value.to_be_bytes()[i]
    }
}

impl KeyInt for u64 {
    ghost WIDTH = { 8 };

    ghost bytes = { to_be_bytes w64 };

    ghost is_value = { λ n. n < 2 ^ 64 };

    ghost width_positive = { lit< tt };

    ghost bytes_len = { λ _. refl };

    ghost distinct = { unsigned-distinct w64 };

    const WIDTH: usize = 8;

    fn byte(&self, i: usize) -> u8 {
        let value: u64 = *self;
        value.to_be_bytes()[i]
    }
}

impl KeyInt for usize {
    ghost WIDTH = { 8 };

    ghost bytes = { to_be_bytes w64 };

    ghost is_value = { λ n. n < 2 ^ 64 };

    ghost width_positive = { lit< tt };

    ghost bytes_len = { λ _. refl };

    ghost distinct = { unsigned-distinct w64 };

    const WIDTH: usize = 8;

    fn byte(&self, i: usize) -> u8 {
        let value: usize = *self;
        value.to_be_bytes()[i]
    }
}

impl KeyInt for i8 {
    ghost WIDTH = { 1 };

    ghost bytes = { signed_bytes w8 };

    ghost is_value = { FitsSigned w8 };

    ghost width_positive = { lit< tt };

    ghost bytes_len = { λ _. refl };

    ghost distinct = { signed-distinct w8 refl };

    const WIDTH: usize = 1;

    fn byte(&self, i: usize) -> u8 {
        let value: i8 = *self;
        value.to_be_bytes()[i]
    }
}

impl KeyInt for i16 {
    ghost WIDTH = { 2 };

    ghost bytes = { signed_bytes w16 };

    ghost is_value = { FitsSigned w16 };

    ghost width_positive = { lit< tt };

    ghost bytes_len = { λ _. refl };

    ghost distinct = { signed-distinct w16 refl };

    const WIDTH: usize = 2;

    fn byte(&self, i: usize) -> u8 {
        let value: i16 = *self;
        value.to_be_bytes()[i]
    }
}

impl KeyInt for i32 {
    ghost WIDTH = { 4 };

    ghost bytes = { signed_bytes w32 };

    ghost is_value = { FitsSigned w32 };

    ghost width_positive = { lit< tt };

    ghost bytes_len = { λ _. refl };

    ghost distinct = { signed-distinct w32 refl };

    const WIDTH: usize = 4;

    fn byte(&self, i: usize) -> u8 {
        let value: i32 = *self;
        value.to_be_bytes()[i]
    }
}

impl KeyInt for i64 {
    ghost WIDTH = { 8 };

    ghost bytes = { signed_bytes w64 };

    ghost is_value = { FitsSigned w64 };

    ghost width_positive = { lit< tt };

    ghost bytes_len = { λ _. refl };

    ghost distinct = { signed-distinct w64 refl };

    const WIDTH: usize = 8;

    fn byte(&self, i: usize) -> u8 {
        let value: i64 = *self;
        value.to_be_bytes()[i]
    }
}

impl KeyInt for isize {
    ghost WIDTH = { 8 };

    ghost bytes = { signed_bytes w64 };

    ghost is_value = { FitsSigned w64 };

    ghost width_positive = { lit< tt };

    ghost bytes_len = { λ _. refl };

    ghost distinct = { signed-distinct w64 refl };

    const WIDTH: usize = 8;

    fn byte(&self, i: usize) -> u8 {
        let value: isize = *self;
        value.to_be_bytes()[i]
    }
}

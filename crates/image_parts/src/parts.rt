//! The list of the parts: what is listed at each place, in 24 bytes.
ghost use Rattle.std.specs.Prelude.{◌≡◌, ◌+◌, ◌<◌, ◌≤◌, ℕ, IfSome, MatchOption, length, slice_index};
ghost use Rattle.image_parts.specs.Parts.{IsListed, IsPayload, u32_in, u64_in};

use crate::loads::{u32_at, u64_at};
use crate::stores::{put_u32, put_u64};

/// The place and the length in bytes of the part listed at a place, if it is of this kind and lies
/// inside the bytes.
#[inline(always)]
pub fn part_at(image: &[u8], entry: usize, kind: u32) -> Option<(usize, usize)>
    requires { entry + 24 ≤ length image.now }
    ensures { MatchOption result (IsListed image.now entry kind → ⊥)
        (λ part. IsListed image.now entry kind × (part.0 ≡ u64_in image.now (entry + 8))
        × (part.1 ≡ u64_in image.now (entry + 16))) }
{
    let place = u64_at(image, entry + 8) as usize;
    let size = u64_at(image, entry + 16) as usize;
    if u32_at(image, entry) != kind || place > image.len() || size > image.len() - place {
        return None;
    }
    Some((place, size))
}

/// Among how many of the listed parts the user's own bytes are looked for.
const MOST: usize = 64;

/// The place and the length in bytes of the user's own bytes: of the first part of kind 3 among the
/// first 64 that are listed, so it takes constant time. It is None where there is none, where this
/// part lies outside the bytes, and where the list does. Images of all kinds have such a list, and
/// no mark is tested.
pub fn payload(image: &[u8]) -> Option<(usize, usize)>
    ensures part { MatchOption result ((place size : ℕ) → IsPayload image.now place size → ⊥)
        (λ part. IsPayload image.now part.0 part.1) }
    ensures inside { IfSome result (λ part. part.0 + part.1 ≤ length image.now) }
{
    if image.len() < 16 {
        return None;
    }
    let parts = u32_at(image, 12) as usize;
    if 16 + 24 * parts > image.len() {
        return None;
    }
    for i in 0..parts.min(MOST) {
        if u32_at(image, 16 + 24 * i) == 3 {
            return part_at(image, 16 + 24 * i, 3);
        }
    }
    None
}

/// Lists a part.
///
/// # Examples
///
/// ```
/// # use nifazombi::image_parts::{part_at, put_part, put_u32};
/// let mut image = [0u8; 96];
/// put_u32(&mut image, 88, 7);
/// put_part(&mut image, 0, 3, 0, 88, 4);
/// assert_eq!(part_at(&image, 0, 3), Some((88, 4)));
/// ```
pub fn put_part(out: &mut [u8], entry: usize, kind: u32, detail: u32, place: usize, size: usize)
    requires { entry + 24 ≤ length out.old }
    ensures kind { u32_in out.new entry ≡ kind }
    ensures detail { u32_in out.new (entry + 4) ≡ detail }
    ensures place { u64_in out.new (entry + 8) ≡ place }
    ensures size { u64_in out.new (entry + 16) ≡ size }
    ensures before { (k : ℕ) → k < entry → slice_index out.new k ≡ slice_index out.old k }
    ensures behind { (k : ℕ) → entry + 24 ≤ k → slice_index out.new k ≡ slice_index out.old k }
    ensures length { length out.new ≡ length out.old }
{
    put_u32(out, entry, kind);
    put_u32(out, entry + 4, detail);
    put_u64(out, entry + 8, place as u64);
    put_u64(out, entry + 16, size as u64);
}

//! What calls put into their callers' memory, and what the numbers mean that they return.
ghost use Rattle.std.specs.Prelude.{◌≡◌, ◌↔◌, ◌+◌, ◌≤◌, ℕ, IfErr, IfOk, IsOk, Some, IsFalse, IsTrue, length};
ghost use Rattle.image_parts.specs.Parts.{IsPayload};
ghost use Rattle.nifazombi_c.specs.Results.{told_error, told_write};

use image_parts::{ImageError, WriteError, payload};

/// There is no room for the head and the list of the parts, or for the image that is to be written.
pub const NIFAZOMBI_ERROR_SHORT: u32 = 1;

/// The first bytes aren't those of such an image.
pub const NIFAZOMBI_ERROR_MARK: u32 = 2;

/// The image is of another version.
pub const NIFAZOMBI_ERROR_VERSION: u32 = 3;

/// The part listed at this index is missing or of another kind, lies outside the bytes, or has
/// another size or detail.
pub const NIFAZOMBI_ERROR_PART: u32 = 4;

/// The row at this index isn't valid, doesn't come after the row before it, or has another link.
pub const NIFAZOMBI_ERROR_ROW: u32 = 5;

/// The cell at this index counts wrongly, or leads to another span.
pub const NIFAZOMBI_ERROR_CELL: u32 = 6;

/// There are 2^32 rows or more, with the changes if any, or so many bytes of keys.
pub const NIFAZOMBI_ERROR_FULL: u32 = 7;

/// The row or change at this index isn't valid, or doesn't come after the one before it.
pub const NIFAZOMBI_ERROR_OUT_OF_ORDER: u32 = 8;

/// The first span doesn't begin at 0, or the span at this index doesn't begin before the next one,
/// or has another answer than some of its addresses.
pub const NIFAZOMBI_ERROR_SPAN: u32 = 9;

/// Some rows that stand one behind the other, or some bytes: the first, and how many there are.
#[repr(C)]
#[derive(Clone, Copy)]
pub struct Span {
    pub first: usize,
    pub count: usize,
}

/// The number of what a check has found, 0 of an image. Where it tells an index, that is put into
/// `at`.
pub(crate) fn code_of<T: Drop>(found: Result<T, ImageError>, at: &mut usize) -> u32
    ensures ok { (result ≡ 0) ↔ IsOk found }
    ensures error { IfErr found (λ e. told_error result at.new ≡ Some e) }
{
    match found {
        Ok(_) => 0,
        Err(ImageError::Short) => NIFAZOMBI_ERROR_SHORT,
        Err(ImageError::Mark) => NIFAZOMBI_ERROR_MARK,
        Err(ImageError::Version) => NIFAZOMBI_ERROR_VERSION,
        Err(ImageError::Part(index)) => {
            *at = index;
            NIFAZOMBI_ERROR_PART
        }
        Err(ImageError::Row(index)) => {
            *at = index;
            NIFAZOMBI_ERROR_ROW
        }
        Err(ImageError::Span(index)) => {
            *at = index;
            NIFAZOMBI_ERROR_SPAN
        }
        Err(ImageError::Cell(index)) => {
            *at = index;
            NIFAZOMBI_ERROR_CELL
        }
    }
}

/// The number of what a write has come to, 0 where the image is written. Where it tells an index,
/// that is put into `at`.
pub(crate) fn status_of(written: Result<(), WriteError>, at: &mut usize) -> u32
    ensures ok { (result ≡ 0) ↔ IsOk written }
    ensures error { IfErr written (λ e. told_write result at.new ≡ Some e) }
{
    match written {
        Ok(()) => 0,
        Err(WriteError::Full) => NIFAZOMBI_ERROR_FULL,
        Err(WriteError::Short) => NIFAZOMBI_ERROR_SHORT,
        Err(WriteError::OutOfOrder(index)) => {
            *at = index;
            NIFAZOMBI_ERROR_OUT_OF_ORDER
        }
    }
}

/// The number of what a write has come to, and into `at` how many bytes the image takes; or the
/// index that an error tells.
pub(crate) fn length_of(written: Result<usize, WriteError>, at: &mut usize) -> u32
    ensures ok { (result ≡ 0) ↔ IsOk written }
    ensures length { IfOk written (λ len. at.new ≡ len) }
    ensures error { IfErr written (λ e. told_write result at.new ≡ Some e) }
{
    match written {
        Ok(len) => {
            *at = len;
            0
        }
        Err(why) => status_of(Err(why), at),
    }
}

/// Puts where the user's own bytes in an image of any kind lie, and how many they are, into `span`,
/// and returns whether there are any.
#[unsafe(no_mangle)]
pub extern "C" fn nifazombi_payload(image: &[u8], span: &mut Span) -> bool
    ensures found { IsTrue result → IsPayload image.now span.new.first span.new.count }
    ensures inside { IsTrue result → span.new.first + span.new.count ≤ length image.now }
    ensures none { IsFalse result → (place size : ℕ) → IsPayload image.now place size → ⊥ }
    ensures unchanged { IsFalse result → span.new ≡ span.old }
{
    let Some((first, count)) = payload(image) else {
        return false;
    };
    *span = Span { first, count };
    true
}

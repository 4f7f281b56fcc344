//! The one reader of images of both families.
ghost use Rattle.std.specs.Prelude.{◌≡◌, ◌↔◌, ◌+◌, ◌-◌, ◌/◌, ◌^◌, ◌<◌, ◌≤◌, ℕ, IfErr, IfOk, IfSome, IsNone, IsOk, IsTrue, MatchOption, false, drop, length, option_map, slice_get, take, true};
ghost use Rattle.std.specs.List.{filter};
ghost use Rattle.radix_keys.specs.Networks.{Net};
ghost use Rattle.frozen_routes.specs.Routes.{AreInFront, IsLongestAround, IsLongestRow, IsOwnRow, is_inside};
ghost use Rattle.image_parts.specs.Parts.{row_count};
ghost use Rattle.flat_routes.specs.Faults.{IsRouteFault};
ghost use Rattle.flat_routes.specs.Images.{HasHead, IsImage, IsRowPlan, bases, first_in, image_rows, link_in, network, read_row, row_in, sizes, width};

use crate::check::{check, check_head};
use crate::columns::{Rows, Within};
use crate::family::Family;
use crate::head::{Plan, RowPlan, plan_of};
use crate::rows::{bits_at, first_at, first_bits, link_at, value_at};
use crate::search::{find, find_around};
use image_parts::ImageError;
use sorted_columns::count_in_front;
use std::marker::{Model, PhantomData};

/// A row of an image.
#[derive(Clone, Copy)]
pub struct Route<A> {
    /// The first address of the network.
    pub first: A,
    /// How many bits the addresses of the network share.
    pub bits: u32,
    /// The index and one more of the row of the network around it, or 0.
    pub link: u32,
    /// The network's value, below 2^32 for IPv4.
    pub value: u64,
}

/// An image of routes that was opened: its head is read once. Each call is total: whatever the
/// bytes behind the head are, it ends, and reads none but them.
///
/// A contract sees it as the bytes.
///
/// # Examples
///
/// ```
/// use nifazombi::flat_routes::{Table, ipv4, write};
/// use std::net::Ipv4Addr;
///
/// let mut image = [0u8; 152];
/// let rows = [ipv4::Row { first: 0x0a00_0000, bits: 8, link: 0, value: 7 }];
/// assert!(write(&rows, &[], &mut image).is_ok());
/// let table = Table::<Ipv4Addr>::checked(&image)?;
/// assert_eq!(table.longest_match(Ipv4Addr::new(10, 1, 2, 3)), Some(0));
/// assert!(table.row_at(0).is_some_and(|row| row.value == 7));
/// # Ok::<(), nifazombi::flat_routes::ImageError>(())
/// ```
#[derive(Drop)]
pub struct Table<'a, A: Family> {
    image: &'a [u8],
    plan: Plan,
    family: PhantomData<A>,
}

impl<'a, A: Family> Model for Table<'a, A> {
    ghost use Rattle.std.specs.Prelude.{List, ℕ};
    ghost use Rattle.flat_routes.specs.Images.{IsPlanOf};

    ghost Value = { List ℕ };

    ghost view = { λ t. t.image.now };

    ghost invariant = { λ t. IsPlanOf A.WIDE t.image.now t.plan };
}

/// How many of the networks come in front of those within a network, or also those within where the
/// search is one through it.
fn cut(image: &[u8], wide: bool, plan: RowPlan, first: u128, bits: u32, is_through: bool) -> usize
    requires plan { IsRowPlan wide image.now plan }
    ensures within { result ≤ plan.rows }
    ensures front { IsImage wide image.now → AreInFront (width wide) is_through bits
        (first / 2 ^ (width wide - bits)) (bases wide image.now) (sizes wide image.now) result }
{
    let rows = Rows::first(image, wide, plan, plan.rows);
    let within = Within {
        bits,
        quotient: first_bits(wide, first, bits),
        is_through,
    };
    count_in_front(&rows, &within, 0, plan.rows)
}

impl<'a, A: Family> Table<'a, A> {
    /// The table in bytes whose head is that of an image. It takes constant time, and reads nothing
    /// behind the head but the first row: `checked` tells whether the bytes are an image.
    ///
    /// # Errors
    ///
    /// The head is of no image of the family; the first fault is told, in the order of `checked`.
    #[inline]
    pub fn open(image: &'a [u8]) -> Result<Table<'a, A>, ImageError>
        ensures ok { IsOk result ↔ HasHead A.WIDE image.now }
        ensures image { IfOk result (λ table. table ≡ image.now) }
        ensures fault { IfErr result (IsRouteFault A.WIDE image.now) }
    {
        if let Some(plan) = plan_of(image, A::WIDE) {
            return Ok(Table {
                image,
                plan,
                family: PhantomData,
            });
        }
        match check_head(image, A::WIDE) {
            Ok(_) => unreachable!(),
            Err(why) => Err(why),
        }
    }

    /// The table in an image, which is checked whole. It takes linear time: all climbs to the
    /// networks around rows and spans have together no more steps than there are of both.
    ///
    /// # Errors
    ///
    /// The first fault is told, in this order: fewer than 88 bytes, another mark, another version,
    /// a list of the parts that ends outside the bytes, a part, a row, a span, a cell.
    pub fn checked(image: &'a [u8]) -> Result<Table<'a, A>, ImageError>
        ensures ok { IsOk result ↔ IsImage A.WIDE image.now }
        ensures image { IfOk result (λ table. table ≡ image.now) }
        ensures fault { IfErr result (IsRouteFault A.WIDE image.now) }
    {
        let plan = check(image, A::WIDE)?;
        Ok(Table {
            image,
            plan,
            family: PhantomData,
        })
    }

    /// The bytes.
    pub fn image(&self) -> &'a [u8]
        ensures { result.now ≡ self.now }
    {
        self.image
    }

    /// The count of rows.
    #[inline]
    pub fn len(&self) -> usize
        ensures count { result ≡ length (image_rows A.WIDE self.now) }
        ensures stored { result ≡ row_count self.now }
    {
        self.plan.rows.rows
    }

    /// Whether there is no row.
    #[inline]
    pub fn is_empty(&self) -> bool
        ensures { IsTrue result ↔ (length (image_rows A.WIDE self.now) ≡ 0) }
    {
        self.len() == 0
    }

    /// The row at an index, or None where there is none.
    #[inline]
    pub fn row_at(&self, at: usize) -> Option<Route<A>>
        ensures row { slice_get (image_rows A.WIDE self.now) at
            ≡ option_map (read_row A.number) result }
        ensures link { IfSome result (λ r. r.link ≡ link_in A.WIDE self.now at) }
        ensures narrow { IfSome result (λ r. A.WIDE ≡ false → r.value < 2 ^ 32) }
    {
        let (image, wide, plan) = (self.image, A::WIDE, self.plan.rows);
        if at >= plan.rows {
            return None;
        }
        Some(Route {
            first: A::from_number(first_at(image, wide, plan, at)),
            bits: bits_at(image, wide, plan, at),
            link: link_at(image, wide, plan, at),
            value: value_at(image, wide, plan, at),
        })
    }

    /// The index of the row of the longest network that holds an address, or None where none does.
    ///
    /// It takes as many comparisons as the spans of the address's block have binary digits, and no
    /// step more, however deep networks lie within one another. Of bytes that are no image it
    /// returns None or the index of some row.
    #[inline]
    pub fn longest_match(&self, address: A) -> Option<usize>
        ensures within { IfSome result (λ at. at < row_count self.now) }
        ensures row { IsImage A.WIDE self.now → IsLongestRow (width A.WIDE) (λ n. n)
            (image_rows A.WIDE self.now) (A.number address)
            (option_map (row_in A.WIDE self.now) result) }
    {
        find(self.image, A::WIDE, self.plan, address.to_number()).checked_sub(1)
    }

    /// The index of the row of the longest network that holds all of a network, by its first
    /// address and how many bits its addresses share, or None where none does: the network's own
    /// row, where there is one, or else that of the network around it.
    ///
    /// It takes the time of `longest_match` for its first address, and a step for each longer
    /// network that holds this.
    pub fn longest_around(&self, first: A, bits: u32) -> Option<usize>
        ensures within { IfSome result (λ at. at < row_count self.now) }
        ensures row { IsImage A.WIDE self.now → IsLongestAround (width A.WIDE) (λ n. n)
            (image_rows A.WIDE self.now) (network (A.number first) bits)
            (option_map (row_in A.WIDE self.now) result) }
    {
        find_around(self.image, A::WIDE, self.plan, first.to_number(), bits).checked_sub(1)
    }

    /// The index of the row of this very network, by its first address and how many bits its
    /// addresses share, or None where no row is of it. It takes as many comparisons as the count of
    /// rows has binary digits.
    pub fn get(&self, first: A, bits: u32) -> Option<usize>
        ensures within { IfSome result (λ at. at < row_count self.now) }
        ensures row { IsImage A.WIDE self.now → MatchOption result
            ((r : Net ℕ × ℕ) → IsOwnRow (λ n. n) (image_rows A.WIDE self.now)
            (network (A.number first) bits) r → ⊥)
            (λ at. IsOwnRow (λ n. n) (image_rows A.WIDE self.now) (network (A.number first) bits)
            (row_in A.WIDE self.now at)) }
    {
        let (image, wide, plan, first) = (self.image, A::WIDE, self.plan.rows, first.to_number());
        let at = cut(image, wide, plan, first, bits, false);
        if at >= plan.rows {
            return None;
        }
        if first_at(image, wide, plan, at) != first || bits_at(image, wide, plan, at) != bits {
            return None;
        }
        Some(at)
    }

    /// The rows whose networks lie within a network, itself among them: the index of the first, or
    /// the one that it would have where there is none, and how many there are. It takes twice as
    /// many comparisons as the count of rows has binary digits.
    pub fn below(&self, first: A, bits: u32) -> (usize, usize)
        ensures within { result.0 + result.1 ≤ row_count self.now }
        ensures first { IsImage A.WIDE self.now → AreInFront (width A.WIDE) false bits
            (A.number first / 2 ^ (width A.WIDE - bits)) (bases A.WIDE self.now)
            (sizes A.WIDE self.now) result.0 }
        ensures behind { IsImage A.WIDE self.now → AreInFront (width A.WIDE) true bits
            (A.number first / 2 ^ (width A.WIDE - bits)) (bases A.WIDE self.now)
            (sizes A.WIDE self.now) (result.0 + result.1) }
        ensures rows { IsImage A.WIDE self.now
            → take result.1 (drop result.0 (image_rows A.WIDE self.now))
            ≡ filter (is_inside (width A.WIDE) (λ n. n) (network (A.number first) bits))
            (image_rows A.WIDE self.now) }
    {
        let (image, wide, plan, first) = (self.image, A::WIDE, self.plan.rows, first.to_number());
        let from = cut(image, wide, plan, first, bits, false);
        let to = cut(image, wide, plan, first, bits, true);
        (from, to.saturating_sub(from))
    }

    /// The index of the row of the network around that of the row at an index: of the longest other
    /// one that holds it. It is None where no other one holds it, and where there is no such row.
    /// It takes constant time. Whatever the bytes are, a result is less than the index, so a walk
    /// upward ends.
    #[inline]
    pub fn above(&self, at: usize) -> Option<usize>
        ensures within { IfSome result (λ parents. parents < at) }
        ensures past { row_count self.now ≤ at → IsNone result }
        ensures row { IsImage A.WIDE self.now → at < row_count self.now
            → IsLongestRow (width A.WIDE) (λ n. n) (take at (image_rows A.WIDE self.now))
            (first_in A.WIDE self.now at) (option_map (row_in A.WIDE self.now) result) }
    {
        let plan = self.plan.rows;
        if at >= plan.rows {
            return None;
        }
        let link = link_at(self.image, A::WIDE, plan, at) as usize;
        if link > at {
            return None;
        }
        link.checked_sub(1)
    }
}

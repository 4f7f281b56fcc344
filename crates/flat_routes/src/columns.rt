//! The rows of an image as columns that are searched.
ghost use Rattle.std.specs.Prelude.{◌≡◌, ◌<◌, ◌≤◌, slice_index};
ghost use Rattle.flat_routes.specs.Images.{IsRowPlan, bases, links};
ghost use Rattle.flat_routes.specs.RowLaws.{FirstRows, IsFrontIn, IsHolderIn};

use crate::head::RowPlan;
use crate::rows::{bits_at, first_at, first_bits, holds_at, link_at};
use sorted_columns::{Columns, Fronts, Links};
use std::marker::Model;

/// The first rows of an image, as many as are known to be right.
#[derive(Drop)]
pub(crate) struct Rows<'a> {
    image: &'a [u8],
    wide: bool,
    plan: RowPlan,
    rows: usize,
}

impl<'a> Model for Rows<'a> {
    ghost use Rattle.std.specs.Prelude.{◌≤◌};
    ghost use Rattle.flat_routes.specs.Images.{IsRowPlan};
    ghost use Rattle.flat_routes.specs.RowLaws.{FirstRows};

    ghost Value = { FirstRows };

    ghost view = { λ r. record { wide = r.wide; bytes = r.image.now; rows = r.rows } };

    ghost invariant = { λ r. IsRowPlan r.wide r.image.now r.plan × (r.rows ≤ r.plan.rows) };
}

impl<'a> Rows<'a> {
    /// The first `rows` of an image, whose other rows may be wrong yet.
    #[inline(always)]
    pub(crate) fn first(image: &'a [u8], wide: bool, plan: RowPlan, rows: usize) -> Rows<'a>
        requires plan { IsRowPlan wide image.now plan }
        requires within { rows ≤ plan.rows }
        ensures { result ≡ record { wide = wide; bytes = image.now; rows = rows } }
    {
        Rows {
            image,
            wide,
            plan,
            rows,
        }
    }
}

/// Networks that are searched for: those within one, or behind it.
#[derive(Clone, Copy)]
pub(crate) struct Within {
    /// How many bits the addresses of the network share.
    pub(crate) bits: u32,
    /// These bits.
    pub(crate) quotient: u128,
    /// Whether the search is for those behind the network.
    pub(crate) is_through: bool,
}

impl<'a> Columns for Rows<'a> {
    ghost use Rattle.flat_routes.specs.RowLaws.{AreSorted};

    ghost count = { λ c. c.rows };

    ghost is_sorted = { AreSorted };
}

impl<'a> Links<u128> for Rows<'a> {
    ghost use Rattle.std.specs.Prelude.{◌≤◌, slice_index};
    ghost use Rattle.flat_routes.specs.Images.{bases, links};
    ghost use Rattle.flat_routes.specs.RowLaws.{IsHolderIn, rows_linked, rows_nest};

    ghost is_sought = { IsHolderIn };

    ghost is_around = { λ c k i. IsHolderIn c (slice_index (bases c.wide c.bytes) i) k };

    ghost is_behind = { λ c a k. slice_index (bases c.wide c.bytes) k ≤ a };

    ghost link = { λ c i. slice_index (links c.wide c.bytes) i };

    ghost nested = { rows_nest };

    ghost linked = { rows_linked };

    #[inline(always)]
    fn holds(&self, at: usize, query: &u128) -> bool {
        holds_at(self.image, self.wide, self.plan, at, *query)
    }

    #[inline(always)]
    fn link_at(&self, at: usize) -> usize {
        link_at(self.image, self.wide, self.plan, at) as usize
    }
}

impl<'a> Fronts<Within> for Rows<'a> {
    ghost use Rattle.flat_routes.specs.RowLaws.{IsFrontIn, fronts_rise};

    ghost is_front = { IsFrontIn };

    ghost rising = { fronts_rise };

    #[inline(always)]
    fn is_in_front(&self, at: usize, query: &Within) -> bool {
        let first = first_at(self.image, self.wide, self.plan, at);
        let own = first_bits(self.wide, first, query.bits);
        if own != query.quotient {
            return own < query.quotient;
        }
        query.is_through || bits_at(self.image, self.wide, self.plan, at) < query.bits
    }
}

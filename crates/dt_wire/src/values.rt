//! What stands in a form, read from bytes: each function answers what it read and the bytes behind it, or those from the first wrong one on.
ghost use Rattle.std.specs.Prelude.{◌≡◌, ℕ, List, Result, slice_get};
ghost use Rattle.dt_wire.specs.Reading as spec;
ghost use Rattle.dt_wire.specs.Reading.{dist_in, item_at, kinds, orders};
ghost use Rattle.dt_wire.specs.Skipping.{Gives};

use crate::passing::skip;
use byteorder::{BigEndian, ByteOrder};
use dt_form::{AddrBlock, Dist, DistDim, IntBlock, Order, SubDim};
use dt_kinds::{KINDS, Kind};

/// What stands in lists.
pub(crate) trait Field: Copy {
    /// How it stands there.
    ghost read_at: { List ℕ → Result (Self × List ℕ) (List ℕ) };

    /// Reads one.
    fn read(bytes: &[u8]) -> Result<(Self, &[u8]), &[u8]>
        ensures { Gives result (read_at bytes.now) };
}

impl Field for i32 {
    ghost read_at = { spec.int_at };

    fn read(bytes: &[u8]) -> Result<(i32, &[u8]), &[u8]> {
        let rest = skip(bytes, 4)?;
        Ok((BigEndian::read_i32(bytes), rest))
    }
}

impl Field for i64 {
    ghost read_at = { spec.address_at };

    fn read(bytes: &[u8]) -> Result<(i64, &[u8]), &[u8]> {
        let rest = skip(bytes, 8)?;
        Ok((BigEndian::read_i64(bytes), rest))
    }
}

/// The next byte as what it stands for.
fn item<'a, T: Copy>(bytes: &'a [u8], items: &[T]) -> Result<(T, &'a [u8]), &'a [u8]>
    ensures { Gives result (item_at (slice_get items.now) bytes.now) }
{
    let Some((byte, rest)) = bytes.split_first() else {
        return Err(bytes);
    };
    match items.get(usize::from(*byte)) {
        Some(item) => Ok((*item, rest)),
        None => Err(bytes),
    }
}

#[tactic(auto, unfolding(crate::specs::Reading::int_block_at, crate::specs::Reading::map_at, crate::specs::Reading::pair_at, crate::specs::Reading::bind))]
impl Field for IntBlock {
    ghost read_at = { spec.int_block_at };

    fn read(bytes: &[u8]) -> Result<(IntBlock, &[u8]), &[u8]> {
        let (len, after) = i32::read(bytes)?;
        let (disp, rest) = i32::read(after)?;
        Ok((IntBlock { len, disp }, rest))
    }
}

#[tactic(auto, unfolding(crate::specs::Reading::addr_block_at, crate::specs::Reading::map_at, crate::specs::Reading::pair_at, crate::specs::Reading::bind))]
impl Field for AddrBlock {
    ghost read_at = { spec.addr_block_at };

    fn read(bytes: &[u8]) -> Result<(AddrBlock, &[u8]), &[u8]> {
        let (len, after) = i32::read(bytes)?;
        let (disp, rest) = i64::read(after)?;
        Ok((AddrBlock { len, disp }, rest))
    }
}

#[tactic(auto, unfolding(crate::specs::Reading::sub_dim_at, crate::specs::Reading::map_at, crate::specs::Reading::pair_at, crate::specs::Reading::bind))]
impl Field for SubDim {
    ghost read_at = { spec.sub_dim_at };

    fn read(bytes: &[u8]) -> Result<(SubDim, &[u8]), &[u8]> {
        let (size, after_size) = i32::read(bytes)?;
        let (sub, after_sub) = i32::read(after_size)?;
        let (start, rest) = i32::read(after_sub)?;
        Ok((SubDim { size, sub, start }, rest))
    }
}

/// How a dimension is dealt out.
fn dist(bytes: &[u8]) -> Result<(Dist, &[u8]), &[u8]>
    ensures { Gives result (item_at dist_in bytes.now) }
{
    match bytes.split_first() {
        Some((1, rest)) => Ok((Dist::Block, rest)),
        Some((2, rest)) => Ok((Dist::Cyclic, rest)),
        Some((3, rest)) => Ok((Dist::Whole, rest)),
        _ => Err(bytes),
    }
}

/// A block length, or none.
#[tactic(auto, unfolding(crate::specs::Reading::darg_at, crate::specs::Reading::map_at, crate::specs::Reading::bind))]
fn darg(bytes: &[u8]) -> Result<(Option<i32>, &[u8]), &[u8]>
    ensures { Gives result (spec.darg_at bytes.now) }
{
    let (length, rest) = i32::read(bytes)?;
    Ok((darg_of(length), rest))
}

/// The block length that a number stands for.
fn darg_of(length: i32) -> Option<i32>
    ensures { result ≡ spec.darg_of length }
{
    if length == -1 { None } else { Some(length) }
}

#[tactic(auto, unfolding(crate::specs::Reading::dist_dim_at, crate::specs::Reading::map_at, crate::specs::Reading::pair_at, crate::specs::Reading::bind))]
impl Field for DistDim {
    ghost read_at = { spec.dist_dim_at };

    fn read(bytes: &[u8]) -> Result<(DistDim, &[u8]), &[u8]> {
        let (gsize, after_gsize) = i32::read(bytes)?;
        let (dist, after_dist) = dist(after_gsize)?;
        let (darg, after_darg) = darg(after_dist)?;
        let (psize, rest) = i32::read(after_darg)?;
        Ok((
            DistDim {
                gsize,
                dist,
                darg,
                psize,
            },
            rest,
        ))
    }
}

/// The order of an array.
pub(crate) fn order(bytes: &[u8]) -> Result<(Order, &[u8]), &[u8]>
    ensures { Gives result (item_at (slice_get orders) bytes.now) }
{
    item(bytes, &[Order::C, Order::Fortran])
}

/// A basic datatype.
pub(crate) fn kind(bytes: &[u8]) -> Result<(Kind, &[u8]), &[u8]>
    ensures { Gives result (item_at (slice_get kinds) bytes.now) }
{
    item(bytes, &KINDS)
}

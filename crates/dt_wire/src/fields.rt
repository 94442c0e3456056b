//! The arguments of constructors, appended to bytes.
ghost use Rattle.std.specs.Prelude.{◌≡◌, ◌<◌, ◌++◌, ◌∷◌, [], length, OnOk};
ghost use Rattle.std.specs.List.{flat_map};
ghost use Rattle.dt_wire.specs.Spelling as spec;

use byteorder::{BigEndian, ByteOrder};
use dt_form::{AddrBlock, Dist, DistDim, IntBlock, Order, SubDim};
use dt_kinds::{Kind, NoMemory};

/// Appends one byte.
pub(crate) fn push_byte(out: &mut Vec<u8>, byte: u8) -> Result<(), NoMemory>
    ensures { OnOk result (out.new.items ≡ out.old.items ++ byte ∷ []) }
{
    Ok(out.push(byte)?)
}

/// Appends a number of 32 bits.
#[tactic(auto, unfolding(crate::specs::Spelling::int))]
pub(crate) fn push_int(out: &mut Vec<u8>, x: i32) -> Result<(), NoMemory>
    ensures { OnOk result (out.new.items ≡ out.old.items ++ spec.int x) }
{
    let mut bytes = [0; 4];
    BigEndian::write_i32(&mut bytes, x);
    Ok(out.extend_from_slice(&bytes)?)
}

/// Appends a number of 64 bits.
#[tactic(auto, unfolding(crate::specs::Spelling::address))]
pub(crate) fn push_address(out: &mut Vec<u8>, x: i64) -> Result<(), NoMemory>
    ensures { OnOk result (out.new.items ≡ out.old.items ++ spec.address x) }
{
    let mut bytes = [0; 8];
    BigEndian::write_i64(&mut bytes, x);
    Ok(out.extend_from_slice(&bytes)?)
}

/// Appends how long a list is.
#[tactic(auto, unfolding(crate::specs::Spelling::number_of))]
pub(crate) fn push_number<T>(out: &mut Vec<u8>, items: &[T]) -> Result<(), NoMemory>
    requires { length items.now < 65536 }
    ensures { OnOk result (out.new.items ≡ out.old.items ++ spec.number_of items.now) }
{
    let mut bytes = [0; 4];
    BigEndian::write_u32(&mut bytes, items.len() as u32);
    Ok(out.extend_from_slice(&bytes)?)
}

/// Appends the number of a kind.
pub(crate) fn push_kind(out: &mut Vec<u8>, kind: Kind) -> Result<(), NoMemory>
    ensures { OnOk result (out.new.items ≡ out.old.items ++ spec.kind_byte kind ∷ []) }
{
    let byte = match kind {
        Kind::Byte => 0,
        Kind::Char => 1,
        Kind::SignedChar => 2,
        Kind::UnsignedChar => 3,
        Kind::Short => 4,
        Kind::UnsignedShort => 5,
        Kind::Int => 6,
        Kind::Unsigned => 7,
        Kind::Long => 8,
        Kind::UnsignedLong => 9,
        Kind::LongLong => 10,
        Kind::UnsignedLongLong => 11,
        Kind::Int8 => 12,
        Kind::Int16 => 13,
        Kind::Int32 => 14,
        Kind::Int64 => 15,
        Kind::Uint8 => 16,
        Kind::Uint16 => 17,
        Kind::Uint32 => 18,
        Kind::Uint64 => 19,
        Kind::Aint => 20,
        Kind::Count => 21,
        Kind::Offset => 22,
    };
    push_byte(out, byte)
}

/// Appends the order of an array.
pub(crate) fn push_order(out: &mut Vec<u8>, order: Order) -> Result<(), NoMemory>
    ensures { OnOk result (out.new.items ≡ out.old.items ++ spec.order_byte order ∷ []) }
{
    match order {
        Order::C => push_byte(out, 0),
        Order::Fortran => push_byte(out, 1),
    }
}

/// Appends how a dimension is dealt out.
fn push_dist(out: &mut Vec<u8>, dist: Dist) -> Result<(), NoMemory>
    ensures { OnOk result (out.new.items ≡ out.old.items ++ spec.dist_byte dist ∷ []) }
{
    match dist {
        Dist::Block => push_byte(out, 1),
        Dist::Cyclic => push_byte(out, 2),
        Dist::Whole => push_byte(out, 3),
    }
}

/// Appends a block length, -1 where there is none.
fn push_darg(out: &mut Vec<u8>, darg: Option<i32>) -> Result<(), NoMemory>
    ensures { OnOk result (out.new.items ≡ out.old.items ++ spec.darg darg) }
{
    match darg {
        Some(length) => push_int(out, length),
        None => push_int(out, -1),
    }
}

/// Appends a block of an indexed.
#[tactic(auto, unfolding(crate::specs::Spelling::int_block))]
fn push_int_block(out: &mut Vec<u8>, block: IntBlock) -> Result<(), NoMemory>
    ensures { OnOk result (out.new.items ≡ out.old.items ++ spec.int_block block) }
{
    push_int(out, block.len)?;
    push_int(out, block.disp)
}

/// Appends the blocks of an indexed.
pub(crate) fn push_int_blocks(out: &mut Vec<u8>, blocks: &[IntBlock]) -> Result<(), NoMemory>
    ensures { OnOk result (out.new.items ≡ out.old.items ++ flat_map spec.int_block blocks.now) }
{
    'each: for block in blocks {
        push_int_block(out, *block)?;
    }
    Ok(())
}

/// Appends a block of an hindexed.
#[tactic(auto, unfolding(crate::specs::Spelling::addr_block))]
fn push_addr_block(out: &mut Vec<u8>, block: AddrBlock) -> Result<(), NoMemory>
    ensures { OnOk result (out.new.items ≡ out.old.items ++ spec.addr_block block) }
{
    push_int(out, block.len)?;
    push_address(out, block.disp)
}

/// Appends the blocks of an hindexed.
pub(crate) fn push_addr_blocks(out: &mut Vec<u8>, blocks: &[AddrBlock]) -> Result<(), NoMemory>
    ensures { OnOk result (out.new.items ≡ out.old.items ++ flat_map spec.addr_block blocks.now) }
{
    'each: for block in blocks {
        push_addr_block(out, *block)?;
    }
    Ok(())
}

/// Appends displacements in extents.
pub(crate) fn push_int_disps(out: &mut Vec<u8>, disps: &[i32]) -> Result<(), NoMemory>
    ensures { OnOk result (out.new.items ≡ out.old.items ++ flat_map spec.int disps.now) }
{
    'disps: for disp in disps {
        push_int(out, *disp)?;
    }
    Ok(())
}

/// Appends displacements in bytes.
pub(crate) fn push_addr_disps(out: &mut Vec<u8>, disps: &[i64]) -> Result<(), NoMemory>
    ensures { OnOk result (out.new.items ≡ out.old.items ++ flat_map spec.address disps.now) }
{
    'disps: for disp in disps {
        push_address(out, *disp)?;
    }
    Ok(())
}

/// Appends a dimension of a subarray.
#[tactic(auto, unfolding(crate::specs::Spelling::sub_dim))]
fn push_sub_dim(out: &mut Vec<u8>, dim: SubDim) -> Result<(), NoMemory>
    ensures { OnOk result (out.new.items ≡ out.old.items ++ spec.sub_dim dim) }
{
    push_int(out, dim.size)?;
    push_int(out, dim.sub)?;
    push_int(out, dim.start)?;
    Ok(())
}

/// Appends the dimensions of a subarray.
pub(crate) fn push_sub_dims(out: &mut Vec<u8>, dims: &[SubDim]) -> Result<(), NoMemory>
    ensures { OnOk result (out.new.items ≡ out.old.items ++ flat_map spec.sub_dim dims.now) }
{
    'dims: for dim in dims {
        push_sub_dim(out, *dim)?;
    }
    Ok(())
}

/// Appends a dimension of a darray.
#[tactic(auto, unfolding(crate::specs::Spelling::dist_dim))]
fn push_dist_dim(out: &mut Vec<u8>, dim: DistDim) -> Result<(), NoMemory>
    ensures { OnOk result (out.new.items ≡ out.old.items ++ spec.dist_dim dim) }
{
    push_int(out, dim.gsize)?;
    push_dist(out, dim.dist)?;
    push_darg(out, dim.darg)?;
    push_int(out, dim.psize)
}

/// Appends the dimensions of a darray.
pub(crate) fn push_dist_dims(out: &mut Vec<u8>, dims: &[DistDim]) -> Result<(), NoMemory>
    ensures { OnOk result (out.new.items ≡ out.old.items ++ flat_map spec.dist_dim dims.now) }
{
    'dims: for dim in dims {
        push_dist_dim(out, *dim)?;
    }
    Ok(())
}

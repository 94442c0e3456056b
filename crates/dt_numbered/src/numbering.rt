//! Numbers for datatypes that come from elsewhere: a basic one has its own, any other a new one.
ghost use Rattle.std.specs.Prelude.{◌≡◌, Some, MatchResult, slice_get};
ghost use Rattle.dt_kinds.specs.Name.{kinds};
ghost use Rattle.dt_numbered.specs.Numbering.{Numbers, IsUnnumbered};

use dt_form::FormOf;
use dt_kinds::Kind;
use dt_space::{BASIC, Space, SpaceFault, TypeNumber};
use dt_type::Datatype;

/// The place of a kind in the table of kinds.
fn place_of(kind: Kind) -> usize
    ensures { slice_get kinds result ≡ Some kind }
{
    match kind {
        Kind::Byte => 0,
        Kind::Char => 1,
        Kind::SignedChar => 2,
        Kind::UnsignedChar => 3,
        Kind::Short => 4,
        Kind::UnsignedShort => 5,
        Kind::Int => 6,
        Kind::Unsigned => 7,
        Kind::Long => 8,
        Kind::UnsignedLong => 9,
        Kind::LongLong => 10,
        Kind::UnsignedLongLong => 11,
        Kind::Int8 => 12,
        Kind::Int16 => 13,
        Kind::Int32 => 14,
        Kind::Int64 => 15,
        Kind::Uint8 => 16,
        Kind::Uint16 => 17,
        Kind::Uint32 => 18,
        Kind::Uint64 => 19,
        Kind::Aint => 20,
        Kind::Count => 21,
        Kind::Offset => 22,
    }
}

/// A number for a datatype: that of the basic type where it is one, else a new one. `Spent` exactly where it isn't
/// basic and all numbers were used. After a refusal nothing is changed.
pub(crate) fn number_for(space: &mut Space, ty: Datatype) -> Result<TypeNumber, SpaceFault>
    ensures { MatchResult result (λ n. Numbers space.old space.new n ty) (λ fault. (space.new ≡ space.old) × IsUnnumbered space.old ty fault) }
{
    match ty.form() {
        FormOf::Named(kind) => Ok(TypeNumber {
            slot: place_of(*kind),
            serial: BASIC,
        }),
        _ => space.add(ty),
    }
}

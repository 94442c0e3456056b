//! Where the copies of an operation stand, and where their entries begin.
ghost use Rattle.std.specs.Prelude.{◌≡◌, ◌≤◌, ◌+◌, ◌+ℤ◌, ◌*ℤ◌, pos, nat_abs, IsTrue};
ghost use Rattle.dt_kinds.specs.Kind.{native_size};
ghost use Rattle.dt_map.specs.Elements.{lies_inside};
ghost use Rattle.dt_map.specs.Typemap.{shift_entry};
ghost use Rattle.dt_elems.specs.Place.{IsExtent, IsPlace};

use dt_map::Entry;

/// Where the copy of a number stands: so many extents on from the origin.
pub(crate) fn copy_at(origin: i64, copy: u32, extent: i128) -> i128
    requires { IsExtent extent }
    ensures value { result ≡ origin +ℤ (pos copy *ℤ extent) }
    ensures near { IsPlace result }
{
    i128::from(origin) + i128::from(copy) * extent
}

/// Where an entry that is moved on begins in a buffer of so many bytes, in which it lies.
pub(crate) fn start_of(entry: Entry, at: i128, len: usize) -> usize
    requires near { IsPlace at }
    requires inside { IsTrue (lies_inside len (shift_entry at entry)) }
    ensures value { result ≡ nat_abs (entry.disp +ℤ at) }
    ensures within { result + native_size entry.kind ≤ len }
{
    (i128::from(entry.disp) + at) as usize
}

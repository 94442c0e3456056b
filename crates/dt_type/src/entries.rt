//! The typemap read back, entry by entry.
ghost use Rattle.std.specs.Prelude.{◌≡◌, ℕ, ◌*◌, ◌<◌, ◌+ℤ◌, pos, length, get_or, slice_get, IfSome};
ghost use Rattle.std.specs.List.{AllByRecursion};
ghost use Rattle.std.specs.Option.{option_map};
ghost use Rattle.dt_kinds.specs.Displacement.{FitsDisp};
ghost use Rattle.dt_map.specs.Constructors.{copies_at};
ghost use Rattle.dt_map.specs.Placing.{place};
ghost use Rattle.dt_map.specs.Typemap.{shift_entry};
ghost use Rattle.dt_offsets.specs.Near.{IsFactor, AreTurns, StayNear, IsSpot};
ghost use Rattle.dt_type.specs.Conditions.{IsShapePart};
ghost use Rattle.dt_type.specs.Datatype.{typemap_of, entries_of, depth_of};
ghost use Rattle.dt_offsets.specs.Offsets.{row_offsets, turn_offset, grid_offsets, spot_offsets};
ghost use Rattle.dt_type.specs.Shape.{part_members, placed_parts};

use crate::datatype::Datatype;
use crate::shape::{ShapeOf, ShapePart};
use dt_map::Entry;
use dt_offsets::{Spot, Turns, along, grid_at, spots_at};

/// The part that has an entry, and the number of the entry among those of the part.
fn part_at(parts: &[ShapePart], entry: u64) -> (&ShapePart, u64)
    requires parts { AllByRecursion IsShapePart parts.now }
    requires within { entry < length (placed_parts parts.now).entries }
    ensures entry { slice_get (placed_parts parts.now).entries entry ≡ slice_get (place (part_members result.0.now)).entries result.1 }
    ensures within { result.1 < length (place (part_members result.0.now)).entries }
    ensures part { IsShapePart result.0.now }
    ensures below { (limit : ℕ) → AllByRecursion (λ p. depth_of p.old < limit) parts.now → depth_of result.0.now.old < limit }
{
    let mut left = entry;
    for part in parts {
        let entries = u128::from(part.copies) * u128::from(part.old.bounds().elements);
        if u128::from(left) < entries {
            return (part, left);
        }
        left -= entries as u64;
    }
    unreachable!()
}

/// For an entry of copies that nested turns place: the offset of its copy, and its number in the old type.
fn in_grid(turns: &[Turns], old: &Datatype, entries: u64, entry: u64) -> (i128, u64)
    requires turns { AllByRecursion AreTurns turns.now }
    requires near { StayNear turns.now }
    requires entries { entries ≡ length (copies_at (grid_offsets turns.now) (typemap_of old.now)).entries }
    requires within { entry < entries }
    ensures { slice_get (copies_at (grid_offsets turns.now) (typemap_of old.now)).entries entry ≡ option_map (shift_entry result.0) (slice_get (entries_of old.now) result.1) }
{
    let each = old.bounds().elements;
    let offset = grid_at(turns, entries / each, entry / each);
    (offset, entry % each)
}

/// The same for copies that spots place.
fn in_spots(spots: &[Spot], old: &Datatype, entry: u64) -> (i128, u64)
    requires spots { AllByRecursion IsSpot spots.now }
    requires within { entry < length (copies_at (spot_offsets spots.now) (typemap_of old.now)).entries }
    ensures { slice_get (copies_at (spot_offsets spots.now) (typemap_of old.now)).entries entry ≡ option_map (shift_entry result.0) (slice_get (entries_of old.now) result.1) }
{
    let each = old.bounds().elements;
    let offset = spots_at(spots, entry / each);
    (offset, entry % each)
}

/// The same for copies in a row.
fn in_row(first: i128, copies: u32, step: i128, old: &Datatype, entry: u64) -> (i128, u64)
    requires first { IsFactor first }
    requires step { IsFactor step }
    requires within { entry < length (copies_at (row_offsets first copies step) (typemap_of old.now)).entries }
    ensures { slice_get (copies_at (row_offsets first copies step) (typemap_of old.now)).entries entry ≡ option_map (shift_entry result.0) (slice_get (entries_of old.now) result.1) }
{
    let each = old.bounds().elements;
    let offset = along(first, entry / each, step);
    (offset, entry % each)
}

/// An entry so many bytes further on.
pub(crate) fn further(entry: Entry, offset: i128) -> Entry
    requires { FitsDisp (entry.disp +ℤ offset) }
    ensures { result ≡ shift_entry offset entry }
{
    let disp = i128::from(entry.disp) + offset;
    Entry {
        kind: entry.kind,
        disp: disp as i64,
    }
}

/// The same of an entry that may be missing.
fn moved(entry: Option<Entry>, offset: i128) -> Option<Entry>
    requires { IfSome entry (λ e. FitsDisp (e.disp +ℤ offset)) }
    ensures { result ≡ option_map (shift_entry offset) entry }
{
    match entry {
        None => None,
        Some(entry) => Some(further(entry, offset)),
    }
}

impl Datatype {
    /// Entry `entry` of the typemap, counted from 0, without listing it; none where the typemap has no more than so many. The time
    /// is that of reading the shapes on the way down to a kind.
    pub fn entry_at(&self, entry: u64) -> Option<Entry>
        ensures { result ≡ slice_get (entries_of self.now) entry }
    {
        let entries = self.bounds().elements;
        if entry >= entries {
            return None;
        }
        match self.shape() {
            ShapeOf::One(kind) => Some(Entry {
                kind: *kind,
                disp: 0,
            }),
            ShapeOf::Grid { turns, old } => {
                let (offset, inner) = in_grid(turns.as_slice(), old, entries, entry);
                moved(old.entry_at(inner), offset)
            }
            ShapeOf::Each { spots, old } => {
                let (offset, inner) = in_spots(spots.as_slice(), old, entry);
                moved(old.entry_at(inner), offset)
            }
            ShapeOf::Seq { parts } => {
                let (part, left) = part_at(parts.as_slice(), entry);
                let (offset, inner) = in_row(part.first, part.copies, part.step, &part.old, left);
                moved(part.old.entry_at(inner), offset)
            }
        }
    }
}

//! A typemap as a plain list.
ghost use Rattle.std.specs.Prelude.{◌≡◌, IsOk, IfOk, ◌↔◌, IsTrue};
ghost use Rattle.std.specs.List.{All};
ghost use Rattle.dt_kinds.specs.Displacement.{FitsDisp};
ghost use Rattle.dt_map.specs.Bounds.{bounds_of};
ghost use Rattle.dt_map.specs.Limits.{EntryFits, MarksFit, Fits};

use crate::bounds::{Bounds, natural_bounds};
use crate::entry::Entry;
use dt_kinds::fits_disp;
use dt_offsets::Marks;
use std::marker::Model;
use thiserror::Error;

/// Why a list of entries is no typemap.
#[derive(Clone, Copy, Debug, PartialEq, Eq, Error)]
pub enum MapFault {
    #[error("a displacement, the end of an entry or a mark is out of range")]
    Overflow,
}

/// A typemap as a plain list of entries, with its marks where it has them.
#[derive(Debug, Drop)]
pub struct FlatMap {
    entries: Vec<Entry>,
    marks: Option<Marks>,
}

impl Model for FlatMap {
    ghost use Rattle.dt_map.specs.Typemap.{Marked};
    ghost use Rattle.dt_map.specs.Limits.{Fits};

    ghost Value = { Marked };

    ghost view = { λ a. record { entries = a.entries.items; marks = a.marks } };

    ghost invariant = { λ a. Fits (record { entries = a.entries.items; marks = a.marks }) };
}

/// Whether both marks fit.
fn marks_fit(marks: Marks) -> bool
    ensures { IsTrue result ↔ FitsDisp marks.lb × FitsDisp marks.ub }
{
    fits_disp(i128::from(marks.lb)) && fits_disp(i128::from(marks.ub))
}

impl FlatMap {
    /// A typemap of these entries in this order, with these marks. `Overflow` where a displacement, the end of an
    /// entry or a mark is out of range. It takes no memory.
    pub fn new(entries: Vec<Entry>, marks: Option<Marks>) -> Result<FlatMap, MapFault>
        ensures ok { IfOk result (λ m. m ≡ record { entries = entries.items; marks = marks }) }
        ensures in_range { IsOk result ↔ Fits (record { entries = entries.items; marks = marks }) }
    {
        if entries.iter().all(|e| e.fits()) && marks.is_none_or(|m| marks_fit(m)) {
            Ok(FlatMap { entries, marks })
        } else {
            Err(MapFault::Overflow)
        }
    }

    /// The entries in order. Each begins and ends in range.
    pub fn entries(&self) -> &[Entry]
        ensures value { result.now ≡ self.now.entries }
        ensures in_range { All EntryFits result.now }
    {
        &self.entries
    }

    /// The marks, where there are any. Each is in range.
    pub fn marks(&self) -> Option<Marks>
        ensures value { result ≡ self.now.marks }
        ensures in_range { MarksFit result }
    {
        self.marks
    }

    /// The sizes, the number of entries, the alignment and the bounds, in one pass over the entries.
    pub fn bounds(&self) -> Bounds
        ensures { result ≡ bounds_of self.now }
    {
        let natural = natural_bounds(&self.entries);
        match self.marks {
            Some(marks) => Bounds {
                lb: marks.lb,
                ub: marks.ub,
                ..natural
            },
            None => natural,
        }
    }
}

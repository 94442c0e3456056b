//! One entry of a typemap.
ghost use Rattle.std.specs.Prelude.{◌≡◌, ◌↔◌, IsTrue};
ghost use Rattle.dt_map.specs.Bounds.{end_of};
ghost use Rattle.dt_map.specs.Limits.{EntryFits};

use dt_kinds::{Kind, fits_disp};

/// A basic type at a displacement in bytes (MPI 4.1, section 5.1).
#[derive(Clone, Copy, Debug, PartialEq, Eq)]
pub struct Entry {
    pub kind: Kind,
    pub disp: i64,
}

impl Entry {
    /// Where the entry ends, in bytes.
    fn end(self) -> i128
        ensures { result ≡ end_of self }
    {
        i128::from(self.disp) + i128::from(self.kind.size())
    }

    /// Whether both where the entry begins and where it ends fit.
    pub(crate) fn fits(self) -> bool
        ensures { IsTrue result ↔ EntryFits self }
    {
        fits_disp(i128::from(self.disp)) && fits_disp(self.end())
    }
}

//! The range of a displacement.
ghost use Rattle.std.specs.Prelude.{◌↔◌, IsTrue};
ghost use Rattle.dt_kinds.specs.Displacement.{FitsDisp};

/// The greatest absolute value of a displacement, a bound or a size, `2^60`.
pub const DISP_MAX: i64 = 1 << 60;

/// Whether a number may be a displacement or a bound: its absolute value is at most `DISP_MAX`.
pub fn fits_disp(x: i128) -> bool
    ensures { IsTrue result ↔ FitsDisp x }
{
    let most = i128::from(DISP_MAX);
    -most <= x && x <= most
}

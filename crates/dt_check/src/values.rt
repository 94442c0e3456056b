//! The values of a table, by length and start.
ghost use Rattle.std.specs.Prelude.{◌≡◌, ℕ, ◌+◌, ◌≤◌, IfOk, length};
ghost use Rattle.std.specs.List.{All};
ghost use Rattle.dt_normal.specs.declared.low.Low.{Low};
ghost use Rattle.dt_check.specs.Members.{IsMember, table_of};
ghost use Rattle.dt_check.specs.Rows.{AreRows, table_in, with_value};
ghost use Rattle.dt_check.specs.Spread.{AreSpread, IsSpread};

use dt_alike::Classes;
use dt_kinds::NoMemory;
use dt_normal::Low;
use std::alloc::Global;

/// Zeros for all segments: for each length, the shorter first, one for each start.
fn zeros(alloc: Global, len: usize) -> Result<Vec<Vec<u64>>, NoMemory>
    requires { len ≤ 1024 }
    ensures rows { IfOk result (λ rows. AreRows len rows.items) }
    ensures each { IfOk result (λ rows. length rows.items ≡ len) }
    ensures values { IfOk result (λ rows. (start size : ℕ) → table_in rows.items start size ≡ 0) }
{
    let mut rows = Vec::with_capacity(alloc, len)?;
    'lengths: for k in 0..len {
        let row = vec![in alloc; 0; len - k]?;
        rows.push(row)?;
    }
    Ok(rows)
}

/// Sets the value of one segment.
fn set_value(rows: &mut [Vec<u64>], from: usize, size: usize, value: u64)
    requires rows { AreRows (length rows.old) rows.old }
    requires some { 1 ≤ size }
    requires inside { from + size ≤ length rows.old }
    ensures rows { AreRows (length rows.old) rows.new }
    ensures each { length rows.new ≡ length rows.old }
    ensures values { (start len : ℕ) → table_in rows.new start len ≡ with_value (table_in rows.old) from size value start len }
{
    let row = &mut rows[size - 1];
    row[from] = value;
}

/// The values that members give to all segments.
pub(crate) fn values(
    alloc: Global,
    classes: &Classes,
    lows: &[Low],
) -> Result<Vec<Vec<u64>>, NoMemory>
    requires members { All (IsMember classes.now) lows.now }
    ensures rows { IfOk result (λ rows. AreRows (length classes.now) rows.items) }
    ensures each { IfOk result (λ rows. length rows.items ≡ length classes.now) }
    ensures values { IfOk result (λ rows. (start len : ℕ) → table_in rows.items start len ≡ table_of lows.now start len) }
{
    let mut rows = zeros(alloc, classes.len() as usize)?;
    'lows: for k in 0..lows.len() {
        let a = lows[lows.len() - 1 - k];
        set_value(&mut rows, a.from as usize, (a.to - a.from) as usize, a.low);
    }
    Ok(rows)
}

/// For each segment of a length what a row says of the first segment of its class.
fn spread_row(alloc: Global, classes: &Classes, len: u32, row: &[u64]) -> Result<Vec<u64>, NoMemory>
    requires some { 1 ≤ len }
    requires inside { len ≤ length classes.now }
    requires row { length row.now + len ≡ length classes.now + 1 }
    ensures { IfOk result (λ spread. IsSpread classes.now len (length row.now) row.now spread.items) }
{
    let mut spread = Vec::with_capacity(alloc, row.len())?;
    'starts: for start in 0..classes.len() + 1 - len {
        spread.push(row[classes.first(start, start + len) as usize])?;
    }
    Ok(spread)
}

/// For each segment what the rows say of the first segment of its class.
pub(crate) fn spread(
    alloc: Global,
    classes: &Classes,
    firsts: &[Vec<u64>],
) -> Result<Vec<Vec<u64>>, NoMemory>
    requires rows { AreRows (length classes.now) firsts.now }
    requires each { length firsts.now ≡ length classes.now }
    ensures { IfOk result (λ rows. AreSpread classes.now (length classes.now) firsts.now rows.items) }
{
    let mut rows = Vec::with_capacity(alloc, firsts.len())?;
    'lengths: for k in 0..classes.len() {
        let row = spread_row(alloc, classes, k + 1, &firsts[k as usize])?;
        rows.push(row)?;
    }
    Ok(rows)
}

//! Values of single segments made values of classes.
ghost use Rattle.std.specs.Prelude.{◌≡◌, ◌≤◌, ◌<◌, ◌+◌, ◌-◌, ◌*◌, ◌++◌, IfOk, OnOk, ℕ, length, slice_index};
ghost use Rattle.std.specs.List.{All};
ghost use Rattle.dt_normal.specs.Lows.{listed, listed_at};
ghost use Rattle.dt_check.specs.Members.{IsMember};
ghost use Rattle.dt_cert.specs.Classes.{AreRising};
ghost use Rattle.dt_verdict.specs.Classed.{greatest_in, own_value, values_by_classes};

use dt_alike::Classes;
use dt_kinds::NoMemory;
use dt_normal::Low;
use std::alloc::Global;

/// The greatest value of each class, by its number.
fn greatest(alloc: Global, classes: &Classes, values: &[Low]) -> Result<Vec<u64>, NoMemory>
    requires members { All (IsMember classes.now) values.now }
    ensures each { IfOk result (λ numbers. length numbers.items ≡ length classes.now * length classes.now + 1) }
    ensures greatest { IfOk result (λ numbers. (class : ℕ) → class ≤ length classes.now * length classes.now → slice_index numbers.items class ≡ greatest_in classes.now values.now class) }
{
    let n = classes.len() as usize;
    let mut greatest = vec![in alloc; 0; n * n + 1]?;
    'values: for a in values {
        let class = classes.class(a.from, a.to) as usize;
        greatest[class] = a.low.max(greatest[class]);
    }
    Ok(greatest)
}

/// The number of a segment's class in a list, where the segment is the first one of it; else 0.
fn own_value(classes: &Classes, numbers: &[u64], from: u32, to: u32) -> u64
    requires each { length numbers.now ≡ length classes.now * length classes.now + 1 }
    requires some { from < to }
    requires inside { to ≤ length classes.now }
    ensures { result ≡ own_value classes.now numbers.now from (to - from) }
{
    if classes.first(from, to) == from {
        numbers[classes.class(from, to) as usize]
    } else {
        0
    }
}

/// Lists the first segments of one length whose values are above 0.
fn list_length(
    classes: &Classes,
    numbers: &[u64],
    len: u32,
    values: &mut Vec<Low>,
) -> Result<(), NoMemory>
    requires each { length numbers.now ≡ length classes.now * length classes.now + 1 }
    requires some { 1 ≤ len }
    requires inside { len ≤ length classes.now }
    ensures { OnOk result (values.new.items ≡ values.old.items ++ listed_at (length classes.now) (own_value classes.now numbers.now) len) }
{
    'starts: for start in 0..classes.len() + 1 - len {
        let low = own_value(classes, numbers, start, start + len);
        if low > 0 {
            values.push(Low {
                from: start,
                to: start + len,
                low,
            })?;
        }
    }
    Ok(())
}

/// Lists the first segments whose values are above 0, the shorter first, then by their starts.
fn list(alloc: Global, classes: &Classes, numbers: &[u64]) -> Result<Vec<Low>, NoMemory>
    requires each { length numbers.now ≡ length classes.now * length classes.now + 1 }
    ensures { IfOk result (λ values. values.items ≡ listed (length classes.now) (own_value classes.now numbers.now)) }
{
    let mut values = Vec::new(alloc);
    'lengths: for k in 0..classes.len() {
        list_length(classes, numbers, k + 1, &mut values)?;
    }
    Ok(values)
}

/// The values of classes that come from values of segments: for each class with a value above 0 the greatest one, in the line of its first
/// segment.
pub(crate) fn values_by_classes(
    alloc: Global,
    classes: &Classes,
    values: &[Low],
) -> Result<Vec<Low>, NoMemory>
    requires members { All (IsMember classes.now) values.now }
    requires rising { AreRising values.now }
    ensures { IfOk result (λ found. found.items ≡ values_by_classes classes.now values.now) }
{
    let numbers = greatest(alloc, classes, values)?;
    list(alloc, classes, &numbers)
}

//! The first segment at which a table isn't valid.
ghost use Rattle.std.specs.Prelude.{◌≡◌, ◌-◌, IfOk, MatchOption, length};
ghost use Rattle.std.specs.List.{All};
ghost use Rattle.dt_normal.specs.Table.{IsValid};
ghost use Rattle.dt_tree.specs.Weights.{AreLight};
ghost use Rattle.dt_check.specs.Classes.{of_classes};
ghost use Rattle.dt_check.specs.Failing.{IsFirstFailing};
ghost use Rattle.dt_check.specs.Members.{IsMember, table_of};
ghost use Rattle.dt_check.specs.Rows.{AreRows, table_in};

use crate::level::{Tested, test_length};
use crate::sums::Sums;
use crate::values::{spread, values};
use dt_alike::Classes;
use dt_kinds::NoMemory;
use dt_normal::Low;
use dt_tree::Weights;
use std::alloc::Global;

/// The segment of the entries numbered `from` and on, without `to`.
#[derive(Clone, Copy, Debug, PartialEq, Eq)]
pub struct Segment {
    pub from: u32,
    pub to: u32,
}

/// The weights are within their limits.
fn are_light(w: &Weights)
    ensures { AreLight w.now }
{
    let _leaf = w.leaf();
    let _vector = w.vector();
    let _index = w.index();
    let _place = w.place();
    let _group = w.group();
    let _part = w.part();
}

/// The first segment at which the table of some values isn't valid.
fn failing_in(
    alloc: Global,
    classes: &Classes,
    w: &Weights,
    values: &[Vec<u64>],
) -> Result<Option<Segment>, NoMemory>
    requires light { AreLight w.now }
    requires rows { AreRows (length classes.now) values.now }
    requires each { length values.now ≡ length classes.now }
    ensures { IfOk result (λ found. MatchOption found (IsValid w.now classes.now (table_in values.now)) (λ s. IsFirstFailing w.now classes.now (table_in values.now) s.from (s.to - s.from))) }
{
    let mut sums = Sums::new(alloc);
    'lengths: for k in 0..classes.len() {
        match test_length(alloc, classes, w, k + 1, values, &sums)? {
            Tested::Holds(level) => sums.push(level)?,
            Tested::Fails(start) => {
                return Ok(Some(Segment {
                    from: start,
                    to: start + k + 1,
                }));
            }
        }
    }
    Ok(None)
}

/// The first segment, shorter ones first and then by start, at which the table of some members isn't valid: its value is above what one
/// node could cost over the values of the segments below it. None exactly where the table is valid, so that no tree of any segment costs
/// less than the table says. A segment that no member names has the value 0.
///
/// It takes the classes of the segments and no displacement or kind, and the values of the members alone. It takes memory that grows with
/// the square of the number of entries, and time that grows with the cube. `NoMemory` where memory ran out.
pub fn first_failing(
    alloc: Global,
    classes: &Classes,
    w: &Weights,
    lows: &[Low],
) -> Result<Option<Segment>, NoMemory>
    requires members { All (IsMember classes.now) lows.now }
    ensures { IfOk result (λ found. MatchOption found (IsValid w.now classes.now (table_of lows.now)) (λ s. IsFirstFailing w.now classes.now (table_of lows.now) s.from (s.to - s.from))) }
{
    are_light(w);
    let values = values(alloc, classes, lows)?;
    failing_in(alloc, classes, w, &values)
}

/// The same, where each segment has the value of the first segment of its class: the members name first segments, and others are passed
/// over.
pub fn first_failing_of_classes(
    alloc: Global,
    classes: &Classes,
    w: &Weights,
    lows: &[Low],
) -> Result<Option<Segment>, NoMemory>
    requires members { All (IsMember classes.now) lows.now }
    ensures { IfOk result (λ found. MatchOption found (IsValid w.now classes.now (of_classes classes.now (table_of lows.now))) (λ s. IsFirstFailing w.now classes.now (of_classes classes.now (table_of lows.now)) s.from (s.to - s.from))) }
{
    are_light(w);
    let firsts = values(alloc, classes, lows)?;
    let values = spread(alloc, classes, &firsts)?;
    failing_in(alloc, classes, w, &values)
}

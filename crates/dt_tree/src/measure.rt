//! The true bounds and the alignment of what nodes place, by arithmetic.
ghost use Rattle.std.specs.Prelude.{◌≡◌, ◌≤◌, ◌<◌, Some, ◌≤ℤ◌, pos, nat_abs, List, length, IsTrue, MatchOption};
ghost use Rattle.std.specs.List.{list_all};
ghost use Rattle.dt_map.specs.declared.entry.Entry.{Entry};
ghost use Rattle.dt_map.specs.Runs.{natural_extent, placed_at, even, run};
ghost use Rattle.dt_offsets.specs.Span.{stretched};
ghost use Rattle.dt_map.specs.Typemap.{shift};
ghost use Rattle.dt_tree.specs.Measure.{IsNear, IsClose, IsMeasure, IsShortMeasure, IsWhole};
ghost use Rattle.dt_tree.specs.Rule.{is_step};
ghost use Rattle.dt_tree.specs.Tree.{flat, leaf};

use crate::span::{Span, around, evenly, point, sums, width};
use dt_kinds::Kind;

/// The true bounds of entries and their alignment.
#[derive(Clone, Copy)]
pub(crate) struct Measure {
    pub(crate) span: Span,
    pub(crate) align: u32,
}

/// Of one entry of a kind, at 0.
pub(crate) fn of_kind(kind: Kind) -> Measure
    ensures value { IsMeasure (flat (leaf kind)) result.span result.align }
    ensures close { IsClose result.span }
{
    let size = kind.size();
    Measure {
        span: Span {
            lb: 0,
            ub: i128::from(size),
        },
        align: size,
    }
}

impl Measure {
    /// The natural extent of entries with this measure.
    pub(crate) fn extent(&self) -> u128
        requires close { IsClose self.now.span }
        requires ordered { self.now.span.lb ≤ℤ self.now.span.ub }
        requires aligned { 0 < self.now.align }
        requires few { self.now.align ≤ 8 }
        ensures value { (es : List Entry) → IsMeasure es self.now.span self.now.align → pos result ≡ natural_extent es }
        ensures near { result ≤ 4835703278458516698824704 }
    {
        let far = width(self.span);
        let align = u128::from(self.align);
        far + (align - far % align) % align
    }

    /// The measure of copies at places of this reach.
    fn at(self, reach: Span) -> Measure
        requires near { IsNear self.span }
        requires reach { IsNear reach }
        ensures span { Some result.span ≡ stretched (Some reach) (Some self.span) }
        ensures align { result.align ≡ self.align }
    {
        Measure {
            span: sums(reach, self.span),
            align: self.align,
        }
    }

    /// The measure of a block of so many copies.
    fn in_block(self, block: u32) -> Measure
        requires whole { IsWhole self }
        requires some { 0 < block }
        requires short { block ≤ 1024 }
        ensures value { (es : List Entry) → IsMeasure es self.span self.align → IsMeasure (run block es) result.span result.align }
        ensures near { IsNear result.span }
    {
        let last = u128::from(block - 1) * self.extent();
        self.at(Span {
            lb: 0,
            ub: last as i128,
        })
    }

    /// This measure, where its bounds are within the rule of trees.
    pub(crate) fn short(self) -> Option<Measure>
        ensures { MatchOption result (¬ IsClose self.span) (λ m. (m ≡ self) × IsClose self.span) }
    {
        let limit = 1_208_925_819_614_629_174_706_176;
        if self.span.lb.unsigned_abs() <= limit && self.span.ub.unsigned_abs() <= limit {
            Some(self)
        } else {
            None
        }
    }
}

/// The measure of blocks of copies with one stride.
pub(crate) fn in_vector(one: Measure, count: u32, block: u32, stride: i64) -> Option<Measure>
    requires one { IsWhole one }
    requires some { 0 < block }
    requires short { block ≤ 1024 }
    requires turns { 0 < count }
    requires stride { nat_abs stride ≤ 2305843009213693952 }
    ensures { (es : List Entry) → IsMeasure es one.span one.align → IsShortMeasure (placed_at (even count stride) (run block es)) result }
{
    one.in_block(block).at(evenly(count, stride)).short()
}

/// The measure of blocks of copies at places.
pub(crate) fn in_index(one: Measure, block: u32, places: &[i64]) -> Option<Measure>
    requires one { IsWhole one }
    requires some { 0 < block }
    requires short { block ≤ 1024 }
    requires placed { 0 < length places.now }
    requires places { IsTrue (list_all is_step places.now) }
    ensures { (es : List Entry) → IsMeasure es one.span one.align → IsShortMeasure (placed_at places.now (run block es)) result }
{
    let reach = around(places).unwrap();
    one.in_block(block).at(reach).short()
}

/// The measure of a block of copies at a displacement.
pub(crate) fn in_part(one: Measure, block: u32, disp: i64) -> Measure
    requires one { IsWhole one }
    requires some { 0 < block }
    requires short { block ≤ 1024 }
    ensures { (es : List Entry) → IsMeasure es one.span one.align → IsMeasure (shift disp (run block es)) result.span result.align }
{
    one.in_block(block).at(point(i128::from(disp)))
}

//! How many offsets there are and how far they reach, by arithmetic on the few numbers that say the offsets.
ghost use Rattle.std.specs.Prelude.{◌≡◌};
ghost use Rattle.std.specs.List.{AllByRecursion};
ghost use Rattle.dt_offsets.specs.Near.{IsFactor, AreTurns, StayNear, IsSpot, IsNearSpan};
ghost use Rattle.dt_offsets.specs.Offsets.{row_offsets, turn_offsets, grid_offsets, spot_offsets};
ghost use Rattle.dt_offsets.specs.Reach as spec;
ghost use Rattle.dt_offsets.specs.Reach.{capped};

use crate::span::{Span, joined_spans, row_span, stretched, turns_span};
use crate::turns::{Spot, Turns};

/// How many offsets there are, up to the greatest `u64`, and their span.
#[derive(Clone, Copy)]
pub struct Reach {
    pub copies: u64,
    pub span: Option<Span>,
}

/// Of so many offsets with this span.
fn counted(copies: u64, span: Option<Span>) -> Reach
    ensures { result ≡ record { copies = capped copies; span = span } }
{
    Reach { copies, span }
}

/// Of two lists of offsets, one after the other.
fn beside(a: Reach, b: Reach) -> Reach
    ensures { result ≡ spec.beside a b }
{
    Reach {
        copies: a.copies.saturating_add(b.copies),
        span: joined_spans(a.span, b.span),
    }
}

/// Of all sums of an offset of each.
fn summed(outer: Reach, inner: Reach) -> Reach
    requires outer { IsNearSpan outer.span }
    requires inner { IsNearSpan inner.span }
    ensures { result ≡ spec.summed outer inner }
{
    Reach {
        copies: outer.copies.saturating_mul(inner.copies),
        span: stretched(outer.span, inner.span),
    }
}

/// Of copies in a row.
pub fn row_reach(first: i128, copies: u32, step: i128) -> Reach
    requires first { IsFactor first }
    requires step { IsFactor step }
    ensures value { result ≡ spec.reach (row_offsets first copies step) }
    ensures near { IsNearSpan result.span }
{
    let copies = u64::from(copies);
    counted(copies, row_span(first, copies, step))
}

/// Of turns.
pub fn turns_reach(turns: &Turns) -> Reach
    requires { AreTurns turns.now }
    ensures value { result ≡ spec.reach (turn_offsets turns.now) }
    ensures near { IsNearSpan result.span }
{
    counted(turns.count, turns_span(turns))
}

/// Of nested turns.
pub fn grid_reach(turns: &[Turns]) -> Reach
    requires turns { AllByRecursion AreTurns turns.now }
    requires near { StayNear turns.now }
    ensures value { result ≡ spec.reach (grid_offsets turns.now) }
    ensures near { IsNearSpan result.span }
{
    let mut reach = Reach {
        copies: 1,
        span: Some(Span { lb: 0, ub: 0 }),
    };
    for inner in turns {
        reach = summed(reach, turns_reach(inner));
    }
    reach
}

/// Of the rows of spots.
pub fn spots_reach(spots: &[Spot]) -> Reach
    requires { AllByRecursion IsSpot spots.now }
    ensures value { result ≡ spec.reach (spot_offsets spots.now) }
    ensures near { IsNearSpan result.span }
{
    let mut reach = Reach {
        copies: 0,
        span: None,
    };
    for spot in spots {
        reach = beside(reach, row_reach(spot.first, spot.copies, spot.step));
    }
    reach
}

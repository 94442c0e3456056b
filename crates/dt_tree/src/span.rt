//! Spans of numbers of bytes, wide enough for all that trees within the rule add up.
ghost use Rattle.std.specs.Prelude.{◌≡◌, ◌≤◌, ◌<◌, Some, ◌-ℤ◌, ◌*ℤ◌, pos, nat_abs, [], ◌∷◌};
ghost use Rattle.dt_offsets.specs.Span.{joined_marks, reach_of, stretched};
ghost use Rattle.dt_map.specs.Runs.{even};
ghost use Rattle.dt_tree.specs.Measure.{IsNear};

use std::marker::Model;

/// A least and a greatest number of bytes.
#[derive(Clone, Copy)]
pub(crate) struct Span {
    pub(crate) lb: i128,
    pub(crate) ub: i128,
}

impl Model for Span {
    ghost use Rattle.dt_offsets.specs.declared.marks.Marks.{Marks};

    ghost Value = { Marks };

    ghost view = { λ a. record { lb = a.lb; ub = a.ub } };

    ghost inverse = { λ m. record { lb = m.lb; ub = m.ub } };
}

/// So many steps.
pub(crate) fn steps(times: u32, step: i64) -> i128
    requires { nat_abs step ≤ 2305843009213693952 }
    ensures value { result ≡ pos times *ℤ step }
    ensures near { nat_abs result ≤ 9903520314283042199192993792 }
{
    i128::from(times) * i128::from(step)
}

/// The span of one number.
pub(crate) fn point(x: i128) -> Span
    ensures { Some result ≡ reach_of (x ∷ []) }
{
    Span { lb: x, ub: x }
}

/// The span around one span and another, where there is one.
pub(crate) fn joined(a: Option<Span>, b: Span) -> Span
    ensures { Some result ≡ joined_marks a (Some b) }
{
    match a {
        None => b,
        Some(a) => Span {
            lb: a.lb.min(b.lb),
            ub: a.ub.max(b.ub),
        },
    }
}

/// The span of all sums of a number within one span and one within the other.
pub(crate) fn sums(a: Span, b: Span) -> Span
    requires first { IsNear a }
    requires second { IsNear b }
    ensures { Some result ≡ stretched (Some a) (Some b) }
{
    Span {
        lb: b.lb + a.lb,
        ub: b.ub + a.ub,
    }
}

/// How far a span reaches.
pub(crate) fn width(span: Span) -> u128
    ensures { result ≡ nat_abs (span.ub -ℤ span.lb) }
{
    span.ub.abs_diff(span.lb)
}

/// The span of places with an even step from 0 on.
pub(crate) fn evenly(count: u32, step: i64) -> Span
    requires some { 0 < count }
    requires step { nat_abs step ≤ 2305843009213693952 }
    ensures value { Some result ≡ reach_of (even count step) }
    ensures near { IsNear result }
{
    let last = steps(count - 1, step);
    Span {
        lb: last.min(0),
        ub: last.max(0),
    }
}

/// The span of places, none of none.
pub(crate) fn around(places: &[i64]) -> Option<Span>
    ensures { result ≡ reach_of places.now }
{
    let mut span = None;
    'places: for place in places {
        span = Some(joined(span, point(i128::from(*place))));
    }
    span
}

//! One level of turns in the place of two.
ghost use Rattle.std.specs.Prelude.{◌≡◌, ◌≤◌, ◌*◌, ◌^◌, ◌+ℤ◌, ◌↔◌, IsTrue, IfSome};
ghost use Rattle.dt_layout.specs.Merging.{AreEven, AreSame, AreJoined};
ghost use Rattle.dt_offsets.specs.Near.{IsFactor, AreTurns};

use dt_offsets::along;
use dt_type::Turns;

/// The most turns of a block, and the most blocks.
const BLOCK_MAX: u64 = 1 << 32;

/// Every first, jump and step is less.
const FACTOR_LIMIT: u128 = 1 << 93;

pub(crate) fn are_equal(a: i128, b: i128) -> bool
    ensures { IsTrue result ↔ (a ≡ b) }
{
    a == b
}

fn is_factor(x: i128) -> bool
    ensures { IsTrue result ↔ IsFactor x }
{
    x.unsigned_abs() < FACTOR_LIMIT
}

/// Whether there are not too many blocks of a length that is not too great.
fn are_few(turns: &Turns) -> bool
    ensures { IsTrue result ↔ (1 ≤ turns.now.block) × (turns.now.block ≤ 2 ^ 32) × (turns.now.count ≤ 2 ^ 32 * turns.now.block) }
{
    let most = u128::from(turns.block) * u128::from(BLOCK_MAX);
    1 <= turns.block && turns.block <= BLOCK_MAX && u128::from(turns.count) <= most
}

/// The same turns, where their numbers are in range.
fn in_range(turns: Turns) -> Option<Turns>
    ensures { IfSome result (λ t. (t ≡ turns) × AreTurns t) }
{
    if is_factor(turns.first) && is_factor(turns.jump) && is_factor(turns.step) && are_few(&turns) {
        Some(turns)
    } else {
        None
    }
}

/// The step of turns, where they are evenly spaced.
fn even_step(turns: &Turns) -> Option<i128>
    requires { AreTurns turns.now }
    ensures { IfSome result (AreEven turns.now) }
{
    if turns.count <= turns.block {
        return Some(turns.step);
    }
    if turns.block == 1 {
        return Some(turns.jump);
    }
    if are_equal(turns.jump, along(0, turns.block, turns.step)) {
        return Some(turns.step);
    }
    None
}

/// The same turns; as one block, where they are evenly spaced and not too many for one.
pub(crate) fn evened(turns: &Turns) -> Turns
    requires { AreTurns turns.now }
    ensures { AreSame turns.now result }
{
    let Some(step) = even_step(turns) else {
        return *turns;
    };
    let block = Turns {
        first: turns.first,
        count: turns.count,
        block: turns.count,
        jump: 0,
        step,
    };
    match in_range(block) {
        Some(block) => block,
        None => *turns,
    }
}

/// Turns so many bytes further on.
fn moved(turns: &Turns, by: i128) -> Option<Turns>
    requires turns { AreTurns turns.now }
    requires by { IsFactor by }
    ensures { IfSome result (λ t. (t ≡ record { first = turns.now.first +ℤ by; count = turns.now.count; block = turns.now.block; jump = turns.now.jump; step = turns.now.step }) × AreTurns t) }
{
    in_range(Turns {
        first: turns.first + by,
        ..*turns
    })
}

/// Longer blocks: after each turn of the outer blocks, evenly spaced ones fill the way to the next.
fn lengthened(outer: &Turns, inner: &Turns, step: i128) -> Option<Turns>
    requires outer { AreTurns outer.now }
    requires inner { AreTurns inner.now }
    requires few { inner.now.count ≤ 2 ^ 32 }
    requires even { AreEven inner.now step }
    ensures { IfSome result (AreJoined outer.now inner.now) }
{
    if !are_equal(outer.step, along(0, inner.count, step)) {
        return None;
    }
    in_range(Turns {
        first: outer.first + inner.first,
        count: outer.count.checked_mul(inner.count)?,
        block: outer.block.checked_mul(inner.count)?,
        jump: outer.jump,
        step,
    })
}

/// More blocks: the inner ones follow each other from one outer turn to the next.
fn repeated(outer: &Turns, inner: &Turns) -> Option<Turns>
    requires outer { AreTurns outer.now }
    requires inner { AreTurns inner.now }
    ensures { IfSome result (AreJoined outer.now inner.now) }
{
    let step = even_step(outer)?;
    let blocks = inner.count / inner.block;
    if blocks * inner.block != inner.count {
        return None;
    }
    if !are_equal(step, along(0, blocks, inner.jump)) {
        return None;
    }
    in_range(Turns {
        first: outer.first + inner.first,
        count: outer.count.checked_mul(inner.count)?,
        ..*inner
    })
}

/// One level of turns for two, where one of them is a single turn, or both are evenly spaced as one.
pub(crate) fn joined(outer: &Turns, inner: &Turns) -> Option<Turns>
    requires outer { AreTurns outer.now }
    requires inner { AreTurns inner.now }
    ensures { IfSome result (AreJoined outer.now inner.now) }
{
    if outer.count == 1 {
        return moved(inner, outer.first);
    }
    if inner.count == 1 {
        return moved(outer, inner.first);
    }
    let Some(step) = even_step(inner) else {
        return repeated(outer, inner);
    };
    if inner.count > BLOCK_MAX {
        return None;
    }
    lengthened(outer, inner, step)
}

/// Blocks of evenly spaced turns, at evenly spaced places.
pub(crate) fn paired(outer: &Turns, inner: &Turns) -> Option<Turns>
    requires outer { AreTurns outer.now }
    requires inner { AreTurns inner.now }
    ensures { IfSome result (AreJoined outer.now inner.now) }
{
    let jump = even_step(outer)?;
    let step = even_step(inner)?;
    in_range(Turns {
        first: outer.first + inner.first,
        count: outer.count.checked_mul(inner.count)?,
        block: inner.count,
        jump,
        step,
    })
}

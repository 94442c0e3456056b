//! Levels of turns around a body, the first ones outermost.
ghost use Rattle.std.specs.Prelude.{◌≡◌, ◌<◌, ◌++◌, [], ◌∷◌, ◌↔◌, pos, length, IfOk, IsTrue};
ghost use Rattle.std.specs.List.{AllByRecursion};
ghost use Rattle.dt_layout.specs.Merging.{StandIn};
ghost use Rattle.dt_offsets.specs.Near.{AreTurns, IsFactor};
ghost use Rattle.dt_offsets.specs.Offsets.{row_offsets, turn_offsets};

use crate::merging::{are_equal, evened, joined, paired};
use dt_kinds::NoMemory;
use dt_type::Turns;
use std::alloc::Global;

/// Copies in a row, as turns in one block.
pub(crate) fn row(first: i128, copies: u32, step: i128) -> Turns
    requires first { IsFactor first }
    requires step { IsFactor step }
    ensures offsets { turn_offsets result ≡ row_offsets first copies step }
    ensures numbers { AreTurns result }
{
    let count = u64::from(copies);
    Turns {
        first,
        count,
        block: count.max(1),
        jump: 0,
        step,
    }
}

/// One level of turns.
pub(crate) fn one_level(alloc: Global, turns: Turns) -> Result<Vec<Turns>, NoMemory>
    ensures { IfOk result (λ levels. levels.items ≡ turns ∷ []) }
{
    let mut levels = Vec::new(alloc);
    levels.push(turns)?;
    Ok(levels)
}

/// Whether turns are a single one that goes nowhere.
fn are_idle(turns: &Turns) -> bool
    requires { AreTurns turns.now }
    ensures { IsTrue result ↔ (turns.now.count ≡ 1) × (turns.now.first ≡ pos 0) }
{
    turns.count == 1 && are_equal(turns.first, 0)
}

/// One level more, inside of those that stand: none for a turn that goes nowhere, and one for the last two where it tells both.
pub(crate) fn deepened(levels: Vec<Turns>, turns: &Turns) -> Result<Vec<Turns>, NoMemory>
    requires levels { AllByRecursion AreTurns levels.items }
    requires turns { AreTurns turns.now }
    ensures stand { IfOk result (λ all. StandIn (levels.items ++ turns.now ∷ []) all.items) }
    ensures kept { IfOk result (λ all. 0 < length levels.items → 0 < length all.items) }
{
    let mut levels = levels;
    let turns = evened(turns);
    let Some(last) = levels.pop() else {
        if are_idle(&turns) {
            return Ok(levels);
        }
        levels.push(turns)?;
        return Ok(levels);
    };
    let Some(one) = joined(&last, &turns) else {
        levels.push(last)?;
        levels.push(turns)?;
        return Ok(levels);
    };
    levels.push(one)?;
    Ok(levels)
}

/// More levels, inside of those that stand.
pub(crate) fn deeper(levels: Vec<Turns>, turns: &[Turns]) -> Result<Vec<Turns>, NoMemory>
    requires levels { AllByRecursion AreTurns levels.items }
    requires turns { AllByRecursion AreTurns turns.now }
    ensures stand { IfOk result (λ all. StandIn (levels.items ++ turns.now) all.items) }
    ensures kept { IfOk result (λ all. 0 < length levels.items → 0 < length all.items) }
{
    let mut levels = levels;
    'turns: for inner in turns {
        levels = deepened(levels, inner)?;
    }
    Ok(levels)
}

/// The last two levels as one, where both are evenly spaced.
pub(crate) fn settled(levels: Vec<Turns>) -> Result<Vec<Turns>, NoMemory>
    requires { AllByRecursion AreTurns levels.items }
    ensures stand { IfOk result (λ all. StandIn levels.items all.items) }
    ensures kept { IfOk result (λ all. 0 < length levels.items → 0 < length all.items) }
{
    let mut levels = levels;
    let Some(inner) = levels.pop() else {
        return Ok(levels);
    };
    let Some(outer) = levels.pop() else {
        levels.push(inner)?;
        return Ok(levels);
    };
    let Some(pair) = paired(&outer, &inner) else {
        levels.push(outer)?;
        levels.push(inner)?;
        return Ok(levels);
    };
    levels.push(pair)?;
    Ok(levels)
}

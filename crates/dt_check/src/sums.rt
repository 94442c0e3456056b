//! The least sums over the cuts of segments into parts.
ghost use Rattle.std.specs.Prelude.{◌≡◌, ℕ, ◌≤◌, ◌<◌, ◌+◌, ◌-◌, ◌++◌, [], ◌∷◌, IfOk, OnOk, min, length, slice_index};
ghost use Rattle.dt_check.specs.Rows.{AreFew, AreRows};
ghost use Rattle.dt_check.specs.Sums.{AreLowered, AreLeastSums};

use dt_kinds::NoMemory;
use std::alloc::Global;

/// More than any sum over a cut.
pub(crate) const ABOVE: u32 = 2_050_000_000;

/// What is known of all segments of one length, by their starts: their values, the least of them over stacked blocks, and the least sums
/// over cuts.
#[derive(Drop)]
pub(crate) struct Level {
    pub(crate) lows: Vec<u32>,
    pub(crate) runs: Vec<u32>,
    pub(crate) cuts: Vec<u32>,
}

/// The same for each length up to one, the shorter first.
#[derive(Drop)]
pub(crate) struct Sums {
    pub(crate) lows: Vec<Vec<u32>>,
    pub(crate) runs: Vec<Vec<u32>>,
    pub(crate) cuts: Vec<Vec<u32>>,
}

impl Sums {
    /// Of no length.
    pub(crate) fn new(alloc: Global) -> Sums
        ensures lows { result.lows.items ≡ [] }
        ensures runs { result.runs.items ≡ [] }
        ensures cuts { result.cuts.items ≡ [] }
    {
        Sums {
            lows: Vec::new(alloc),
            runs: Vec::new(alloc),
            cuts: Vec::new(alloc),
        }
    }

    /// Of one length more.
    pub(crate) fn push(&mut self, level: Level) -> Result<(), NoMemory>
        ensures lows { OnOk result (self.new.lows.items ≡ self.old.lows.items ++ level.lows ∷ []) }
        ensures runs { OnOk result (self.new.runs.items ≡ self.old.runs.items ++ level.runs ∷ []) }
        ensures cuts { OnOk result (self.new.cuts.items ≡ self.old.cuts.items ++ level.cuts ∷ []) }
    {
        let Level { lows, runs, cuts } = level;
        self.lows.push(lows)?;
        self.runs.push(runs)?;
        self.cuts.push(cuts)?;
        Ok(())
    }
}

/// Takes each number down to the sum of two others, where this is less; those of the second list are counted from a place on.
#[tactic(auto, using(crate::proofs::Lowering::none_lowered, crate::proofs::Lowering::one_lowered, crate::proofs::Lowering::all_lowered))]
fn lower(least: &mut [u32], firsts: &[u32], rests: &[u32], from: usize)
    requires firsts { length least.old ≤ length firsts.now }
    requires rests { from + length least.old ≤ length rests.now }
    requires fits { (i : ℕ) → i < length least.old → slice_index firsts.now i + slice_index rests.now (from + i) < 4294967296 }
    ensures { AreLowered firsts.now rests.now from least.old least.new }
{
    'least: for i in 0..least.len() {
        least[i] = least[i].min(firsts[i] + rests[from + i]);
    }
}

/// For each segment of a length the least, over its cuts into two parts, of what the first one costs as a part and what the cuts of the
/// second one come to; a number above all sums where it has one entry.
pub(crate) fn least_sums(
    alloc: Global,
    entries: usize,
    len: usize,
    runs: &[Vec<u32>],
    cuts: &[Vec<u32>],
) -> Result<Vec<u32>, NoMemory>
    requires some { 1 ≤ len }
    requires within { len ≤ entries }
    requires few { entries ≤ 1024 }
    requires runs { AreRows entries runs.now }
    requires cuts { AreRows entries cuts.now }
    requires known { length runs.now + 1 ≡ len }
    requires known_cuts { length cuts.now + 1 ≡ len }
    requires few_runs { AreFew runs.now }
    requires few_cuts { AreFew cuts.now }
    ensures { IfOk result (λ sums. AreLeastSums entries len runs.now cuts.now (len - 1) sums.items) }
{
    let mut least = vec![in alloc; ABOVE; entries + 1 - len]?;
    'firsts: for k in 0..len - 1 {
        lower(&mut least, &runs[k], &cuts[len - 2 - k], k + 1);
    }
    Ok(least)
}

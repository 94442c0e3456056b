//! The first start of a segment that is alike.
ghost use Rattle.std.specs.Prelude.{◌≡◌, ◌≤◌, ◌<◌, ◌-◌, ◌++◌, IfOk, OnOk, length, replicate};
ghost use Rattle.dt_alike.specs.First.{AreFirsts};
ghost use Rattle.dt_alike.specs.Reach.{AreReaches};

use dt_kinds::NoMemory;
use dt_map::Entry;
use std::alloc::Global;

/// Fills a list up to a length with a number.
fn fill_up(list: &mut Vec<u32>, len: u32, number: u32) -> Result<(), NoMemory>
    ensures { OnOk result (list.new.items ≡ list.old.items ++ replicate (len - length list.old.items) number) }
{
    let missing = (len as usize).saturating_sub(list.len());
    'more: for _ in 0..missing {
        list.push(number)?;
    }
    Ok(())
}

/// The first start of a segment that is alike, for each segment that begins at an entry, the shorter first. It takes the reaches of that
/// entry with each.
pub(crate) fn firsts(
    alloc: Global,
    entries: &[Entry],
    start: usize,
    reaches: &[u32],
) -> Result<Vec<u32>, NoMemory>
    requires start { start < length entries.now }
    requires few { length entries.now ≤ 1024 }
    requires reaches { AreReaches entries.now start reaches.now }
    ensures { IfOk result (λ firsts. AreFirsts entries.now start firsts.items) }
{
    let mut firsts = Vec::with_capacity(alloc, entries.len() - start)?;
    'starts: for k in 0..start + 1 {
        fill_up(&mut firsts, reaches[k], k as u32)?;
    }
    Ok(firsts)
}

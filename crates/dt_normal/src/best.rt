//! A least tree of a typemap.
ghost use Rattle.std.specs.Prelude.{◌≡◌, ◌≤◌, IfOk, MatchResult, length};
ghost use Rattle.dt_normal.specs.Bests.{IsBest, IsNotFound};

use crate::build::node;
use crate::greatest::{are_light, list_rows, rows};
use crate::low::Low;
use crate::split::Segment;
use dt_alike::Classes;
use dt_kinds::NoMemory;
use dt_map::FlatMap;
use dt_tree::{Tree, Weights};
use std::alloc::Global;
use thiserror::Error;

/// A least tree, where it begins, what it costs, and the table that shows that no tree costs less.
#[derive(Drop)]
pub struct Best {
    /// Where the tree begins, in bytes: the first displacement of the typemap, 0 where there is no tree.
    pub base: i64,
    /// None for a typemap without entries.
    pub tree: Option<Tree>,
    pub cost: u64,
    /// The greatest valid table, as `least_table` lists it.
    pub lows: Vec<Low>,
}

/// Why no tree is looked for.
#[derive(Clone, Copy, Debug, PartialEq, Eq, Error)]
pub enum NormalFault {
    /// The typemap has more than 1,024 entries.
    #[error("the typemap has more than 1,024 entries")]
    TooMany,
    /// Memory ran out.
    #[error("memory ran out")]
    NoMemory,
}

/// The best for a typemap of at most 1,024 entries.
fn best_of(alloc: Global, map: &FlatMap, w: &Weights) -> Result<Best, NoMemory>
    requires { length map.now.entries ≤ 1024 }
    ensures { IfOk result (λ best. IsBest w.now map.now.entries best) }
{
    are_light(w);
    let entries = map.entries();
    let classes = Classes::of(alloc, map)?;
    let rows = rows(alloc, &classes, w)?;
    let lows = list_rows(alloc, &classes, w, &rows)?;
    let whole = Segment {
        start: 0,
        len: classes.len(),
    };
    if whole.len == 0 {
        return Ok(Best {
            base: 0,
            tree: None,
            cost: 0,
            lows,
        });
    }
    let root = node(alloc, entries, &classes, w, &rows, whole)?;
    let Ok(tree) = Tree::of_node(root) else {
        unreachable!()
    };
    Ok(Best {
        base: entries[0].disp,
        cost: tree.cost(w),
        tree: Some(tree),
        lows,
    })
}

/// A tidy tree that stands for a typemap from its first displacement on. No tree that stands for the typemap, from whatever base on,
/// costs less. Beside it the greatest valid table, as `least_table` lists it, which says of the whole typemap what the tree costs.
/// A typemap without entries has no tree. `TooMany` comes exactly where it has more than 1,024 entries, `NoMemory` where memory ran out.
pub fn normalise(alloc: Global, map: &FlatMap, w: &Weights) -> Result<Best, NormalFault>
    ensures { MatchResult result (λ best. (length map.now.entries ≤ 1024) × IsBest w.now map.now.entries best) (λ fault. IsNotFound map.now.entries fault) }
{
    if map.entries().len() > 1024 {
        return Err(NormalFault::TooMany);
    }
    match best_of(alloc, map, w) {
        Ok(best) => Ok(best),
        Err(_) => Err(NormalFault::NoMemory),
    }
}

//! Laws of tables over segments, stated over their definitions. The functions do nothing.
ghost use Rattle.dt_normal.specs.Laws.{TableBoundsTrees, ReachedIsLeast, LeastRunIsLeast, TooHighIsNotValid};

/// A valid table bounds every tree from below: whatever tree stands for a segment, from whatever base on, it costs no less than the
/// table says of the segment. No limit is set on the tree's size, depth and numbers.
pub fn table_bounds_trees()
    ensures { TableBoundsTrees }
{}

/// A tree that costs no more than a valid table says of the whole list is least.
pub fn reached_is_least()
    ensures { ReachedIsLeast }
{}

/// The least run of a segment is the least value of a first block, over all splits into stacked blocks.
pub fn least_run_is_least()
    ensures { LeastRunIsLeast }
{}

/// A table that says more of a segment than some tree costs that stands for it is not valid.
pub fn too_high_is_not_valid()
    ensures { TooHighIsNotValid }
{}

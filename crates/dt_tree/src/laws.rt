//! Laws of trees, stated over their definitions. The functions do nothing.
ghost use Rattle.dt_tree.specs.Laws.{PlacesAnEntry, DenotesFurther, SubtreesDenote, BlocksAreStacked, ShortSubtrees, RuleIsTree, TidyBeginsAtZero};

/// Each tree places an entry.
pub fn places_an_entry()
    ensures { PlacesAnEntry }
{}

/// A tree that stands for entries stands for them further on, from as much further on.
pub fn denotes_further()
    ensures { DenotesFurther }
{}

/// Each subtree of a tree that stands for entries stands for a segment of them, from some base on.
pub fn subtrees_denote()
    ensures { SubtreesDenote }
{}

/// Where a subtree stands in a block, the copies of this block are stacked.
pub fn blocks_are_stacked()
    ensures { BlocksAreStacked }
{}

/// True bounds are short node by node exactly where those of each subtree are.
pub fn short_subtrees()
    ensures { ShortSubtrees }
{}

/// A tree that follows the rule of programs' trees has counts of at least 1 and lists with members.
pub fn rule_is_tree()
    ensures { RuleIsTree }
{}

/// The first entry of a tidy tree stands at 0, so that it stands for entries from the first displacement on.
pub fn tidy_begins_at_zero()
    ensures { TidyBeginsAtZero }
{}

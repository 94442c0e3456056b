//! Laws of what alike, even and stacked blocks are, stated over their definitions. The functions do nothing.
ghost use Rattle.dt_map.specs.BlockLaws.{AlikeBlocksAreCopies, EvenBlocksAreCopies, StackedBlocksAreRun};

/// Blocks are alike exactly where they are copies of the first one at some places.
pub fn alike_blocks_are_copies()
    ensures { AlikeBlocksAreCopies }
{}

/// Blocks that are alike rise by one step exactly where they are copies of the first one at places with that step.
pub fn even_blocks_are_copies()
    ensures { EvenBlocksAreCopies }
{}

/// Blocks are stacked exactly where they are a block of so many copies of the first one (MPI 4.1, section 5.1.2).
pub fn stacked_blocks_are_run()
    ensures { StackedBlocksAreRun }
{}

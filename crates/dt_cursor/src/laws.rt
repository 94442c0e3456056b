//! Laws of frames, stated over their definitions. The functions do nothing.
ghost use Rattle.dt_cursor.specs.Laws.{ElementIsLeft, ElementIsPushed, FramesAreFew, HalfRunIsSuffix, NextRound, ProgramIsToRun, RoundIsPushed, RoundsAreLeft, RoundsAreMeaning};

/// A body that isn't one element means the elements of its rounds, in their order.
pub fn rounds_are_meaning()
    ensures { RoundsAreMeaning }
{}

/// A half-run body stands for a suffix of its meaning: first the round that it is in, and then the rounds to come.
pub fn half_run_is_suffix()
    ensures { HalfRunIsSuffix }
{}

/// A program is to be run from its beginning, under no frames.
pub fn program_is_to_run()
    ensures { ProgramIsToRun }
{}

/// A frame is pushed for a round of a body that is to be run: the elements of the rounds before it are left out.
pub fn round_is_pushed()
    ensures { RoundIsPushed }
{}

/// A frame is pushed for a kind that is to be run: the frames stand at its element.
pub fn element_is_pushed()
    ensures { ElementIsPushed }
{}

/// The frame of an element is taken away: what comes after the element is to come.
pub fn element_is_left()
    ensures { ElementIsLeft }
{}

/// A frame goes on to the next round that has elements: the next turn, copy of a spot, or part.
pub fn next_round()
    ensures { NextRound }
{}

/// A frame whose body has no more elements to come is taken away.
pub fn rounds_are_left()
    ensures { RoundsAreLeft }
{}

/// Frames that stand at an element or at the end are at most 129.
pub fn frames_are_few()
    ensures { FramesAreFew }
{}

//! What holds of the definitions themselves.
ghost use Rattle.dt_machine.specs.Laws.{FirstIsLeast, AllowedIsClear, StepIsFunction, AnswersAreOne, ToldIsLeast, NormaliseTellsOneCost, RebuiltPlacesTheSame, RebuiltIsTaken};
ghost use Rattle.dt_machine.specs.Pieces.{TakesAreJoined, GivesAreJoined, OrderIsFree, SoundIsKept};

/// The refusal of the least number whose condition holds is the first of the command's row whose condition holds.
pub fn first_is_least()
    ensures { FirstIsLeast }
{}

/// No refusal's condition holds where none of the command's row does.
pub fn allowed_is_clear()
    ensures { AllowedIsClear }
{}

/// A line has one reply and leads to one state, where it doesn't ask for a least tree of a type that has entries.
pub fn step_is_function()
    ensures { StepIsFunction }
{}

/// An input none of whose lines can, in any state, ask for a least tree of a type that has entries has one text that answers it, and
/// one status.
pub fn answers_are_one()
    ensures { AnswersAreOne }
{}

/// No tree that stands for a type's entries costs less than the one that is told of it, under the weights in force.
pub fn told_is_least()
    ensures { ToldIsLeast }
{}

/// `normalise` tells one cost and one base, and leads to one state, whichever least tree it tells.
pub fn normalise_tells_one_cost()
    ensures { NormaliseTellsOneCost }
{}

/// A rebuilt type has the entries and the marks of its type.
pub fn rebuilt_places_the_same()
    ensures { RebuiltPlacesTheSame }
{}

/// No constructor refuses that builds it.
pub fn rebuilt_is_taken()
    ensures { RebuiltIsTaken }
{}

/// Two lists of sizes with one sum give, by takes from a session, the same joined bytes.
pub fn takes_are_joined()
    ensures { TakesAreJoined }
{}

/// Two ways of cutting one piece that isn't truncated give, by gives to a session, the same buffers and the same session.
pub fn gives_are_joined()
    ensures { GivesAreJoined }
{}

/// Two commands that take from, go to a packed byte of, or give to different sessions reply and change the same in either order, where
/// the elements that either completes have no byte in common with the other session's over the same buffer.
pub fn order_is_free()
    ensures { OrderIsFree }
{}

/// What these laws ask of a state holds of the first, and of each that a line leads to from one of which it holds.
pub fn sound_is_kept()
    ensures { SoundIsKept }
{}

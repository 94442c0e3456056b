//! Laws of generated scripts.
ghost use Rattle.dt_accepted.specs.Accepted.{EveryLineIsACommand, EveryCommandIsAllowed, EveryCommandIsAccepted, EveryAnswerIsAccepted};

/// Each line of a generated script means a command.
pub fn every_line_is_a_command()
    ensures { EveryLineIsACommand }
{}

/// Whatever lines of a generated script were obeyed, one after another from the first state, nothing refuses the command of the next one.
pub fn every_command_is_allowed()
    ensures { EveryCommandIsAllowed }
{}

/// However the lines of a generated script are obeyed, one after another from the first state, none is refused.
pub fn every_command_is_accepted()
    ensures { EveryCommandIsAccepted }
{}

/// Whatever text answers a generated script says that it is accepted.
pub fn every_answer_is_accepted()
    ensures { EveryAnswerIsAccepted }
{}

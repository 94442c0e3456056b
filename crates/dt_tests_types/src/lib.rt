//! The tests of datatypes that no script can write: entries by their numbers, lists with a limit, stale handles, and where bytes are no
//! text. Their expected values come from MPI 4.1 and from this project's documents, never from a run of the code.
#![tactic(auto)]

#[cfg(test)]
mod entries;
#[cfg(test)]
mod handles;
#[cfg(test)]
mod texts;

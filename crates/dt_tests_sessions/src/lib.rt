//! The tests of what no script shows of programs, cursors, sessions, copies and reductions. Their expected values come from MPI 4.1 and
//! from this project's documents, or from a plain walk from element to element.
#![tactic(auto)]

#[cfg(test)]
mod cursors;
#[cfg(test)]
mod plans;
#[cfg(test)]
mod programs;
#[cfg(test)]
mod ranks;
#[cfg(test)]
mod stored;
#[cfg(test)]
mod types;

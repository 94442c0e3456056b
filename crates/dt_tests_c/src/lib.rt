//! The tests of what a library for C calls: datatypes and sessions under numbers. Their expected values come from MPI 4.1 and from this
//! project's documents, never from a run of the code.
#![tactic(auto)]

#[cfg(test)]
mod asked;
#[cfg(test)]
mod made;
#[cfg(test)]
mod moving;
#[cfg(test)]
mod numbers;
#[cfg(test)]
mod texts;

//! The tests of trees, of tables and of certificates that no script reaches, one module a topic. Their expected values come from this
//! project's documents or were worked by hand, never from a run of the code.
#![tactic(auto)]

#[cfg(test)]
mod certificates;
#[cfg(test)]
mod classes;
#[cfg(test)]
mod nodes;
#[cfg(test)]
mod placed;
#[cfg(test)]
mod rebuilt;
#[cfg(test)]
mod spellings;
#[cfg(test)]
mod tables;

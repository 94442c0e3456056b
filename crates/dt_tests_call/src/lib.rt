//! Tests of what no script shows: whole runs whose reads and writes fail, limits that take a long script, sources and sinks, and calls that
//! no word of the program makes. Their expected values are worked by hand from the rules.
#![tactic(auto)]

#[cfg(test)]
mod limits;
#[cfg(test)]
mod machines;
#[cfg(test)]
mod runs;
#[cfg(test)]
mod sinks;
#[cfg(test)]
mod sources;
#[cfg(test)]
mod typemaps;

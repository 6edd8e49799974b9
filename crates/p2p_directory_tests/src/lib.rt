//! Tests of runs, nodes and networks through those of their calls that no script and no export
//! makes, and that each command can be typed.
//!
//! They are in a crate of their own, so that the library is proved once, and its mutants wait for
//! no test.
#![tactic(auto)]

#[cfg(test)]
mod by_hand;
#[cfg(test)]
mod examples;
#[cfg(test)]
mod fixtures;
#[cfg(test)]
mod lent;
#[cfg(test)]
mod node;
#[cfg(test)]
mod run;
#[cfg(test)]
mod typed;

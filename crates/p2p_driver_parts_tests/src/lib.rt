//! Tests of the parts of a driver, with moments and numbers of the rules. They may use the crates
//! of the library; no crate uses them.
#![tactic(auto)]

#[cfg(test)]
mod actions;
#[cfg(test)]
mod answers;
#[cfg(test)]
mod arrivals;
#[cfg(test)]
mod dials;
#[cfg(test)]
mod grants;
#[cfg(test)]
mod heads;
#[cfg(test)]
mod links;
#[cfg(test)]
mod looked;
#[cfg(test)]
mod meters;
#[cfg(test)]
mod paces;
#[cfg(test)]
mod rates;
#[cfg(test)]
mod unwritten;

//! Addresses.

mod address;
mod fixtures;
mod global;
mod hostname;
mod ingress;
mod order;
mod socket;

//! Drivers: each answer and each action of frames, by the rules.

mod asking;
mod breaches;
mod dropped;
mod frames;
mod idle;
mod judged;
mod lasting;
mod lengths;
mod messages;
mod reading;
mod spent;
mod unasked;
mod unsaid;
mod writing;

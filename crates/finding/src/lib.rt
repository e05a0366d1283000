// What both probes of one candidate find, by numbers, and how it goes into scratch.
#![tactic(auto)]

pub mod emitting;
pub mod rule;

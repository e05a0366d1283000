// The workspace for many probes: made once at the start values, and put back after each probe.
#![tactic(auto)]

pub mod copying;
pub mod remembering;
pub mod restoring;

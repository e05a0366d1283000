// The cases of a stream (docs/CASES.md): how they are read, their lists, the three calls that change the field, and the call that asks what constraints allow.
#![tactic(auto)]

pub mod allowing;
pub mod case;
pub mod contents;
pub mod mended;
pub mod reading;
pub mod reducing;
pub mod shifting;

// One pair of pair dominance: its four bounds, widened neighbour by neighbour over two sorted merged rows, and what they say.
#![tactic(auto)]

pub mod bounds;
pub mod walking;

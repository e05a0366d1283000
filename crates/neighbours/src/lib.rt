// What pair dominance asks of each variable: its linear part, its mass, and its row of merged neighbours, sorted by neighbour.
#![tactic(auto)]

pub mod merged;
pub mod parts;

// The scan over some variables alone: the candidates, and the neighbours of the probed variable.
#![tactic(auto)]

pub mod merging;

// A position in a list, and the variable that stands there.
#[derive(Clone, Copy)]
pub struct Cursor {
    pub at: usize,
    pub head: usize,
}

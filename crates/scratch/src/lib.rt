// What is said of lent memory by every crate: a list cleared, a list laid over the front of another, a part of one, and a test at every number below a bound.
#![tactic(auto)]

// The stream of cases (docs/CASES.md): the head of a case, its lists, and the words of a line.
#![tactic(auto)]

pub mod head;
pub mod lists;
pub mod output;

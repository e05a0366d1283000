// The work of mending an entry list: its entries place by place, the sum at each place, and what becomes of each entry.
#![tactic(auto)]

pub mod back;
pub mod gathering;
pub mod lineup;
mod places;
pub mod report;
pub mod sums;

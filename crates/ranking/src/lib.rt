// The candidates of the limited probe: the free variables by falling edge mass, then rising index.
#![tactic(auto)]

pub mod listing;
mod masses;
pub mod order;
mod selecting;

ghost use Rattle.field.specs.Field.{given, lent, entries};
ghost use Rattle.ranking.specs.Masses.{Rankable, Ranked, Massed};

use crate::listing::list_free;
use field::FieldRef;

// Ranks the free variables from `at` on as far as the limit, with as much room behind, where w is to hold the masses. Returns how many.
pub fn rank(
    field: FieldRef,
    start: &[u8],
    w: &mut [f64],
    u: &mut [u32],
    at: usize,
    limit: usize,
) -> usize
    requires { Rankable (lent field) start.now w.old u.old at }
    ensures ranked { Ranked (given field) start.now limit u.old u.new at result }
    ensures massed { Massed (given field) start.now w.new (entries (given field)) }
{
    masses::fill(field, start, w);
    let count = list_free(start, u, at);
    selecting::sort_first(w, u, at, count, limit, at + field.c.len())
}

// 18: whether the weights at every place of the field have a finite sum, without any memory.
ghost use Rattle.std.specs.Prelude.{◌≡◌, ◌<◌};
ghost use Rattle.scratch.specs.All.{all_below};
ghost use Rattle.field.specs.Field.{given, lent, entries};
ghost use Rattle.field.specs.Faults.{Listed};
ghost use Rattle.mending.specs.Places.{sum_at, sums_finite as sums_finite_of};
ghost use Rattle.mending.specs.Sums.{all_small as all_small_of, part_with as part_with_of, finite_at as finite_at_of};

use crate::places::place_at;
use field::FieldRef;

// Whether no weight is above 2^1008 in size: 32,768 of them add up to a finite sum.
fn all_small(q: &[f64]) -> bool
    ensures { result ≡ all_small_of q.now }
{
    let limit = f64::from_bits(0x7ef0_0000_0000_0000);
    let mut small = true;
    for &w in q {
        small = small & (weights::magnitude(w) <= limit);
    }
    small
}

// The sum of a place over some first entries, none where none of them is there, with entry k.
fn part_with(field: FieldRef, p: usize, k: usize, part: Option<f64>) -> Option<f64>
    requires listed { Listed (lent field) }
    requires k_bound { k < entries (lent field) }
    ensures { result ≡ part_with_of (given field) p k part }
{
    if place_at(field, k) != p {
        return part;
    }
    match part {
        Some(sum) => Some(sum + field.q[k]),
        None => Some(field.q[k]),
    }
}

// The sum at place p, from the first weight on.
fn sum_at(field: FieldRef, p: usize) -> f64
    requires { Listed (lent field) }
    ensures { result ≡ sum_at (given field) p }
{
    let mut part: Option<f64> = None;
    for k in 0..field.q.len() {
        part = part_with(field, p, k, part);
    }
    part.unwrap_or(0.0)
}

// Whether entry k lies outside the field or its place has a finite sum.
fn finite_at(field: FieldRef, k: usize) -> bool
    requires listed { Listed (lent field) }
    requires k_bound { k < entries (lent field) }
    ensures { result ≡ finite_at_of (given field) k }
{
    let p = place_at(field, k);
    if p >= field.c.len() * field.c.len() {
        return true;
    }
    weights::is_finite(sum_at(field, p))
}

// Entry by entry: m * m steps.
fn each_finite(field: FieldRef) -> bool
    requires { Listed (lent field) }
    ensures { result ≡ all_below (finite_at_of (given field)) (entries (given field)) }
{
    for k in 0..field.q.len() {
        if !finite_at(field, k) {
            return false;
        }
    }
    true
}

// One pass, unless the weights are near the largest that f64 has.
pub fn sums_finite(field: FieldRef) -> bool
    requires { Listed (lent field) }
    ensures { result ≡ sums_finite_of (given field) }
{
    if all_small(field.q) {
        return true;
    }
    each_finite(field)
}

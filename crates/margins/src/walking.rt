// The walk over the merged rows of a pair, and the weight between its variables.
ghost use Rattle.std.specs.Prelude.{◌≡◌, true, ◌≤◌, length};
ghost use Rattle.margins.specs.Model.{meets as meets_of};
ghost use Rattle.margins.specs.Merge.{rows_of, Fit, met_by, turn_of, going, walk_all, Rises, Looked};

use crate::bounds::{Bounds, hopeless};

// Where the walk over the two rows stands, and the bounds so far.
#[derive(Clone, Copy)]
pub struct Walk {
    pub left: usize,
    pub right: usize,
    pub bounds: Bounds,
}

// Whether one of the weights is not 0.
fn meets(wi: f64, wj: f64) -> bool
    ensures { result ≡ meets_of wi wj }
{
    wi != 0.0 || wj != 0.0
}

// Neighbour k; i and j themselves are passed over.
fn met(b: Bounds, i: usize, j: usize, k: usize, wi: f64, wj: f64) -> Bounds
    ensures { result ≡ met_by b i j k wi wj }
{
    if k != i && k != j && meets(wi, wj) {
        b.widened(wi, wj)
    } else {
        b
    }
}

// Whether some bound may still give a constraint and one of the rows is not at its end.
fn is_going(ea: usize, eb: usize, t: f64, w: Walk) -> bool
    ensures { result ≡ going ea eb t w }
{
    !hopeless(w.bounds, t) && (w.left < ea || w.right < eb)
}

// One turn: the lower of the two keys, or both where they are equal.
fn turn(
    keys: &[u32],
    weights: &[f64],
    ea: usize,
    eb: usize,
    i: usize,
    j: usize,
    t: f64,
    w: Walk,
) -> Walk
    requires fit { Fit (rows_of keys.now weights.now ea eb i j t) }
    requires w_value { going ea eb t w ≡ true }
    ensures { result ≡ turn_of (rows_of keys.now weights.now ea eb i j t) w }
{
    let left = w.left;
    let right = w.right;
    let b = w.bounds;
    if left < ea {
        let ki = keys[left] as usize;
        if right < eb {
            let kj = keys[right] as usize;
            if ki < kj {
                let bounds = met(b, i, j, ki, weights[left], 0.0);
                return Walk {
                    left: left + 1,
                    right,
                    bounds,
                };
            }
            if kj < ki {
                let bounds = met(b, i, j, kj, 0.0, weights[right]);
                return Walk {
                    left,
                    right: right + 1,
                    bounds,
                };
            }
            let bounds = met(b, i, j, ki, weights[left], weights[right]);
            return Walk {
                left: left + 1,
                right: right + 1,
                bounds,
            };
        }
        let bounds = met(b, i, j, ki, weights[left], 0.0);
        return Walk {
            left: left + 1,
            right,
            bounds,
        };
    }
    let kj = keys[right] as usize;
    let bounds = met(b, i, j, kj, 0.0, weights[right]);
    Walk {
        left,
        right: right + 1,
        bounds,
    }
}

// Walks along the merged rows of a pair, and answers the bounds where the walk stops.
pub fn walk_rows(
    keys: &[u32],
    weights: &[f64],
    ea: usize,
    eb: usize,
    i: usize,
    j: usize,
    t: f64,
    start: Walk,
) -> Bounds
    requires { Fit (rows_of keys.now weights.now ea eb i j t) }
    ensures { result ≡ (walk_all (rows_of keys.now weights.now ea eb i j t) start).bounds }
{
    let mut w = start;
    // Two heads move, each to the end of its own row.
    while is_going(ea, eb, t, w) {
        w = turn(keys, weights, ea, eb, i, j, t, w);
    }
    w.bounds
}

// The weight of k in the row from `from` to `to`, whose keys rise: 0.0 where it has none.
pub fn weight_of(keys: &[u32], weights: &[f64], from: usize, to: usize, k: usize) -> f64
    requires rises { Rises keys.now from to }
    requires to_in_bounds { to ≤ length keys.now }
    requires to_in_bounds_2 { to ≤ length weights.now }
    ensures { Looked keys.now weights.now from to k result }
{
    // A part whose start is past its end has no key here, and no slice that the library could search.
    let mut low = from;
    let mut high = to;
    while low < high {
        let mid = low + (high - low) / 2;
        let key = keys[mid] as usize;
        if key == k {
            return weights[mid];
        }
        if key < k {
            low = mid + 1;
        } else {
            high = mid;
        }
    }
    0.0
}

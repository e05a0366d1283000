// What one variable comes to: whether its sum is 0, and how much weight its entries have.
ghost use Rattle.std.specs.Prelude.{◌≡◌, ◌<◌, length};
ghost use Rattle.expansion.specs.Sum.{count_of};
ghost use Rattle.field.specs.Field.{given, lent, entries, Shaped};
ghost use Rattle.field.specs.Grade.{grade_of};
ghost use Rattle.anchors.specs.Sums as model;
ghost use Rattle.anchors.specs.Sums.{AddsAt, Walkable};

use field::{FieldRef, Grade};

// Entry k: twice its weight on the diagonal, its weight off it; a stored zero off the diagonal is passed over.
fn balance_at(field: FieldRef, k: usize, sum: Option<usize>, f: &mut [f64]) -> Option<usize>
    requires shaped { Shaped (lent field) }
    requires k_bound { k < entries (lent field) }
    requires sum_in_bounds { count_of sum < length f.old }
    ensures { AddsAt (given field) k sum f.old f.new result }
{
    let entry = field.q[k];
    if field.rows[k] == field.cols[k] {
        expansion::add(sum, f, 2.0 * entry)
    } else if entry != 0.0 {
        expansion::add(sum, f, entry)
    } else {
        sum
    }
}

// Whether 4c of variable i and its entries come to 0, with no rounding and no overflow.
fn comes_to_zero(field: FieldRef, i: usize, f: &mut [f64], u: &[u32]) -> bool
    requires walkable { Walkable (lent field) i u.now }
    requires q_in_bounds { entries (lent field) < length f.old }
    ensures { result ≡ model.balanced (given field) i }
{
    let n = field.c.len();
    let start = u[i] as usize;
    let end = u[i + 1] as usize;
    let mut sum = expansion::add(Some(0), f, 4.0 * field.c[i]);
    for p in start..end {
        let k = places::entry_in(u[n + 1 + p]);
        sum = balance_at(field, k, sum, f);
    }
    expansion::is_zero(sum)
}

// 4c of variable i and q of its entries, in order.
fn plain_sum(field: FieldRef, i: usize, u: &[u32]) -> f64
    requires { Walkable (lent field) i u.now }
    ensures { result ≡ model.plain_sum (given field) i }
{
    let n = field.c.len();
    let start = u[i] as usize;
    let end = u[i + 1] as usize;
    let mut sum = 4.0 * field.c[i];
    for p in start..end {
        let k = places::entry_in(u[n + 1 + p]);
        sum += field.q[k];
    }
    sum
}

// Whether variable i is balanced: on an exact field no sum is rounded, so a plain one tells.
pub fn is_balanced(field: FieldRef, grade: Grade, i: usize, f: &mut [f64], u: &[u32]) -> bool
    requires walkable { Walkable (lent field) i u.now }
    requires q_in_bounds { entries (lent field) < length f.old }
    requires grade_value { grade ≡ grade_of (lent field) }
    ensures { result ≡ model.balanced (given field) i }
{
    match grade {
        Grade::Exact => plain_sum(field, i, u) == 0.0,
        Grade::Inexact => comes_to_zero(field, i, f, u),
    }
}

// Entry k adds |q|, unless it is on the diagonal or a stored zero.
fn weigh_at(field: FieldRef, k: usize, weight: f64) -> f64
    requires shaped { Shaped (lent field) }
    requires k_bound { k < entries (lent field) }
    ensures { result ≡ model.weight_at (given field) weight k }
{
    let entry = field.q[k];
    if field.rows[k] != field.cols[k] && entry != 0.0 {
        weight + weights::magnitude(entry)
    } else {
        weight
    }
}

// The sum of |q| over the entries of variable i off the diagonal.
pub fn weigh(field: FieldRef, i: usize, u: &[u32]) -> f64
    requires { Walkable (lent field) i u.now }
    ensures { result ≡ model.weight_of (given field) i }
{
    let n = field.c.len();
    let start = u[i] as usize;
    let end = u[i + 1] as usize;
    let mut weight = 0.0;
    for p in start..end {
        let k = places::entry_in(u[n + 1 + p]);
        weight = weigh_at(field, k, weight);
    }
    weight
}

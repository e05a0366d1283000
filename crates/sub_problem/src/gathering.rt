// What the given variables put into the linear weights and the constant, in the source's order.
ghost use Rattle.std.specs.Prelude.{◌≡◌, cond, ◌≤◌, ◌<◌, length, get_or};
ghost use Rattle.std.specs.Float.{nan, binary64};
ghost use Rattle.std.specs.Float.Ieee.{add, mul, of_bits};
ghost use Rattle.meaning.specs.Free.{is_free};
ghost use Rattle.field.specs.Field.{given, lent, variables, entries};
ghost use Rattle.sub_problem.specs.Reduced.{value_of, with_given};
ghost use Rattle.sub_problem.specs.Working.{Usable, Blank, Taken, Gathers};

use field::FieldRef;

// The first n floats become 0.0.
pub fn blank(f: &mut [f64], n: usize)
    requires { n ≤ length f.old }
    ensures { Blank n f.new }
{
    f[..n].fill(0.0);
}

// Entry k: half its weight times the given end's value goes to a free end; times both values to the sum where both ends are given.
fn gather_at(field: FieldRef, start: &[u8], f: &mut [f64], k: usize, sum: f64) -> f64
    requires usable { Usable (lent field) start.now }
    requires k_bound { k < entries (lent field) }
    requires q_in_bounds { variables (lent field) ≤ length f.old }
    ensures { Taken (given field) start.now k f.old sum f.new result }
{
    let i = usize::from(field.rows[k]);
    let j = usize::from(field.cols[k]);
    let half = weights::half(field.q[k]);
    let a = start[i];
    let b = start[j];
    if a == 2 {
        if b == 2 {
            return sum;
        }
        f[i] = f[i] + half * (b as f64);
        return sum;
    }
    if b == 2 {
        f[j] = f[j] + half * (a as f64);
        return sum;
    }
    sum + half * (a as f64) * (b as f64)
}

// All entries, in order, onto floats that are 0.0 at first; what goes to the constant.
pub fn gather(field: FieldRef, start: &[u8], f: &mut [f64]) -> f64
    requires usable { Usable (lent field) start.now }
    requires gathers { Gathers (lent field) start.now 0 f.old (of_bits binary64 0) }
    ensures { Gathers (given field) start.now (entries (given field)) f.new result }
{
    let mut sum: f64 = 0.0;
    for k in 0..field.q.len() {
        sum = gather_at(field, start, f, k, sum);
    }
    sum
}

// c times the value of variable i, where it is given.
fn add_given(c: &[f64], start: &[u8], i: usize, sum: f64) -> f64
    requires i_in_bounds { i < length c.now }
    requires i_in_bounds_2 { i < length start.now }
    ensures { result ≡ cond (is_free start.now i) sum (add binary64 sum (mul binary64 (get_or c.now i nan) (value_of start.now i))) }
{
    let v = start[i];
    if v == 2 {
        return sum;
    }
    sum + c[i] * (v as f64)
}

// The sum x with c times value of every given variable added, rising.
pub fn add_all_given(c: &[f64], start: &[u8], from: f64) -> f64
    requires { length start.now ≡ length c.now }
    ensures { result ≡ with_given c.now start.now from (length c.now) }
{
    let mut sum = from;
    for i in 0..c.len() {
        sum = add_given(c, start, i, sum);
    }
    sum
}

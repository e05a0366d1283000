// The steps of the run: each moves the lent slices as a step of the model moves its run.
ghost use Rattle.std.specs.Prelude.{◌≡◌, true, not, ◌&&◌, ◌+◌, ◌<◌, length};
ghost use Rattle.field.specs.Field.{given, lent, variables, entries};
ghost use Rattle.meaning.specs.Free.{is_free};
ghost use Rattle.rows.specs.Row.{is_strict, is_forced, value_of};
ghost use Rattle.rows.specs.Stored.{row_on, put_row as put_row_of};
ghost use Rattle.places.specs.Places.{other_end};
ghost use Rattle.run.specs.Run as model;
ghost use Rattle.run.specs.Cells.{cells, Placed, Does, Acted, forced_by};

use field::FieldRef;
use rows::store::{put_row, row_at};
use rows::{Conclusion, Row, Verdict};

// The value that a verdict forces, if it forces one.
fn forced(verdict: Verdict) -> Option<u8>
    ensures { result ≡ forced_by verdict }
{
    match verdict {
        Verdict::Zero(_) => Some(0),
        Verdict::One(_) => Some(1),
        Verdict::Flat | Verdict::Open => None,
    }
}

// Whether a verdict forces a value.
fn forces(verdict: Verdict) -> bool
    ensures { result ≡ is_forced verdict }
{
    matches!(verdict, Verdict::Zero(_) | Verdict::One(_))
}

// The value of a verdict that forces one.
fn value_in(verdict: Verdict) -> u8
    requires { is_forced verdict ≡ true }
    ensures { result ≡ value_of verdict }
{
    u8::from(matches!(verdict, Verdict::One(_)))
}

// Acts on a conclusion: a forced value goes to its variable, and the variable to the end of the queue; the queue's new end.
// Whether a value is forced is asked apart from which, so that a run does not branch on the value.
fn settle(found: Conclusion, values: &mut [u8], u: &mut [u32], base: usize, tail: usize) -> usize
    requires variable_in_bounds { found.variable < length values.old }
    requires tail_in_bounds { base + tail < length u.old }
    ensures { Acted found base tail values.old u.old values.new u.new result }
{
    if !forces(found.verdict) {
        return tail;
    }
    values[usize::from(found.variable)] = value_in(found.verdict);
    u[base + tail] = u32::from(found.variable);
    tail + 1
}

// Row t, whose term of coefficient a was free and is fixed at v.
pub fn move_row(f: &mut [f64], n: usize, t: usize, a: f64, v: u8) -> Row
    requires { n + t < length f.old }
    ensures value { result ≡ model.moved (row_on f.old n t) a v }
    ensures f_value { f.new ≡ put_row_of f.old n t result }
{
    let row = row_at(f, n, t).remove_free(a).add_fixed(a, v);
    put_row(f, n, t, row);
    row
}

// Whether the scan passes over variable i: it has a value, or its row forces none.
pub fn passes_at(values: &[u8], f: &[f64], n: usize, i: usize) -> bool
    requires i_in_bounds { i < length values.now }
    requires i_in_bounds_2 { n + i < length f.now }
    ensures { result ≡ not (is_free values.now i && is_strict (row_on f.now n i)) }
{
    if values[i] != 2 {
        return true;
    }
    let value = forced(row_at(f, n, i).judge());
    value.is_none()
}

// The scan at variable i: a free one is judged by its row, and forced where that says so.
pub fn scan_at(
    field: FieldRef,
    values: &mut [u8],
    f: &[f64],
    u: &mut [u32],
    tail: usize,
    i: usize,
) -> usize
    requires placed { Placed (lent field) (cells values.old f.now u.old tail) }
    requires i_bound { i < variables (lent field) }
    ensures { Does (given field) (λ run. model.scan_at run i)
        (cells values.old f.now u.old tail)
        (cells values.new f.now u.new result) }
{
    if values[i] != 2 {
        return tail;
    }
    let n = field.c.len();
    let base = n + 1 + 2 * field.rows.len();
    let found = row_at(f, n, i).conclude(i as u16);
    settle(found, values, u, base, tail)
}

// Place k of variable i, whose value is v; t is its other end.
pub fn serve_at(
    field: FieldRef,
    values: &mut [u8],
    f: &mut [f64],
    u: &mut [u32],
    tail: usize,
    i: usize,
    v: u8,
    k: usize,
    t: usize,
) -> usize
    requires placed { Placed (lent field) (cells values.old f.old u.old tail) }
    requires k_bound { k < entries (lent field) }
    requires t_value { t ≡ other_end (lent field).rows (lent field).cols i k }
    ensures { Does (given field) (λ run. model.serve_at (given field) i v run k)
        (cells values.old f.old u.old tail)
        (cells values.new f.new u.new result) }
{
    if values[t] != 2 {
        return tail;
    }
    let n = field.c.len();
    let base = n + 1 + 2 * field.rows.len();
    let weight = field.q[k];
    let coeff = weights::half(weight);
    let found = move_row(f, n, t, coeff, v).conclude(t as u16);
    settle(found, values, u, base, tail)
}

// The rows of one probe, each made once, in one pass over the entries. An entry of the probed variable counts at its value, so that the rows of
// its neighbours are made afresh; no other row has such an entry, and is the one at the start values.
ghost use Rattle.std.specs.Prelude.{◌≡◌, ℕ, ◌+◌, ◌<◌, ◌≤◌, length, get_or, set};
ghost use Rattle.std.specs.Float.{nan};
ghost use Rattle.field.specs.Field.{given, lent, entries, column_end, variables};
ghost use Rattle.rows.specs.Row.{start_row};
ghost use Rattle.rows.specs.Stored.{row_on, put_row as put_row_of, add_at as add_at_of, add_entry as add_entry_of, Written, Fillable, Filled};

use field::FieldRef;
use rows::Row;
use rows::store::{put_row, row_at};

// The value of j where i has the value v, and every other variable its start value.
fn value_at(start: &[u8], i: usize, v: u8, j: usize) -> u8
    requires { j < length start.now }
    ensures { result ≡ get_or (set start.now i v) j 0 }
{
    if j == i { v } else { start[j] }
}

// Every row at its start.
fn begin(c: &[f64], f: &mut [f64])
    requires { length c.now + length c.now ≤ length f.old }
    ensures { Written (length c.now) (λ t. start_row (get_or c.now t nan)) f.old f.new (length c.now) }
{
    for (t, linear) in c.iter().enumerate() {
        put_row(f, c.len(), t, Row::start(*linear));
    }
}

// A term goes into row t.
fn add_at(f: &mut [f64], n: usize, t: usize, coeff: f64, value: u8)
    requires { n + t < length f.old }
    ensures { f.new ≡ add_at_of f.old n t coeff value }
{
    let row = row_at(f, n, t);
    put_row(f, n, t, row.add_term(coeff, value));
}

// Entry k's term goes into the row of each end.
fn add_entry(field: FieldRef, start: &[u8], i: usize, v: u8, f: &mut [f64], k: usize)
    requires fillable { Fillable (lent field) start.now f.old }
    requires k_bound { k < entries (lent field) }
    ensures { f.new ≡ add_entry_of (given field) (set start.now i v) f.old k }
{
    let n = field.c.len();
    let coeff = weights::half(field.q[k]);
    let r = usize::from(field.rows[k]);
    let t = usize::from(field.cols[k]);
    add_at(f, n, r, coeff, value_at(start, i, v, t));
    add_at(f, n, t, coeff, value_at(start, i, v, r));
}

// Every entry's terms, where the rows stand at their start.
fn add_entries(field: FieldRef, start: &[u8], i: usize, v: u8, f: &mut [f64])
    requires fillable { Fillable (lent field) start.now f.old }
    requires by_index { (t : ℕ) → t < variables (lent field) → row_on f.old (variables (lent field)) t ≡ start_row (get_or (lent field).linear t nan) }
    ensures { Filled (given field) (set start.now i v) f.old f.new }
{
    for k in 0..field.q.len() {
        add_entry(field, start, i, v, f, k);
    }
}

// Entry k's term goes into the row of each end, where row j is held in `row` and not in its place; the row of the entry's column, which is held then.
fn hold_entry(
    field: FieldRef,
    start: &[u8],
    i: usize,
    v: u8,
    f: &mut [f64],
    j: usize,
    row: Row,
    k: usize,
) -> Row
    requires fillable { Fillable (lent field) start.now f.old }
    requires j_in_bounds { (j < variables (lent field)) × (k < entries (lent field)) }
    ensures { put_row_of f.new (variables (given field)) (column_end (given field) k) result
        ≡ add_entry_of (given field) (set start.now i v) (put_row_of f.old (variables (given field)) j row) k }
{
    let n = field.c.len();
    let coeff = weights::half(field.q[k]);
    let r = usize::from(field.rows[k]);
    let t = usize::from(field.cols[k]);
    if t == j && r != j {
        add_at(f, n, r, coeff, value_at(start, i, v, t));
        return row.add_term(coeff, value_at(start, i, v, r));
    }
    put_row(f, n, j, row);
    add_at(f, n, r, coeff, value_at(start, i, v, t));
    row_at(f, n, t).add_term(coeff, value_at(start, i, v, r))
}

// Every entry's terms, where the rows stand at their start, for long columns: the row of a column is held while its entries are added.
fn add_columns(field: FieldRef, start: &[u8], i: usize, v: u8, f: &mut [f64])
    requires fillable { Fillable (lent field) start.now f.old }
    requires by_index { (t : ℕ) → t < variables (lent field) → row_on f.old (variables (lent field)) t ≡ start_row (get_or (lent field).linear t nan) }
    ensures { Filled (given field) (set start.now i v) f.old f.new }
{
    if field.q.len() == 0 {
        return;
    }
    let n = field.c.len();
    let mut j = usize::from(field.cols[0]);
    let mut row = row_at(f, n, j);
    for k in 0..field.q.len() {
        row = hold_entry(field, start, i, v, f, j, row, k);
        j = usize::from(field.cols[k]);
    }
    put_row(f, n, j, row);
}

// Every row's bounds, where i has the value v and every other variable its start value; what lies past them is unchanged.
pub fn make(field: FieldRef, start: &[u8], i: usize, v: u8, f: &mut [f64])
    requires { Fillable (lent field) start.now f.old }
    ensures { Filled (given field) (set start.now i v) f.old f.new }
{
    begin(field.c, f);
    if field.q.len() / 6 >= field.c.len() {
        add_columns(field, start, i, v, f);
        return;
    }
    add_entries(field, start, i, v, f);
}

// All rows of a field at given values, in one pass over the entries.
ghost use Rattle.std.specs.Prelude.{◌≡◌, ℕ, ◌+◌, ◌<◌, ◌≤◌, length, get_or};
ghost use Rattle.std.specs.Float.{nan};
ghost use Rattle.field.specs.Field.{given, lent, entries, column_end, variables};
ghost use Rattle.rows.specs.Row.{start_row};
ghost use Rattle.rows.specs.Stored.{row_on, put_row as put_row_of, add_at as add_at_of, add_entry as add_entry_of, Written, Fillable, Filled};

use crate::Row;
use crate::store::{put_row, row_at};
use field::FieldRef;

// Every row at its start.
fn start_rows(c: &[f64], f: &mut [f64])
    requires { length c.now + length c.now ≤ length f.old }
    ensures { Written (length c.now) (λ i. start_row (get_or c.now i nan)) f.old f.new (length c.now) }
{
    let n = c.len();
    for (i, linear) in c.iter().enumerate() {
        put_row(f, n, i, Row::start(*linear));
    }
}

// A term goes into row t.
fn add_at(f: &mut [f64], n: usize, t: usize, coeff: f64, value: u8)
    requires { n + t < length f.old }
    ensures { f.new ≡ add_at_of f.old n t coeff value }
{
    let row = row_at(f, n, t);
    put_row(f, n, t, row.add_term(coeff, value));
}

// Entry k's term goes into the row of each end.
fn add_entry(field: FieldRef, values: &[u8], f: &mut [f64], k: usize)
    requires fillable { Fillable (lent field) values.now f.old }
    requires k_bound { k < entries (lent field) }
    ensures { f.new ≡ add_entry_of (given field) values.now f.old k }
{
    let n = field.c.len();
    let coeff = weights::half(field.q[k]);
    let i = usize::from(field.rows[k]);
    let j = usize::from(field.cols[k]);
    add_at(f, n, i, coeff, values[j]);
    add_at(f, n, j, coeff, values[i]);
}

// Every entry's terms, where the rows stand at their start.
fn add_entries(field: FieldRef, values: &[u8], f: &mut [f64])
    requires fillable { Fillable (lent field) values.now f.old }
    requires by_index { (i : ℕ) → i < variables (lent field) → row_on f.old (variables (lent field)) i ≡ start_row (get_or (lent field).linear i nan) }
    ensures { Filled (given field) values.now f.old f.new }
{
    for k in 0..field.q.len() {
        add_entry(field, values, f, k);
    }
}

// Entry k's term goes into the row of each end, where row j is held in `row` and not in its place; the row of the entry's column, which is held then.
fn hold_entry(field: FieldRef, values: &[u8], f: &mut [f64], j: usize, row: Row, k: usize) -> Row
    requires fillable { Fillable (lent field) values.now f.old }
    requires j_in_bounds { (j < variables (lent field)) × (k < entries (lent field)) }
    ensures { put_row_of f.new (variables (given field)) (column_end (given field) k) result
        ≡ add_entry_of (given field) values.now (put_row_of f.old (variables (given field)) j row) k }
{
    let n = field.c.len();
    let coeff = weights::half(field.q[k]);
    let i = usize::from(field.rows[k]);
    let t = usize::from(field.cols[k]);
    if t == j && i != j {
        add_at(f, n, i, coeff, values[t]);
        return row.add_term(coeff, values[i]);
    }
    put_row(f, n, j, row);
    add_at(f, n, i, coeff, values[t]);
    row_at(f, n, t).add_term(coeff, values[i])
}

// Every entry's terms, where the rows stand at their start, for long columns: the row of a column is held while its entries are added.
fn add_columns(field: FieldRef, values: &[u8], f: &mut [f64])
    requires fillable { Fillable (lent field) values.now f.old }
    requires by_index { (i : ℕ) → i < variables (lent field) → row_on f.old (variables (lent field)) i ≡ start_row (get_or (lent field).linear i nan) }
    ensures { Filled (given field) values.now f.old f.new }
{
    if field.q.is_empty() {
        return;
    }
    let n = field.c.len();
    let mut j = usize::from(field.cols[0]);
    let mut row = row_at(f, n, j);
    for k in 0..field.q.len() {
        row = hold_entry(field, values, f, j, row, k);
        j = usize::from(field.cols[k]);
    }
    put_row(f, n, j, row);
}

// Every row's bounds: lower at [0, n), upper at [n, 2n); what lies past them is unchanged.
pub fn fill(field: FieldRef, values: &[u8], f: &mut [f64])
    requires { Fillable (lent field) values.now f.old }
    ensures { Filled (given field) values.now f.old f.new }
{
    start_rows(field.c, f);
    if field.q.len() / 6 >= field.c.len() {
        add_columns(field, values, f);
        return;
    }
    add_entries(field, values, f);
}

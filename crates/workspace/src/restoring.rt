// What a probe touched is put back: rows from their copy, and values from the start values.
ghost use Rattle.std.specs.Prelude.{◌≡◌, ◌+◌, ◌<◌, ◌≤◌, length};
ghost use Rattle.field.specs.Field.{given, lent};
ghost use Rattle.rows.specs.Stored.{Filled};
ghost use Rattle.run.specs.Cells.{cells};
ghost use Rattle.workspace.specs.Restored as model;

use crate::copying::copy_part;
use field::FieldRef;
use rows::Row;
use rows::store::put_row;

// The row of t is what its copy is.
fn back_at(f: &mut [f64], n: usize, t: usize)
    requires t_lt_n { t < n }
    requires n_in_bounds { n + n + (n + n) ≤ length f.old }
    ensures { f.new ≡ model.back_at_of n f.old t }
{
    let low = n + n + t;
    let high = n + n + (n + t);
    let row = Row {
        lower: f[low],
        upper: f[high],
    };
    put_row(f, n, t, row);
}

// The rows of the other ends of x's places.
fn back(rows: &[u16], cols: &[u16], f: &mut [f64], u: &[u32], n: usize, x: usize)
    requires backable { model.Backable n rows.now cols.now f.old u.now }
    requires x_lt_n { x < n }
    ensures { f.new ≡ model.back n rows.now cols.now x f.old }
{
    let start = u[x] as usize;
    let end = u[x + 1] as usize;
    for p in start..end {
        let t = places::end_in(u[n + 1 + p]);
        back_at(f, n, t);
    }
}

// The variables of a list in u have their start values again.
pub fn undo(start: &[u8], values: &mut [u8], u: &[u32], from: usize, count: usize)
    requires { model.Undoable start.now values.old u.now from count }
    ensures { values.new ≡ start.now }
{
    for h in 0..count {
        let x = u[from + h] as usize;
        values[x] = start[x];
    }
}

// The rows of the neighbours of the variables of a list in u.
fn back_list(field: FieldRef, start: &[u8], f: &mut [f64], u: &[u32], from: usize, count: usize)
    requires { model.Rowable (lent field) start.now u.now from count f.old }
    ensures { Filled (given field) start.now f.old f.new }
{
    let n = field.c.len();
    for h in 0..count {
        let x = u[from + h] as usize;
        back(field.rows, field.cols, f, u, n, x);
    }
}

// After a probe: the values are the start values again, and the rows those at the start values. Only what it touched is put back,
// or all rows in one copy where it forced more than an eighth of the variables.
pub fn restore(
    field: FieldRef,
    start: &[u8],
    values: &mut [u8],
    f: &mut [f64],
    u: &[u32],
    variable: usize,
    count: usize,
)
    requires { model.Touched (lent field) start.now variable (cells values.old f.old u.now count) }
    ensures values_value { values.new ≡ start.now }
    ensures filled { Filled (given field) start.now f.old f.new }
{
    let n = field.c.len();
    let from = n + 1 + 2 * field.rows.len();
    values[variable] = start[variable];
    undo(start, values, u, from, count);
    if n / 8 < count {
        copy_part(f, n + n, 0, n + n);
        return;
    }
    back(field.rows, field.cols, f, u, n, variable);
    back_list(field, start, f, u, from, count);
}

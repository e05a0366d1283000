// The rows of the probed variable's neighbours: made afresh at the values, each from its variable's places, or its term moved.
ghost use Rattle.std.specs.Prelude.{◌≡◌, ◌<◌, length};
ghost use Rattle.field.specs.Field.{given, lent, variables, entries, Standard};
ghost use Rattle.field.specs.Grade.{grade_of};
ghost use Rattle.rows.specs.Model.{row_of};
ghost use Rattle.places.specs.Places.{other_end};
ghost use Rattle.run.specs.Cells.{cells, Placed, Does};
ghost use Rattle.probing.specs.Remembered as model;
ghost use Rattle.probing.specs.Once as once;

use field::{FieldRef, Grade};
use rows::Row;
use rows::store::put_row;
use run::steps::move_row;
use scanning::merging::next_place;

// The term of place k, whose other end is j, goes into the row of t.
fn add_place(
    row: Row,
    rows: &[u16],
    cols: &[u16],
    q: &[f64],
    values: &[u8],
    t: usize,
    k: usize,
    j: usize,
) -> Row
    requires k_in_bounds { k < length q.now }
    requires j_in_bounds { j < length values.now }
    requires j_value { j ≡ other_end rows.now cols.now t k }
    ensures { result ≡ model.add_place rows.now cols.now q.now values.now t row k }
{
    let coeff = weights::half(q[k]);
    row.add_term(coeff, values[j])
}

// Row t at the values.
fn fresh_row(field: FieldRef, values: &[u8], u: &[u32], t: usize) -> Row
    requires readable { model.Readable (lent field) values.now u.now }
    requires t_bound { t < variables (lent field) }
    ensures { result ≡ row_of (given field) values.now t }
{
    let n = field.c.len();
    let start = u[t] as usize;
    let end = u[t + 1] as usize;
    let mut row = Row::start(field.c[t]);
    for p in start..end {
        let word = u[n + 1 + p];
        let k = places::entry_in(word);
        let j = places::end_in(word);
        row = add_place(row, field.rows, field.cols, field.q, values, t, k, j);
    }
    row
}

// Place k of variable i: the row of a free other end is made afresh.
fn refresh_at(field: FieldRef, values: &[u8], f: &mut [f64], u: &[u32], i: usize, k: usize)
    requires placed { Placed (lent field) (cells values.now f.old u.now 0) }
    requires standard { Standard (lent field) }
    requires k_bound { k < entries (lent field) }
    ensures { Does (given field) (λ run. model.fresh_at (given field) i run k)
        (cells values.now f.old u.now 0)
        (cells values.now f.new u.now 0) }
{
    let t = places::other_end(field.rows, field.cols, i, k);
    if values[t] != 2 {
        return;
    }
    let row = fresh_row(field, values, u, t);
    put_row(f, field.c.len(), t, row);
}

// Place k of variable i, once for each neighbour: where i is not the row of entry k, and is the row of another that leads there too,
// that one will do. The cursor x goes through the places of i as the row, whose columns rise as the rows of entry k do.
fn refresh_once(
    field: FieldRef,
    values: &[u8],
    f: &mut [f64],
    u: &[u32],
    i: usize,
    k: usize,
    x: usize,
    end: usize,
) -> usize
    requires placed { Placed (lent field) (cells values.now f.old u.now 0) }
    requires standard { Standard (lent field) }
    requires k_bound { k < entries (lent field) }
    requires within { once.Within (lent field) u.now i end x }
    ensures within_2 { once.Within (given field) u.now i end result }
    ensures once { once.Once (given field) i k
        (cells values.now f.old u.now 0)
        (cells values.now f.new u.now 0) }
{
    let t = usize::from(field.rows[k]);
    if t == i {
        refresh_at(field, values, f, u, i, k);
        return x;
    }
    let n = field.c.len();
    let twin = next_place(field.rows, field.cols, u, n + 1, x, end, i, t, n);
    if twin.head == t {
        return twin.at;
    }
    refresh_at(field, values, f, u, i, k);
    twin.at
}

// The rows of the free neighbours of i are made afresh, each once.
fn refresh(field: FieldRef, values: &[u8], f: &mut [f64], u: &[u32], i: usize)
    requires placed { Placed (lent field) (cells values.now f.old u.now 0) }
    requires standard { Standard (lent field) }
    requires i_bound { i < variables (lent field) }
    ensures { Does (given field) (λ run. model.fresh (given field) run i)
        (cells values.now f.old u.now 0)
        (cells values.now f.new u.now 0) }
{
    let n = field.c.len();
    let start = u[i] as usize;
    let end = u[i + 1] as usize;
    let mut x = start;
    for p in start..end {
        let k = places::entry_in(u[n + 1 + p]);
        x = refresh_once(field, values, f, u, i, k, x, end);
    }
}

// Place k of variable i, which takes the value v: its term in the row of its other end t was free and is fixed.
fn move_at(
    field: FieldRef,
    values: &[u8],
    f: &mut [f64],
    u: &[u32],
    i: usize,
    v: u8,
    k: usize,
    t: usize,
)
    requires placed { Placed (lent field) (cells values.now f.old u.now 0) }
    requires k_bound { k < entries (lent field) }
    requires t_value { t ≡ other_end (lent field).rows (lent field).cols i k }
    ensures { Does (given field) (λ run. model.move_at (given field) i v run k)
        (cells values.now f.old u.now 0)
        (cells values.now f.new u.now 0) }
{
    let coeff = weights::half(field.q[k]);
    move_row(f, field.c.len(), t, coeff, v);
}

// The term of i, which takes the value v, is moved in the rows of its neighbours.
fn move_terms(field: FieldRef, values: &[u8], f: &mut [f64], u: &[u32], i: usize, v: u8)
    requires placed { Placed (lent field) (cells values.now f.old u.now 0) }
    requires i_bound { i < variables (lent field) }
    ensures { Does (given field) (λ run. model.moves (given field) v run i)
        (cells values.now f.old u.now 0)
        (cells values.now f.new u.now 0) }
{
    let n = field.c.len();
    let start = u[i] as usize;
    let end = u[i + 1] as usize;
    for p in start..end {
        let word = u[n + 1 + p];
        let k = places::entry_in(word);
        let t = places::end_in(word);
        move_at(field, values, f, u, i, v, k, t);
    }
}

// The neighbours' rows after i took the value v: on an exact field no sum is rounded, so its terms are moved, and else rows are made afresh.
pub fn renew(
    field: FieldRef,
    values: &[u8],
    f: &mut [f64],
    u: &[u32],
    i: usize,
    v: u8,
    grade: Grade,
)
    requires placed { Placed (lent field) (cells values.now f.old u.now 0) }
    requires standard { Standard (lent field) }
    requires i_bound { i < variables (lent field) }
    requires grade_value { grade ≡ grade_of (lent field) }
    ensures { Does (given field) (λ run. model.renewed (given field) v run i)
        (cells values.now f.old u.now 0)
        (cells values.now f.new u.now 0) }
{
    match grade {
        Grade::Exact => move_terms(field, values, f, u, i, v),
        Grade::Inexact => refresh(field, values, f, u, i),
    }
}

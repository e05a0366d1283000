// The value of a variable changes: the rows of its free neighbours are turned, and its own is worked out afresh.
ghost use Rattle.std.specs.Prelude.{◌≡◌, true, ◌<◌, ◌≤◌, length};
ghost use Rattle.field.specs.Field.{given, lent, variables, entries};
ghost use Rattle.field.specs.Tests.{Sound};
ghost use Rattle.rows.specs.Model.{row_of};
ghost use Rattle.kept.specs.Kept as model;
ghost use Rattle.kept.specs.Kept.{kept, meets};
ghost use Rattle.kept.specs.Calls.{Recorded};

use crate::search::next_entry;
use crate::storing::{plain, strict_rows};
use field::FieldRef;
use rows::Row;
use rows::store::{put_row, row_at};

// Entry k is one of i: the row of its other end, where that is free, has its term at `old` taken out and put back at `new`.
fn turn_at(field: FieldRef, values: &[u8], bounds: &mut [f64], i: usize, old: u8, new: u8, k: usize)
    requires recorded { Recorded (lent field) values.now (length bounds.old) }
    requires k_bound { k < entries (lent field) }
    requires k_value { meets (lent field).rows (lent field).cols i k ≡ true }
    ensures { bounds.new ≡ model.turn_at (given field) values.now i old new bounds.old k }
{
    let n = field.c.len();
    let t = places::other_end(field.rows, field.cols, i, k);
    if values[t] != 2 {
        return;
    }
    let coeff = weights::half(field.q[k]);
    let row = row_at(bounds, n, t);
    let turned = row.remove_term(coeff, old).add_term(coeff, new);
    put_row(bounds, n, t, plain(turned));
}

// Every entry of i, in order.
fn turn_rows(field: FieldRef, values: &[u8], bounds: &mut [f64], i: usize, old: u8, new: u8)
    requires recorded { Recorded (lent field) values.now (length bounds.old) }
    requires i_bound { i < variables (lent field) }
    ensures { bounds.new ≡ model.turn_to (given field) values.now i old new bounds.old (entries (given field)) }
{
    let short = i as u16;
    let mut k = next_entry(field.rows, field.cols, short, 0);
    // k jumps from one entry of i to the next.
    while k < field.rows.len() {
        turn_at(field, values, bounds, i, old, new, k);
        k = next_entry(field.rows, field.cols, short, k + 1);
    }
}

// The row of i, from its entries in order.
fn own_row(field: FieldRef, values: &[u8], i: usize) -> Row
    requires sound { Sound (lent field) values.now }
    requires i_bound { i < variables (lent field) }
    ensures { result ≡ row_of (given field) values.now i }
{
    let short = i as u16;
    let mut row = Row::start(field.c[i]);
    let mut k = next_entry(field.rows, field.cols, short, 0);
    // k jumps from one entry of i to the next.
    while k < field.rows.len() {
        let t = places::other_end(field.rows, field.cols, i, k);
        row = row.add_term(weights::half(field.q[k]), values[t]);
        k = next_entry(field.rows, field.cols, short, k + 1);
    }
    row
}

// What is stored of the row of i.
fn afresh(field: FieldRef, values: &[u8], i: usize) -> Row
    requires sound { Sound (lent field) values.now }
    requires i_bound { i < variables (lent field) }
    ensures { result ≡ model.afresh (given field) values.now i }
{
    let value = values[i];
    if value != 2 {
        return Row::start(0.0);
    }
    plain(own_row(field, values, i))
}

// Variable i takes the value; how many rows are strict then.
pub fn change(field: FieldRef, values: &mut [u8], bounds: &mut [f64], i: usize, value: u8) -> u32
    requires recorded { Recorded (lent field) values.old (length bounds.old) }
    requires i_bound { i < variables (lent field) }
    requires value_bound { value ≤ 2 }
    ensures { kept values.new bounds.new result ≡ model.changed (given field) i value (kept values.old bounds.old 0) }
{
    let n = field.c.len();
    let old = values[i];
    values[i] = value;
    turn_rows(field, values, bounds, i, old, value);
    put_row(bounds, n, i, afresh(field, values, i));
    strict_rows(values, bounds)
}

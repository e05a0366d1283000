// Rows as the record holds them, and how many of them are strict.
ghost use Rattle.std.specs.Prelude.{◌≡◌, cond, ◌&&◌, ◌+◌, ◌≤◌, eqb, length, get_or};
ghost use Rattle.scratch.specs.Over.{over};
ghost use Rattle.rows.specs.Row.{is_strict};
ghost use Rattle.rows.specs.Stored.{row_on, Written};
ghost use Rattle.kept.specs.Kept as model;

use rows::Row;
use rows::store::{put_row, row_at};

// The bounds of a row as the record stores them: the same numbers, and no -0.0.
pub fn plain(row: Row) -> Row
    ensures { result ≡ model.plain row }
{
    Row {
        lower: row.lower + 0.0,
        upper: row.upper + 0.0,
    }
}

// What is stored of a row whose variable has this byte.
pub fn stored_row(value: u8, row: Row) -> Row
    ensures { result ≡ model.stored_row value row }
{
    if value == 2 {
        plain(row)
    } else {
        Row::start(0.0)
    }
}

// The rows that stand at the front of f go into the record.
pub fn store_rows(values: &[u8], f: &[f64], bounds: &mut [f64])
    requires values_in_bounds { length values.now + length values.now ≤ length f.now }
    requires bounds_len { length bounds.old ≡ length values.now + length values.now }
    ensures { Written (length values.now) (λ t. model.stored_row (get_or values.now t 0) (row_on f.now (length values.now) t))
        bounds.old bounds.new (length values.now) }
{
    let n = values.len();
    for t in 0..n {
        put_row(bounds, n, t, stored_row(values[t], row_at(f, n, t)));
    }
}

// 1 where the variable with this byte is free and its row is strict, else 0; no branch on either.
fn strict_at(value: u8, row: Row) -> u32
    ensures { result ≡ cond (eqb value 2 && is_strict row) 1 0 }
{
    let strict = (value == 2) & ((row.lower > 0.0) | (row.upper < 0.0));
    u32::from(strict)
}

// How many free variables have a strict row, whatever the bounds hold.
pub fn strict_rows(values: &[u8], bounds: &[f64]) -> u32
    requires values_len_bound { length values.now ≤ 4096 }
    requires bounds_len { length bounds.now ≡ length values.now + length values.now }
    ensures { result ≡ model.strict_to values.now bounds.now (length values.now) }
{
    let n = values.len();
    let mut strict: u32 = 0;
    for i in 0..n {
        strict += strict_at(values[i], row_at(bounds, n, i));
    }
    strict
}

// Copies the bounds of a record to the front of f, where a run has its rows.
pub fn copy_bounds(bounds: &[f64], f: &mut [f64])
    requires { length bounds.now ≤ length f.old }
    ensures { f.new ≡ over bounds.now f.old }
{
    // The library's `copy_from_slice` needs memmove of the C library, which a program in C is not asked for.
    for (i, bound) in bounds.iter().enumerate() {
        f[i] = *bound;
    }
}

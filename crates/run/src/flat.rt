// How many free variables have a flat row, in what a run leaves.
ghost use Rattle.std.specs.Prelude.{◌≡◌, cond, ◌&&◌, ◌+◌, ◌<◌, ◌≤◌, length};
ghost use Rattle.meaning.specs.Free.{is_free};
ghost use Rattle.rows.specs.Row.{judge_of, is_flat as is_flat_of};
ghost use Rattle.rows.specs.Stored.{row_on, rows_on};
ghost use Rattle.run.specs.Run.{flat_to};

use rows::store::row_at;

// 1 where variable i is free and its row is flat, else 0.
fn flat_at(values: &[u8], f: &[f64], n: usize, i: usize) -> usize
    requires i_in_bounds { i < length values.now }
    requires i_in_bounds_2 { n + i < length f.now }
    ensures { result ≡ cond (is_free values.now i && is_flat_of (judge_of (row_on f.now n i))) 1 0 }
{
    if values[i] != 2 {
        return 0;
    }
    let flat = row_at(f, n, i).judge().is_flat();
    usize::from(flat)
}

// A row is counted where its variable is free, whatever the rows of the others hold.
pub fn flat_rows(values: &[u8], f: &[f64]) -> usize
    requires { length values.now + length values.now ≤ length f.now }
    ensures { result ≡ flat_to values.now (rows_on f.now (length values.now)) (length values.now) }
{
    let n = values.len();
    let mut flat = 0;
    for i in 0..n {
        flat += flat_at(values, f, n, i);
    }
    flat
}

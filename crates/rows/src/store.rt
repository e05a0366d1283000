// Rows in lent floats: of n rows at the front, row t has its lower bound at t and its upper bound at n + t.
ghost use Rattle.std.specs.Prelude.{◌≡◌, ◌+◌, ◌<◌, length};
ghost use Rattle.rows.specs.Stored.{row_on, put_row as put_row_of};

use crate::Row;

// Reads row t of the n rows at the front of lent floats: lower at t, upper at n + t.
pub fn row_at(f: &[f64], n: usize, t: usize) -> Row
    requires { n + t < length f.now }
    ensures { result ≡ row_on f.now n t }
{
    let up = n + t;
    Row {
        lower: f[t],
        upper: f[up],
    }
}

// Writes row t of the n rows at the front of lent floats: lower at t, upper at n + t.
pub fn put_row(f: &mut [f64], n: usize, t: usize, row: Row)
    requires { n + t < length f.old }
    ensures { f.new ≡ put_row_of f.old n t row }
{
    let up = n + t;
    f[t] = row.lower;
    f[up] = row.upper;
}

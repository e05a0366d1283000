// The entries of a variable, found without places: whole blocks of entries that are none of its own are passed over at once.
ghost use Rattle.std.specs.Prelude.{◌≡◌, not, ◌||◌, ◌+◌, ◌≤◌, eqb, length};
ghost use Rattle.scratch.specs.All.{all_below};
ghost use Rattle.kept.specs.Kept.{meets};
ghost use Rattle.kept.specs.Next.{Skipped, Next};

// Whether neither end is i.
fn is_apart(row: u16, col: u16, i: u16) -> bool
    ensures { result ≡ not (eqb row i || eqb col i) }
{
    (row != i) & (col != i)
}

// Whether none of the 64 entries from `from` on is one of i.
fn block_apart(rows: &[u16], cols: &[u16], i: u16, from: usize) -> bool
    requires rows_len { length rows.now ≡ length cols.now }
    requires from_in_bounds { from + 64 ≤ length rows.now }
    ensures { result ≡ all_below (λ k. not (meets rows.now cols.now i (from + k))) 64 }
{
    let mut apart = true;
    for k in 0..64 {
        let at = from + k;
        apart = apart & is_apart(rows[at], cols[at], i);
    }
    apart
}

// Blocks from `from` on are passed over up to one that has an entry of i, or to where no whole block is left.
fn skip(rows: &[u16], cols: &[u16], i: u16, from: usize) -> usize
    requires rows_len { length rows.now ≡ length cols.now }
    requires rows_len_bound { length rows.now ≤ 32768 }
    requires from_in_bounds { from ≤ length rows.now }
    ensures { Skipped rows.now cols.now i from result }
{
    let mut k = from;
    // k goes on by whole blocks, and where it stops is the answer: a for loop would count the blocks beside it.
    while k + 64 <= rows.len() {
        if !block_apart(rows, cols, i, k) {
            return k;
        }
        k += 64;
    }
    k
}

// The first entry of i from `from` on; the number of entries where there is none.
pub fn next_entry(rows: &[u16], cols: &[u16], i: u16, from: usize) -> usize
    requires rows_len { length rows.now ≡ length cols.now }
    requires rows_len_bound { length rows.now ≤ 32768 }
    requires from_in_bounds { from ≤ length rows.now }
    ensures { Next rows.now cols.now i from result }
{
    for k in skip(rows, cols, i, from)..rows.len() {
        if !is_apart(rows[k], cols[k], i) {
            return k;
        }
    }
    rows.len()
}

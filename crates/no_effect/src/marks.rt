// Which variables have an entry: one word for each, 0 where there is none.
ghost use Rattle.std.specs.Prelude.{◌≤◌, length};
ghost use Rattle.places.specs.Places.{EndsBelow, Begins};
ghost use Rattle.no_effect.specs.Effect.{Marked};

// The first n words, which are 0, become 1 at the ends of the entries.
fn mark(u: &mut [u32], rows: &[u16], cols: &[u16], n: usize)
    requires ends_below { EndsBelow n rows.now cols.now }
    requires n_in_bounds { n ≤ length u.old }
    requires begins { Begins n (λ i. 0) u.old }
    ensures { Marked n rows.now cols.now u.old u.new }
{
    for k in 0..rows.len() {
        let r = usize::from(rows[k]);
        let c = usize::from(cols[k]);
        u[r] = 1;
        u[c] = 1;
    }
}

// The first n words become 0 where a variable has no entry, and 1 where it has one.
pub fn mark_ends(u: &mut [u32], rows: &[u16], cols: &[u16], n: usize)
    requires ends_below { EndsBelow n rows.now cols.now }
    requires n_in_bounds { n ≤ length u.old }
    ensures { Marked n rows.now cols.now u.old u.new }
{
    u[..n].fill(0);
    mark(u, rows, cols, n);
}

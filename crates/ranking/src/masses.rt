// The edge masses: |q| of each entry with both ends free, at either end.
ghost use Rattle.std.specs.Prelude.{◌≡◌, ◌<◌, length};
ghost use Rattle.field.specs.Field.{given, lent, entries};
ghost use Rattle.weights.specs.Worth.{zero64};
ghost use Rattle.scratch.specs.Cleared.{cleared};
ghost use Rattle.ranking.specs.Masses.{added, add_entry as add_entry_of, Massable, Massed};

use field::FieldRef;

// Adds a to the mass at i.
fn add_at(w: &mut [f64], i: usize, a: f64)
    requires { i < length w.old }
    ensures { w.new ≡ added w.old i a }
{
    w[i] = w[i] + a;
}

// Adds entry k's magnitude to the mass of each end, where both are free.
fn add_entry(field: FieldRef, start: &[u8], w: &mut [f64], k: usize)
    requires massable { Massable (lent field) start.now w.old }
    requires k_bound { k < entries (lent field) }
    ensures { w.new ≡ add_entry_of (given field) start.now w.old k }
{
    let i = usize::from(field.rows[k]);
    let j = usize::from(field.cols[k]);
    if start[i] != 2 {
        return;
    }
    if start[j] != 2 {
        return;
    }
    let a = weights::magnitude(field.q[k]);
    add_at(w, i, a);
    add_at(w, j, a);
}

// Adds every entry, where the masses are zero.
fn add_entries(field: FieldRef, start: &[u8], w: &mut [f64])
    requires massable { Massable (lent field) start.now w.old }
    requires w_value { w.old ≡ cleared zero64 w.old }
    ensures { Massed (given field) start.now w.new (entries (given field)) }
{
    for k in 0..field.q.len() {
        add_entry(field, start, w, k);
    }
}

// The mass of each variable.
pub fn fill(field: FieldRef, start: &[u8], w: &mut [f64])
    requires { Massable (lent field) start.now w.old }
    ensures { Massed (given field) start.now w.new (entries (given field)) }
{
    w.fill(0.0);
    add_entries(field, start, w);
}

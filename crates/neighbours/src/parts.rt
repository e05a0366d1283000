// The linear part and the mass of every variable, in one pass over the entries: linear parts at [0, n), masses at [n, 2n).
ghost use Rattle.std.specs.Prelude.{◌≡◌, ◌+◌, ◌<◌, ◌≤◌, length, get_or};
ghost use Rattle.std.specs.Float.{nan};
ghost use Rattle.weights.specs.Worth.{magnitude};
ghost use Rattle.field.specs.Field.{given, lent, entries};
ghost use Rattle.rows.specs.Stored.{Fillable};
ghost use Rattle.neighbours.specs.Parts.{fixed_term, add_end as add_end_of, add_both, PartsAre, Parted};

use field::FieldRef;

// Coefficient times value of a fixed end is added, a free end adds nothing.
fn with_end(x: f64, coeff: f64, value: u8) -> f64
    ensures { result ≡ fixed_term x coeff value }
{
    if value == 2 {
        x
    } else {
        x + coeff * (value as f64)
    }
}

// One end t of an entry, whose other end has this value.
fn add_end(f: &mut [f64], n: usize, t: usize, coeff: f64, value: u8)
    requires { n + t < length f.old }
    ensures { f.new ≡ add_end_of f.old n t coeff value }
{
    let up = n + t;
    let linear = with_end(f[t], coeff, value);
    let mass = f[up] + weights::magnitude(coeff);
    f[t] = linear;
    f[up] = mass;
}

// Both ends of entry k.
fn add_entry(field: FieldRef, values: &[u8], f: &mut [f64], k: usize)
    requires fillable { Fillable (lent field) values.now f.old }
    requires k_bound { k < entries (lent field) }
    ensures { f.new ≡ add_both (given field) values.now f.old k }
{
    let n = field.c.len();
    let coeff = weights::half(field.q[k]);
    let i = usize::from(field.rows[k]);
    let j = usize::from(field.cols[k]);
    add_end(f, n, i, coeff, values[j]);
    add_end(f, n, j, coeff, values[i]);
}

// c and |c| of every variable.
fn start_parts(c: &[f64], f: &mut [f64])
    requires { length c.now + length c.now ≤ length f.old }
    ensures { PartsAre (length c.now) (λ i. get_or c.now i nan) (λ i. magnitude (get_or c.now i nan)) f.new (length c.now) }
{
    let n = c.len();
    for (i, linear) in c.iter().enumerate() {
        let up = n + i;
        f[i] = *linear;
        f[up] = weights::magnitude(*linear);
    }
}

// Every entry, where the parts stand at c and |c|.
fn add_entries(field: FieldRef, values: &[u8], f: &mut [f64])
    requires fillable { Fillable (lent field) values.now f.old }
    requires parted { Parted (lent field) values.now f.old 0 }
    ensures { Parted (given field) values.now f.new (entries (given field)) }
{
    for k in 0..field.q.len() {
        add_entry(field, values, f, k);
    }
}

// Writes the linear part and the mass of every variable to the front of f.
pub fn parts(field: FieldRef, values: &[u8], f: &mut [f64])
    requires { Fillable (lent field) values.now f.old }
    ensures { Parted (given field) values.now f.new (entries (given field)) }
{
    start_parts(field.c, f);
    add_entries(field, values, f);
}

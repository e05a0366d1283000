// The lists close up in place.
ghost use Rattle.std.specs.Prelude.{◌≡◌, map as mapped, ◌≤◌, length, take};
ghost use Rattle.std.specs.Float.{binary64};
ghost use Rattle.std.specs.Float.Ieee.{of_bits};
ghost use Rattle.scratch.specs.Over.{over};
ghost use Rattle.field.specs.Field.{field_of, entries};
ghost use Rattle.sub_problem.specs.Working.{Usable, Numbers, Rising, sum_at, entries_of, close_at as close_at_of, closed_to, closed_entries, Closable};
ghost use Rattle.sub_problem.specs.Call.{closed_up};

// The weights of the variables that the map lists come to the front, each what is gathered for it and then c.
pub fn close_linear(c: &mut [f64], map: &[u16], f: &[f64], count: usize)
    requires rising { Rising (length c.old) map.now count }
    requires c_in_bounds { length c.old ≤ length f.now }
    ensures { c.new ≡ over (mapped (sum_at f.now c.old) (take count map.now)) c.old }
{
    for t in 0..count {
        let i = usize::from(map[t]);
        c[t] = f[i] + c[i];
    }
}

// Entry k goes to the place `kept` with new numbers, where both its ends are free; hands back how many are kept now.
fn close_at(
    rows: &mut [u16],
    cols: &mut [u16],
    q: &mut [f64],
    start: &[u8],
    u: &[u32],
    k: usize,
    kept: usize,
) -> usize
    requires closable { Closable start.now k kept rows.old cols.old q.old }
    requires numbers { Numbers start.now u.now }
    ensures { entries_of rows.new cols.new q.new result ≡ close_at_of start.now k (entries_of rows.old cols.old q.old kept) }
{
    let i = usize::from(rows[k]);
    if start[i] != 2 {
        return kept;
    }
    let j = usize::from(cols[k]);
    if start[j] != 2 {
        return kept;
    }
    rows[kept] = u[i] as u16;
    cols[kept] = u[j] as u16;
    q[kept] = q[k];
    kept + 1
}

// All entries with both ends free, in order; how many they are.
pub fn close_entries(
    c: &[f64],
    rows: &mut [u16],
    cols: &mut [u16],
    q: &mut [f64],
    start: &[u8],
    u: &[u32],
) -> usize
    requires usable { Usable (field_of c.now rows.old cols.old q.old) start.now }
    requires numbers { Numbers start.now u.now }
    ensures { entries_of rows.new cols.new q.new result ≡ closed_to (field_of c.now rows.old cols.old q.old) start.now (entries (field_of c.now rows.old cols.old q.old)) }
{
    let mut kept: usize = 0;
    for k in 0..q.len() {
        kept = close_at(rows, cols, q, start, u, k, kept);
    }
    kept
}

// The weights come to the front, and zeros stand behind them.
pub fn close_weights(c: &mut [f64], map: &[u16], f: &[f64], count: usize)
    requires rising { Rising (length c.old) map.now count }
    requires c_in_bounds { length c.old ≤ length f.now }
    ensures { c.new ≡ closed_up (of_bits binary64 0) (mapped (sum_at f.now c.old) (take count map.now)) c.old }
{
    close_linear(c, map, f, count);
    c[count..].fill(0.0);
}

// The entries come to the front, and zeros stand behind them; how many they are.
pub fn close_all(
    c: &[f64],
    rows: &mut [u16],
    cols: &mut [u16],
    q: &mut [f64],
    start: &[u8],
    u: &[u32],
) -> usize
    requires usable { Usable (field_of c.now rows.old cols.old q.old) start.now }
    requires numbers { Numbers start.now u.now }
    ensures { entries_of rows.new cols.new q.new result ≡ closed_entries (field_of c.now rows.old cols.old q.old) start.now }
{
    let kept = close_entries(c, rows, cols, q, start, u);
    rows[kept..].fill(0);
    cols[kept..].fill(0);
    q[kept..].fill(0.0);
    kept
}

// One pass over the sorted entries: places, sums and marks go into scratch.
ghost use Rattle.std.specs.Prelude.{◌≡◌, ◌+◌, ◌≤◌, length};
ghost use Rattle.scratch.specs.Region.{region};
ghost use Rattle.field.specs.Field.{given, lent, entries};
ghost use Rattle.mending.specs.Lineup.{lineup, Roomy};
ghost use Rattle.mending.specs.Gathering.{is_last_of, Takable, Taken, Gathers};

use crate::places::place_at;
use field::FieldRef;

// Whether p is the last of the o places from word m on.
fn is_last(u: &[u32], m: usize, o: usize, p: usize) -> bool
    requires { m + o ≤ length u.now }
    ensures { result ≡ is_last_of p (region m o u.now) }
{
    if o == 0 {
        return false;
    }
    let last = o - 1;
    u[m + last] as usize == p
}

// Entry e is dropped, joins the last place or opens a new one; hands back how many places there are now.
fn take_entry(field: FieldRef, f: &mut [f64], u: &mut [u32], e: usize, o: usize) -> usize
    requires { Takable (lent field) e o f.old u.old }
    ensures { Taken (given field) e o result f.old f.new u.old u.new }
{
    let m = field.q.len();
    let p = place_at(field, e);
    if p >= field.c.len() * field.c.len() {
        u[2 * m + e] = 65535;
        return o;
    }
    if is_last(u, m, o, p) {
        let last = o - 1;
        f[m + last] = f[m + last] + field.q[e];
        u[2 * m + e] = (131072 + last) as u32;
        return o;
    }
    u[m + o] = p as u32;
    f[m + o] = field.q[e];
    u[2 * m + e] = (65536 + o) as u32;
    o + 1
}

// All of them; hands back how many places there are.
pub fn gather(field: FieldRef, f: &mut [f64], u: &mut [u32]) -> usize
    requires roomy { Roomy (lent field) f.old u.old }
    requires u_value { region 0 (entries (lent field)) u.old ≡ lineup (lent field) }
    ensures { Gathers (given field) result f.old f.new u.old u.new }
{
    let mut o: usize = 0;
    for t in 0..field.q.len() {
        let e = u[t] as usize;
        o = take_entry(field, f, u, e, o);
    }
    o
}

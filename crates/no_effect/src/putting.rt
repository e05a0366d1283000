// The variables without a mark and with c = 0 go into the answer list.
ghost use Rattle.std.specs.Prelude.{◌≡◌, ◌≤◌, length};
ghost use Rattle.no_effect.specs.Effect.{idle};
ghost use Rattle.no_effect.specs.Putting.{Puttable, putting, put_at, put_all};

// Puts variable i at the place `count` if it has no effect and the list has that place; hands back how many there are now.
fn put_at(c: &[f64], u: &[u32], list: &mut [u16], i: usize, count: usize) -> usize
    requires { Puttable (length c.now) (length u.now) i count }
    ensures { putting list.new result ≡ put_at (idle c.now u.now i) i (putting list.old count) }
{
    if u[i] != 0 || c[i] != 0.0 {
        return count;
    }
    if count < list.len() {
        list[count] = i as u16;
    }
    count + 1
}

// Puts all variables of no effect at the front of the list, rising, and answers how many they are.
pub fn put_all(c: &[f64], u: &[u32], list: &mut [u16]) -> usize
    requires c_len_bound { length c.now ≤ 4096 }
    requires c_in_bounds { length c.now ≤ length u.now }
    ensures { putting list.new result ≡ put_all (idle c.now u.now) (length c.now) list.old }
{
    let mut count: usize = 0;
    for i in 0..c.len() {
        count = put_at(c, u, list, i, count);
    }
    count
}

// The mended entries go from scratch to the front of the lists.
ghost use Rattle.mending.specs.Back.{Returnable, Returned};

// The first o entries: place by place its row, its column and its sum.
pub fn put_back(
    n: usize,
    f: &[f64],
    u: &[u32],
    rows: &mut [u16],
    cols: &mut [u16],
    q: &mut [f64],
    o: usize,
)
    requires { Returnable n o f.now u.now rows.old cols.old q.old }
    ensures { Returned n o f.now u.now rows.old rows.new cols.old cols.new q.old q.new }
{
    let m = q.len();
    for t in 0..o {
        let p = u[m + t] as usize;
        rows[t] = (p % n) as u16;
        cols[t] = (p / n) as u16;
        q[t] = f[m + t];
    }
}

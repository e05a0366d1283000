// The scan over the candidates and the neighbours of the probed variable: three rising lists, merged by their cursors.
ghost use Rattle.std.specs.Prelude.{◌≡◌, ◌&&◌, ◌+◌, ◌<◌, ◌≤◌, eqb, leb, length, get_or};
ghost use Rattle.field.specs.Field.{given, lent, variables};
ghost use Rattle.run.specs.Run as model;
ghost use Rattle.run.specs.Cells.{cells, Does};
ghost use Rattle.scanning.specs.Merge as merge;

use crate::Cursor;
use field::FieldRef;
use run::steps::scan_at;

// The next candidate that is b or more.
fn next_candidate(u: &[u32], from: usize, at: usize, end: usize, b: usize, n: usize) -> Cursor
    requires at_le_end { at ≤ end }
    requires end_in_bounds { from + end ≤ length u.now }
    ensures { merge.Next merge.always (merge.list_at u.now from) b at end n result }
{
    for p in at..end {
        let t = u[from + p] as usize;
        if t >= b {
            return Cursor { at: p, head: t };
        }
    }
    Cursor { at: end, head: n }
}

// Whether entry k has the end i in the one list, and an end that is b or more in the other.
fn picks(near: &[u16], far: &[u16], k: usize, i: usize, b: usize) -> bool
    requires k_in_bounds { k < length near.now }
    requires k_in_bounds_2 { k < length far.now }
    ensures { result ≡ (eqb (get_or near.now k 0) i && leb b (get_or far.now k 0)) }
{
    usize::from(near[k]) == i && b <= usize::from(far[k])
}

// The next place with the end i in the one list whose end in the other is b or more.
pub fn next_place(
    near: &[u16],
    far: &[u16],
    u: &[u32],
    from: usize,
    at: usize,
    end: usize,
    i: usize,
    b: usize,
    n: usize,
) -> Cursor
    requires { merge.Through near.now far.now u.now from at end }
    ensures { merge.Next (merge.near_at near.now u.now from i) (merge.far_at far.now u.now from) b at end n result }
{
    for p in at..end {
        let k = places::entry_in(u[from + p]);
        if picks(near, far, k, i, b) {
            return Cursor {
                at: p,
                head: usize::from(far[k]),
            };
        }
    }
    Cursor { at: end, head: n }
}

// The scan, rising, over every free variable whose row is strict; how many were forced.
pub fn scan_some(
    field: FieldRef,
    values: &mut [u8],
    f: &[f64],
    u: &mut [u32],
    i: usize,
    many: usize,
) -> usize
    requires { merge.Covers (lent field) i many (cells values.old f.now u.old 0) }
    ensures { Does (given field) (λ run. model.scan_to run (variables (given field)))
        (cells values.old f.now u.old 0)
        (cells values.new f.now u.new result) }
{
    let n = field.c.len();
    let list = n + 1 + 2 * field.rows.len() + n;
    let first = u[i] as usize;
    let last = u[i + 1] as usize;
    let mut tail = 0;
    let mut b = 0;
    let mut h = 0;
    let mut x = first;
    let mut y = first;
    // Each turn goes on behind the least of three heads.
    while b < n {
        let listed = next_candidate(u, list, h, many, b, n);
        let above = next_place(field.rows, field.cols, u, n + 1, x, last, i, b, n);
        let beside = next_place(field.cols, field.rows, u, n + 1, y, last, i, b, n);
        let t = listed.head.min(above.head.min(beside.head));
        if t >= n {
            return tail;
        }
        tail = scan_at(field, values, f, u, tail, t);
        h = listed.at;
        x = above.at;
        y = beside.at;
        b = t + 1;
    }
    tail
}

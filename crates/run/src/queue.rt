// The loops of the run: the scan, the places of one variable, and the queue.
ghost use Rattle.std.specs.Prelude.{◌≡◌, ◌+◌, ◌<◌, ◌≤◌, length};
ghost use Rattle.scratch.specs.All.{Passing};
ghost use Rattle.field.specs.Field.{given, lent, variables};
ghost use Rattle.field.specs.Tests.{first_from};
ghost use Rattle.run.specs.Run as model;
ghost use Rattle.run.specs.Cells.{cells, Placed, Does};
ghost use Rattle.run.specs.First.{passes};

use crate::steps::{passes_at, scan_at, serve_at};
use field::FieldRef;

// The first variable that the scan does not pass over; as many as there are where it passes over all.
pub fn first(values: &[u8], f: &[f64]) -> usize
    requires { length values.now + length values.now ≤ length f.now }
    ensures { result ≡ first_from (passes values.now f.now) 0 (length values.now) }
{
    for i in 0..values.len() {
        if !passes_at(values, f, values.len(), i) {
            return i;
        }
    }
    values.len()
}

// Every variable, rising, where those before `from` are known to be passed over; how many were forced.
pub fn scan_from(field: FieldRef, values: &mut [u8], f: &[f64], u: &mut [u32], from: usize) -> usize
    requires placed { Placed (lent field) (cells values.old f.now u.old 0) }
    requires passing { Passing (passes values.old f.now) (length values.old) from }
    ensures { Does (given field) (λ run. model.scan_to run (variables (given field)))
        (cells values.old f.now u.old 0)
        (cells values.new f.now u.new result) }
{
    let n = field.c.len();
    let mut tail = 0;
    for i in from..n {
        tail = scan_at(field, values, f, u, tail, i);
    }
    tail
}

// Every variable, rising; how many were forced.
pub fn scan(field: FieldRef, values: &mut [u8], f: &[f64], u: &mut [u32]) -> usize
    requires { Placed (lent field) (cells values.old f.now u.old 0) }
    ensures { Does (given field) (λ run. model.scan_to run (variables (given field)))
        (cells values.old f.now u.old 0)
        (cells values.new f.now u.new result) }
{
    scan_from(field, values, f, u, 0)
}

// Every place of variable i, rising; the queue's new end.
pub fn serve(
    field: FieldRef,
    values: &mut [u8],
    f: &mut [f64],
    u: &mut [u32],
    tail: usize,
    i: usize,
) -> usize
    requires placed { Placed (lent field) (cells values.old f.old u.old tail) }
    requires i_bound { i < variables (lent field) }
    ensures { Does (given field) (λ run. model.serve (given field) run i)
        (cells values.old f.old u.old tail)
        (cells values.new f.new u.new result) }
{
    let n = field.c.len();
    let v = values[i];
    let start = u[i] as usize;
    let end = u[i + 1] as usize;
    let mut last = tail;
    for p in start..end {
        let word = u[n + 1 + p];
        let k = places::entry_in(word);
        let t = places::end_in(word);
        last = serve_at(field, values, f, u, last, i, v, k, t);
    }
    last
}

// The queue, first in, first out, until nothing is left to serve; the queue's end.
pub fn work(field: FieldRef, values: &mut [u8], f: &mut [f64], u: &mut [u32], tail: usize) -> usize
    requires { Placed (lent field) (cells values.old f.old u.old tail) }
    ensures { Does (given field) (λ run. model.work (given field) (variables (given field)) run 0)
        (cells values.old f.old u.old tail)
        (cells values.new f.new u.new result) }
{
    let base = field.c.len() + 1 + 2 * field.rows.len();
    let mut last = tail;
    let mut head = 0;
    // The queue grows while it is served.
    while head < last {
        let i = u[base + head] as usize;
        last = serve(field, values, f, u, last, i);
        head += 1;
    }
    last
}

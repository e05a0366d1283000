// The steps of a walk: each moves the lent words as a step of the model moves its search.
ghost use Rattle.std.specs.Prelude.{◌≡◌, ◌+◌, ◌<◌, ◌≤◌, length, get_or, set};
ghost use Rattle.std.proofs.Math.Seq.{paste};
ghost use Rattle.field.specs.Field.{given, lent, variables, entries};
ghost use Rattle.places.specs.Places.{other_end};
ghost use Rattle.parts.specs.Walk as model;
ghost use Rattle.parts.specs.Cells.{cells, Placed, Does, Popped};

use field::FieldRef;

// The mark of a variable whose value is v.
fn mark_of(v: u8, all: bool) -> u32
    ensures { result ≡ model.mark_of all v }
{
    if all { 2 } else { u32::from(v) }
}

// The marks of all variables, from index base on.
pub fn mark(values: &[u8], all: bool, base: usize, u: &mut [u32])
    requires { base + length values.now ≤ length u.old }
    ensures { u.new ≡ paste u.old base (model.opened all values.now) (length values.now) }
{
    for (i, v) in values.iter().enumerate() {
        u[base + i] = mark_of(*v, all);
    }
}

// Whether an entry of this weight joins its ends.
fn joins_by(zeros: bool, weight: f64) -> bool
    ensures { result ≡ model.joins_by zeros weight }
{
    zeros || weight != 0.0
}

// Variable j, if it is open, is marked and goes onto the stack; how many are on it.
pub fn visit(field: FieldRef, u: &mut [u32], top: usize, j: usize) -> usize
    requires placed { Placed (lent field) (cells u.old top) }
    requires j_bound { j < variables (lent field) }
    ensures { Does (given field) (λ w. model.visit w j) (cells u.old top) (cells u.new result) }
{
    let n = field.c.len();
    let base = n + 1 + 2 * field.rows.len();
    if u[base + j] != 2 {
        return top;
    }
    u[base + j] = 0;
    u[base + n + top] = j as u32;
    top + 1
}

// Place k of variable i: its other end j is visited, if the entry joins.
fn visit_at(
    field: FieldRef,
    zeros: bool,
    u: &mut [u32],
    top: usize,
    i: usize,
    k: usize,
    j: usize,
) -> usize
    requires placed { Placed (lent field) (cells u.old top) }
    requires k_bound { k < entries (lent field) }
    requires j_value { j ≡ other_end (lent field).rows (lent field).cols i k }
    ensures { Does (given field) (λ w. model.visit_at (given field) zeros i w k)
        (cells u.old top)
        (cells u.new result) }
{
    if joins_by(zeros, field.q[k]) {
        visit(field, u, top, j)
    } else {
        top
    }
}

// Every place of variable i, rising; how many are on the stack.
fn push_neighbours(field: FieldRef, zeros: bool, u: &mut [u32], top: usize, i: usize) -> usize
    requires placed { Placed (lent field) (cells u.old top) }
    requires i_bound { i < variables (lent field) }
    ensures { Does (given field) (λ w. model.serve (given field) zeros w i)
        (cells u.old top)
        (cells u.new result) }
{
    let n = field.c.len();
    let start = u[i] as usize;
    let end = u[i + 1] as usize;
    let mut last = top;
    for p in start..end {
        let word = u[n + 1 + p];
        let k = places::entry_in(word);
        let j = places::end_in(word);
        last = visit_at(field, zeros, u, last, i, k, j);
    }
    last
}

// Takes the variable at `from` off the stack and puts it at `to`, behind the members.
fn pop(u: &mut [u32], from: usize, to: usize) -> usize
    requires from_in_bounds { from < length u.old }
    requires to_in_bounds { to < length u.old }
    ensures value { result ≡ get_or u.old from 0 }
    ensures u_value { u.new ≡ set (set u.old from 0) to result }
{
    let i = u[from];
    u[from] = 0;
    u[to] = i;
    i as usize
}

// Pops until the stack is empty: each variable becomes a member and its neighbours are pushed; how many members there are.
pub fn pop_all(field: FieldRef, zeros: bool, u: &mut [u32], top: usize) -> usize
    requires { Placed (lent field) (cells u.old top) }
    ensures { Popped (given field) zeros (cells u.old top) u.new result }
{
    let n = field.c.len();
    let stack = n + 1 + 2 * field.rows.len() + n;
    let members = stack + n;
    let mut last = top;
    let mut count = 0;
    // The stack grows while it is served.
    while 0 < last {
        let below = last - 1;
        let i = pop(u, stack + below, members + count);
        last = push_neighbours(field, zeros, u, below, i);
        count += 1;
    }
    count
}

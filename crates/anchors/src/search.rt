// From start to start: each component's anchor goes into the list.
ghost use Rattle.std.specs.Prelude.{◌≡◌, true, ◌<◌, ◌≤◌, set};
ghost use Rattle.field.specs.Field.{given, lent, variables};
ghost use Rattle.field.specs.Grade.{grade_of};
ghost use Rattle.parts.specs.Walk.{opened};
ghost use Rattle.parts.specs.Cells.{marks_in};
ghost use Rattle.anchors.specs.Cells.{Standing, Visits, Lists};

use crate::members::{all_turnable, find_leader};
use field::{FieldRef, Grade};

// Sets the element at `place`, if the list reaches so far.
fn store(list: &mut [u16], place: usize, value: u16)
    ensures { list.new ≡ set list.old place value }
{
    // A slice's get_mut says nothing of what the slice holds after the write.
    if place < list.len() {
        list[place] = value;
    }
}

// The component of variable i, unless it is seen; how many anchors there are.
fn visit(
    field: FieldRef,
    grade: Grade,
    start: &[u8],
    least: usize,
    i: usize,
    found: usize,
    list: &mut [u16],
    f: &mut [f64],
    u: &mut [u32],
) -> usize
    requires standing { Standing (lent field) start.now f.old u.old }
    requires i_bound { i < variables (lent field) }
    requires found_le_i { found ≤ i }
    requires grade_value { grade ≡ grade_of (lent field) }
    ensures { Visits (given field) start.now least i u.old list.old found u.new list.new result }
{
    let n = field.c.len();
    if u[n + 1 + 2 * field.rows.len() + i] != 2 {
        return found;
    }
    let count = parts::walk(field, false, i, u);
    if count < least {
        return found;
    }
    if !all_turnable(field, grade, start, count, f, u) {
        return found;
    }
    let anchor = find_leader(field, i, count, u);
    store(list, found, anchor as u16);
    found + 1
}

// Looks at every start, rising: the anchor of each component goes into the list, and their count is answered.
pub fn search(
    field: FieldRef,
    grade: Grade,
    start: &[u8],
    least: usize,
    list: &mut [u16],
    f: &mut [f64],
    u: &mut [u32],
) -> usize
    requires standing { Standing (lent field) start.now f.old u.old }
    requires u_value { marks_in (lent field) u.old ≡ opened true start.now }
    requires grade_value { grade ≡ grade_of (lent field) }
    ensures { Lists (given field) start.now least list.old list.new result }
{
    let n = field.c.len();
    let mut found = 0;
    for i in 0..n {
        found = visit(field, grade, start, least, i, found, list, f, u);
    }
    found
}

// Components by a last-in stack: from a start, every open variable that entries join to it.
#![tactic(auto)]

mod steps;

ghost use Rattle.std.specs.Prelude.{◌≡◌, ◌<◌, ◌≤◌, length};
ghost use Rattle.field.specs.Field.{given, lent, variables, Shaped};
ghost use Rattle.parts.specs.Cells.{cells, past, Placed, Begun, Walked};

use field::FieldRef;

// Sets the marks to the start values, or every mark to open, and the places of the stack and of the members to zero.
pub fn begin(field: FieldRef, values: &[u8], all: bool, u: &mut [u32])
    requires shaped { Shaped (lent field) }
    requires values_len { length values.now ≡ variables (lent field) }
    requires q_in_bounds { past (lent field) ≤ length u.old }
    ensures { Begun (given field) all values.now u.old u.new }
{
    let n = field.c.len();
    let base = n + 1 + 2 * field.rows.len();
    let stack = base + n;
    let past = stack + n + n;
    steps::mark(values, all, base, u);
    u[stack..past].fill(0);
}

// The component of the start, in pop order, behind the stack; how many members it has, none if the start is not open.
// Each variable is popped once, so a place is visited once at most: all walks together are O(n + m).
pub fn walk(field: FieldRef, zeros: bool, start: usize, u: &mut [u32]) -> usize
    requires placed { Placed (lent field) (cells u.old 0) }
    requires start_bound { start < variables (lent field) }
    ensures { Walked (given field) zeros start u.old u.new result }
{
    let top = steps::visit(field, u, 0, start);
    steps::pop_all(field, zeros, u, top)
}

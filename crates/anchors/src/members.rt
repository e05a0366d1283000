// What one component comes to: whether all its members may turn, and which one leads.
ghost use Rattle.std.specs.Prelude.{◌≡◌, ◌<◌, length};
ghost use Rattle.field.specs.Field.{given, lent, variables, entries};
ghost use Rattle.field.specs.Grade.{grade_of};
ghost use Rattle.anchors.specs.Model as model;
ghost use Rattle.anchors.specs.Cells.{Members, members_in};

use crate::Leader;
use crate::sums::{is_balanced, weigh};
use field::{FieldRef, Grade};

// Whether every member is without a start value, and symmetric.
pub fn all_turnable(
    field: FieldRef,
    grade: Grade,
    start: &[u8],
    count: usize,
    f: &mut [f64],
    u: &[u32],
) -> bool
    requires members { Members (lent field) count u.now }
    requires start_len { length start.now ≡ variables (lent field) }
    requires q_in_bounds { entries (lent field) < length f.old }
    requires grade_value { grade ≡ grade_of (lent field) }
    ensures { result ≡ model.all_turnable (given field) start.now (members_in (given field) count u.now) }
{
    let n = field.c.len();
    let members = n + 1 + 2 * field.rows.len() + n + n;
    for h in 0..count {
        let i = u[members + h] as usize;
        if start[i] != 2 || !is_balanced(field, grade, i, f, u) {
            return false;
        }
    }
    true
}

// The member with the greatest weight, of those the lowest.
pub fn find_leader(field: FieldRef, first: usize, count: usize, u: &[u32]) -> usize
    requires members { Members (lent field) count u.now }
    requires first_bound { first < variables (lent field) }
    ensures { result ≡ model.leads (given field) first (members_in (given field) count u.now) }
{
    let n = field.c.len();
    let members = n + 1 + 2 * field.rows.len() + n + n;
    let weight = weigh(field, first, u);
    let mut leader = Leader {
        variable: first,
        weight,
    };
    for p in 0..count {
        let i = u[members + p] as usize;
        leader = leader.against(i, weigh(field, i, u));
    }
    leader.variable
}
